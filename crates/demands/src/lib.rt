// The summit: the three demands as theorems about the questions of the library and about what the program
// prints, each from the promises as they stand in the source. Laws only; there is no function here.
#![tactic(auto)]
