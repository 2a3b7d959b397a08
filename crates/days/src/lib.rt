// A day of the floor book (rules 13.9 to 13.13, 13.18 and 13.19): what is owed to an empty book and the
// admissions and trolleys made to it, on one network, where nothing else changes it. Laws only; there is no
// function here. The theorems, a few lines each, are in proofs/Theorems.antt.
#![tactic(auto)]
