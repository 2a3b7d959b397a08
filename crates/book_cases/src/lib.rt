// The cases of the floor book (rules 11.18 and 11.19) and of trolleys of calls to it (rules 11.20 and 11.21)
// as tables, and that the definitions of the crates `slots` and `admission` give their outcomes. Laws only;
// there is no function here. A line of a table costs no proof of its own: a test computes it. They stand
// above `admission`, so that a change of its laws is checked without them.
#![tactic(auto)]
