// The cases of the question whether a move may go at a tick (rules 11.24 and 11.25) as tables, and that the
// definitions of the crates `slots` and `admission` give their answers. Laws only; there is no function here.
// A line of a table costs no proof of its own: a test computes it, by the tests of `book_cases`.
#![tactic(auto)]
