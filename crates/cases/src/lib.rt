// The cases of the rules (section 11) as tables, and that the definitions of crate `hall` give their
// outcomes. Laws only; there is no function here. A line of a table costs no proof of its own: a test
// computes it. They stand above `hall`, so that a change of its laws is checked without them.
#![tactic(auto)]
