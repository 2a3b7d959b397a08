// The steps by which a function over what it is lent is proved by hand: a slice of structs, one struct behind
// `&mut` or `&`, a local array or struct that is lent on. Laws only; there is no function here. They speak of
// no struct of the house: a crate that has one to lend gives its row (crate `records`, proofs/Table.antt) and
// takes the steps from here. They say what may be done with memory, and nothing of what is computed.
#![tactic(auto)]
