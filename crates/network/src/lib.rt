// Lane networks from numbers, two a lane, one a closed node and two a move: whether a network, the moves on
// it, an order over them and a dwell are sound, and whether a node is closed.
#![tactic(auto)]

pub mod checks;
pub mod closed;
pub mod entries;
pub mod lanes;
