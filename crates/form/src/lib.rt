// The written form of a job text, with its sections as data (rules 7.1 to 7.14, 7.17 and 7.18). This crate
// has no function: specs/ says, of written lines alone, when a text is accepted and with which number it is
// refused at which line; proofs/ has the laws. A reader stands above it, and its promise cites these
// definitions.
#![tactic(auto)]
