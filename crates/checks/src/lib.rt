// The tests that the calls make beside the file's own, and what the bands need of a network.
#![tactic(auto)]

pub mod tensors;
pub mod tests;
