// Slices that are written a part at a time.
#![tactic(auto)]

pub mod write;
