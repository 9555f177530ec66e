// What load fills the sums with, and what an update recomputes.
#![tactic(auto)]

pub mod fill;
pub mod recompute;
