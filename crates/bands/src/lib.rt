// Stale bands of rows: the state, test 5, what a band reaches and how bands grow in an update.
#![tactic(auto)]

pub mod band;
pub mod reach;
pub mod state;
