// The calls of the joiner. Each finishes on every input, asks nothing of its caller, and checks network, sums, work area and
// state itself: see the refusal numbers in README.md.
#![tactic(auto)]

mod changing;
mod loading;
mod outcome;
mod reading;
mod replacing;
mod sizing;
mod updating;

pub use bands::state::State;
pub use changing::change_rows;
pub use loading::load;
pub use outcome::{Outcome, Sizes};
pub use reading::read;
pub use replacing::replace_layer;
pub use sizing::sizes;
pub use updating::update;
