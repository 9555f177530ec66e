// The text of the listing program, on slices.
#![tactic(auto)]

mod line;
mod text;

pub use line::list;
