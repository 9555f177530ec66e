// What each kind of layer makes, a row at a time, written into the work area; and the sums of its weights.
#![tactic(auto)]

pub mod add;
pub mod conv;
pub mod full;
pub mod outputs;
pub mod row;
pub mod source;
pub mod start;
pub mod stored;
pub mod sums;
