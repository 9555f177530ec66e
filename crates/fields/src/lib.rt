// The fields of a record: its bytes as numbers, the tests of their ranges, shapes, and the biases and weights that follow.
#![tactic(auto)]

pub mod bytes;
pub mod faults;
pub mod shape;
pub mod stored;
