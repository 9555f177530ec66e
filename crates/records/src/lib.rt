// The records of a network file: one layer's record read, or refused for the first fault met in it.
#![tactic(auto)]

pub mod add;
pub mod conv;
pub mod frame;
pub mod full;
pub mod layer;
pub mod mark;
pub mod reader;
pub mod weighing;
