// Windows of a tensor: gathered into a patch in the order of the weights, and their sums.
#![tactic(auto)]

pub mod dots;
pub mod window;
