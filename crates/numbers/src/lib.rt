// The numbers of the integer scheme: the total of an output, the total rescaled, the output byte, and the steps of an add; lengths in
// strides; and the limits.
#![tactic(auto)]

pub mod addition;
pub mod finish;
pub mod limits;
pub mod rescale;
pub mod stride;
pub mod total;
