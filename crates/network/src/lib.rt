// The network file: decoded, or refused by tests 1 to 3; and test 9, of a record that is to replace a layer's.
#![tactic(auto)]

pub mod file;
pub mod head;
pub mod net;
pub mod replace;
