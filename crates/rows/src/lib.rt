// Rows of 128 bytes: the interface to what keeps them.
#![tactic(auto)]

pub mod lent;
pub mod refusal;
pub mod store;
