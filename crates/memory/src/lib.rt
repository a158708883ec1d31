// A store of rows over lent memory.
#![tactic(auto)]

pub mod store;
