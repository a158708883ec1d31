// The open load period as a part keeps it: constant work for each load.
#![tactic(auto)]

mod head;
pub mod open;
pub mod page;
