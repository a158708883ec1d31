// The reference parts: checking and making them, and lists of bus calls on them.
#![tactic(auto)]

pub mod making;
pub mod run;
