// Worked cases of the definitions.
#![tactic(auto)]

pub mod worked;
