// The layer that shows the bytes of any store through a wiring.
#![tactic(auto)]

pub mod crossing;
