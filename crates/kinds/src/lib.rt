// What tells parts apart: their kinds, and the behaviours that choose for them.
#![tactic(auto)]

pub mod behaviour;
pub mod part_kind;
pub mod refusal;
pub mod steady;
pub mod uneven;
