// Waiting until a part in a socket is at rest, by its toggle bit.
#![tactic(auto)]

pub mod settle;
