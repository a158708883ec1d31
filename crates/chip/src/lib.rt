// The part: a socket over lent memory that keeps every rule, and tells exactly what it chooses.
#![tactic(auto)]

pub mod part;
mod phase;
