// One cycle as a line of a trace, in the order op, gap, addr, data.
#![tactic(auto)]

mod line;
mod refusal;
mod values;
mod write;

pub use refusal::WriteRefusal;
pub use write::{write_and_read, write_cycle};
