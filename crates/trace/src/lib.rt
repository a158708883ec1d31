// A trace: a line of column names, then one line for each bus cycle.
#![tactic(auto)]

mod column;
mod cycle;
mod lines;
mod names;
mod refusal;
mod row;

pub use column::{Column, Columns};
pub use cycle::Cycle;
pub use refusal::LineRefusal;
