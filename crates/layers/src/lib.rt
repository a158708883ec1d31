// Layers that show the rows of any stores in another number and order.
#![tactic(auto)]

pub mod pair;
pub mod window;
