// Wirings of eight data lines, as a board crosses them between a module and its chip.
#![tactic(auto)]

mod lines;
pub mod refusal;
pub mod wiring;
