// Lists of calls on a driver, our own and those of other software on the same bus.
#![tactic(auto)]

pub mod calls;
pub mod harmless;
pub mod make;
pub mod serve;
