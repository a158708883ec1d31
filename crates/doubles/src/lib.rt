// Stand-ins for what a test or a demonstration needs and no memory has.
#![tactic(auto)]

pub mod lockout;
