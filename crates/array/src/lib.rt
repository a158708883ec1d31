// The memory array of a part: its bytes, data protection and boot block lockout, and what closing a load period does to them.
#![tactic(auto)]

pub mod flash;
