// Lists of row calls on any store, and the law that they keep.
#![tactic(auto)]

pub mod bytes;
pub mod calls;
pub mod perform;
