// The bus of a page-write flash chip: loads, load periods and their results, the interface to a part, and the law that
// every part keeps over whole lists of bus calls.
#![tactic(auto)]

pub mod call;
pub mod closed;
pub mod codes;
pub mod identity;
pub mod kind;
pub mod lent;
pub mod load;
pub mod outcome;
pub mod refusal;
pub mod replay;
pub mod socket;
