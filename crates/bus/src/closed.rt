// What a load period came to when it closed: its kind and its result.
use crate::kind::Kind;
use crate::outcome::Outcome;

#[derive(Clone, Copy, PartialEq, Eq, Debug)]
pub struct Closed {
    pub kind: Kind,
    pub outcome: Outcome,
}
