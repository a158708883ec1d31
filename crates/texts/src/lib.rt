// Answers of the bus as a support engineer reads them.
#![tactic(auto)]

use bus::call::Answer;
use std::fmt;

// The library's Result cannot be given a text, so the answer of a bus call has one here.
#[derive(Clone, Copy)]
pub struct BusAnswer(pub Answer);

impl fmt::Display for BusAnswer {
    fn fmt<W: fmt::Write>(&self, f: &mut fmt::Formatter<W>) -> fmt::Result {
        match self.0 {
            Ok(response) => write!(f, "{response}"),
            Err(refusal) => write!(f, "refused {}", refusal.number()),
        }
    }
}
