// Calls of ours and of other software, and their answers, as values.
use bus::call::Answer;
use bus::load::Load;
use row_lists::calls::{RowAnswer, RowCall};
use rows::refusal::RowRefusal;

// The boot blocks: the first 64 rows, and the last 64.
#[derive(Clone, Copy, PartialEq, Eq, Debug)]
pub enum BootBlock {
    Lower,
    Upper,
}

// A bus call of other software. The number that comes last is its gap. A type of its own beside the bus's: others do not identify the
// part, so with the bus's type there would be a call that the driver cannot pass on.
#[derive(Clone, Copy, PartialEq, Eq, Debug)]
pub enum OthersCall {
    Load(Load, u16),
    Read(u32, u16),
    Wait(u16),
}

#[derive(PartialEq, Eq, Debug, Drop)]
pub enum ServiceCall {
    // Ours, on a row.
    Row(RowCall),
    // Ours: lock a boot block.
    Lock(BootBlock),
    Others(OthersCall),
}

#[derive(PartialEq, Eq, Debug, Drop)]
pub enum ServiceAnswer {
    Row(RowAnswer),
    Lock(Result<(), RowRefusal>),
    Others(Answer),
}

// An answer, and how many reads the call made to settle.
#[derive(PartialEq, Eq, Debug, Drop)]
pub struct Reply {
    pub answer: ServiceAnswer,
    pub settling_reads: u32,
}
