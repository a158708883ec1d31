// Row calls and their answers as values, so that a list of them can be made on any store.
use crate::bytes::Bytes;
use rows::refusal::RowRefusal;
use std::fmt;

#[derive(PartialEq, Eq, Debug, Drop)]
pub enum RowCall {
    CountRows,
    // The place goes along with the call, and comes back with the answer.
    Read { row: usize, place: Vec<u8> },
    Write { row: usize, bytes: Vec<u8> },
    AskLock { row: usize },
}

#[derive(PartialEq, Eq, Debug, Drop)]
pub enum RowAnswer {
    Count(usize),
    Place {
        place: Vec<u8>,
        result: Result<(), RowRefusal>,
    },
    Done(Result<(), RowRefusal>),
    Lock(Result<bool, RowRefusal>),
}

impl fmt::Display for RowCall {
    fn fmt<W: fmt::Write>(&self, f: &mut fmt::Formatter<W>) -> fmt::Result {
        match self {
            RowCall::CountRows => write!(f, "count the rows"),
            RowCall::Read { row, place } => {
                let room = place.len();
                write!(f, "read row {row} into {room} bytes")
            }
            RowCall::Write { row, bytes } => {
                let bytes = Bytes(bytes);
                write!(f, "write {bytes} to row {row}")
            }
            RowCall::AskLock { row } => write!(f, "is row {row} locked"),
        }
    }
}

impl fmt::Display for RowAnswer {
    fn fmt<W: fmt::Write>(&self, f: &mut fmt::Formatter<W>) -> fmt::Result {
        match self {
            RowAnswer::Count(rows) => write!(f, "{rows}"),
            RowAnswer::Place { place, result } => {
                let place = Bytes(place);
                if let Err(refusal) = result {
                    refuse(*refusal, f)?;
                    write!(f, "; the place holds ")?;
                }
                write!(f, "{place}")
            }
            RowAnswer::Done(Ok(())) => write!(f, "accepted"),
            RowAnswer::Lock(Ok(true)) => write!(f, "locked"),
            RowAnswer::Lock(Ok(false)) => write!(f, "open"),
            RowAnswer::Done(Err(refusal)) | RowAnswer::Lock(Err(refusal)) => refuse(*refusal, f),
        }
    }
}

fn refuse<W: fmt::Write>(refusal: RowRefusal, f: &mut fmt::Formatter<W>) -> fmt::Result {
    let number = refusal.number();
    write!(f, "refused {number}, {refusal}")
}
