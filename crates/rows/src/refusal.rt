// Why a row call is refused.
ghost use Rattle.std.specs.Prelude.{◌≡◌, Some};
ghost use Rattle.rows.specs.Refusals.{number, words};

use std::error::Error;
use std::fmt;

// In the order in which the checks are made: the first that fails is the answer. Each has its number.
#[derive(Clone, Copy, PartialEq, Eq, Debug)]
pub enum RowRefusal {
    // the row does not exist
    Absent = 4,
    // the place has under 128 bytes, or the write has not exactly 128
    Length = 5,
    // the row is locked
    Locked = 6,
}

impl RowRefusal {
    // The number by which the refusal is known.
    pub fn number(self) -> u8
        ensures { result ≡ number self }
    {
        self as u8
    }

    // The refusal in words.
    pub fn words(self) -> &'static str
        ensures { result.now ≡ words self }
    {
        match self {
            RowRefusal::Absent => "no such row",
            RowRefusal::Length => "not 128 bytes",
            RowRefusal::Locked => "row locked",
        }
    }
}

// By hand: a derived Display promises nothing of what it prints.
impl fmt::Display for RowRefusal {
    ghost output = { λ refusal. Some (words refusal) };

    fn fmt<W: fmt::Write>(&self, f: &mut fmt::Formatter<W>) -> fmt::Result {
        f.write_str(self.words())
    }
}

impl Error for RowRefusal {}
