// The result of a load period.
ghost use Rattle.std.specs.Prelude.{◌≡◌, Some};
ghost use Rattle.bus.specs.Outcomes.{sector_told};
ghost use Rattle.bus.specs.Words.{outcome_word};

use std::fmt;

// The first that applies, in this order.
#[derive(Clone, Copy, PartialEq, Eq, Debug)]
pub enum Outcome {
    // A boot block was locked.
    Set,
    // Data protection kept a plain period out.
    Barred,
    // There were no data loads.
    Empty,
    // The data loads named two sectors or more.
    Mixed,
    // The sector lies in a locked boot block.
    Locked(u32),
    // The sector was programmed.
    Written(u32),
}

impl Outcome {
    // The word that reports print.
    pub fn word(self) -> &'static str
        ensures { result.now ≡ outcome_word self }
    {
        match self {
            Outcome::Set => "set",
            Outcome::Barred => "barred",
            Outcome::Empty => "empty",
            Outcome::Mixed => "mixed",
            Outcome::Locked(_) => "locked",
            Outcome::Written(_) => "written",
        }
    }

    // The sector, of a period that a lock kept out or that was written.
    pub fn sector(self) -> Option<u32>
        ensures { result ≡ sector_told self }
    {
        match self {
            Outcome::Locked(sector) | Outcome::Written(sector) => Some(sector),
            _ => None,
        }
    }
}

// By hand: a derived Display promises nothing of what it prints.
impl fmt::Display for Outcome {
    ghost output = { λ o. Some (outcome_word o) };

    fn fmt<W: fmt::Write>(&self, f: &mut fmt::Formatter<W>) -> fmt::Result {
        f.write_str(self.word())
    }
}
