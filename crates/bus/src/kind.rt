// The kind of a load period.
ghost use Rattle.std.specs.Prelude.{◌≡◌, Some};
ghost use Rattle.bus.specs.Words.{kind_word};

use std::fmt;

// Told by the code at the head of the period.
#[derive(Clone, Copy, PartialEq, Eq, Debug)]
pub enum Kind {
    // The code of protected programming.
    Coded,
    // The code that lifts data protection.
    Lift,
    // The lockout code of the lower boot block.
    Low,
    // The lockout code of the upper boot block.
    High,
    // No code.
    Plain,
}

impl Kind {
    // The word that reports print.
    pub fn word(self) -> &'static str
        ensures { result.now ≡ kind_word self }
    {
        match self {
            Kind::Coded => "coded",
            Kind::Lift => "lift",
            Kind::Low => "low",
            Kind::High => "high",
            Kind::Plain => "plain",
        }
    }
}

// By hand: a derived Display promises nothing of what it prints.
impl fmt::Display for Kind {
    ghost output = { λ k. Some (kind_word k) };

    fn fmt<W: fmt::Write>(&self, f: &mut fmt::Formatter<W>) -> fmt::Result {
        f.write_str(self.word())
    }
}
