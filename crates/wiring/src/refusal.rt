// Why a wiring is refused.
ghost use Rattle.std.specs.Prelude.{◌≡◌, Some};
ghost use Rattle.wiring.specs.Refusals.{number, words};

use std::error::Error;
use std::fmt;

// Each refusal has its number.
#[derive(Clone, Copy, PartialEq, Eq, Debug)]
pub enum WiringRefusal {
    // not each of 0 to 7 is named once
    NotOnce = 7,
}

impl WiringRefusal {
    // The number by which the refusal is known.
    pub fn number(self) -> u8
        ensures { result ≡ number self }
    {
        self as u8
    }

    // The refusal in words.
    pub fn words(self) -> &'static str
        ensures { result.now ≡ words self }
    {
        match self {
            WiringRefusal::NotOnce => "not each line once",
        }
    }
}

// By hand: a derived Display promises nothing of what it prints.
impl fmt::Display for WiringRefusal {
    ghost output = { λ refusal. Some (words refusal) };

    fn fmt<W: fmt::Write>(&self, f: &mut fmt::Formatter<W>) -> fmt::Result {
        f.write_str(self.words())
    }
}

impl Error for WiringRefusal {}
