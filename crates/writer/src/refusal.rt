ghost use Rattle.std.specs.Prelude.{◌≡◌};
ghost use Rattle.writer.specs.Refusals.{write_number};

// Why a cycle is not written, by the number under which it is reported.
#[derive(Clone, Copy, PartialEq, Eq, Debug)]
pub enum WriteRefusal {
    // Its address does not fit the digits of a line.
    Address = 1,
    // The place has no room for the longest line.
    Place = 5,
}

impl WriteRefusal {
    pub fn number(self) -> u8
        ensures { result ≡ write_number self }
    {
        self as u8
    }
}
