// Why memory or a cycle time does not make a part.
ghost use Rattle.std.specs.Prelude.{◌≡◌};
ghost use Rattle.kinds.specs.Refusals.{part_number};

#[derive(Clone, Copy, PartialEq, Eq, Debug)]
pub enum PartRefusal {
    // The memory is not the sectors of the kind.
    Memory = 8,
    // The cycle time is not 1 to 10,000 microseconds.
    CycleTime = 9,
}

impl PartRefusal {
    // The number that reports give the refusal.
    pub fn number(self) -> u8
        ensures { result ≡ part_number self }
    {
        self as u8
    }
}
