// Why the bus refuses a call.
ghost use Rattle.std.specs.Prelude.{◌≡◌};
ghost use Rattle.bus.specs.Refusals.{bus_number};

#[derive(Clone, Copy, PartialEq, Eq, Debug)]
pub enum BusRefusal {
    // The address lies outside the part.
    Outside = 1,
    // A program cycle is running.
    Busy = 2,
    // The load would complete the code of identification or of chip erase, which the bus does not let through.
    ReservedCode = 3,
}

impl BusRefusal {
    // The number that reports give the refusal.
    pub fn number(self) -> u8
        ensures { result ≡ bus_number self }
    {
        self as u8
    }
}
