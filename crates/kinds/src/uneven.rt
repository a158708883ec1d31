// The uneven part: the cycle times of a list in turn, inverted unloaded bytes, ones in the free bits of a status.
ghost use Rattle.std.specs.Prelude.{◌≡◌, None};
ghost use Rattle.kinds.specs.Style.{uneven_style, uneven_times, uneven_timely};

use crate::behaviour::{Behaviour, nearest_cycle_time};
use crate::refusal::PartRefusal;

// The place is counted by hand and not kept by an iterator, since the times to come are told of a list and a place in it.
#[derive(Drop)]
pub struct Uneven<'t> {
    times: &'t [u16],
    next: usize,
}

impl<'t> Uneven<'t> {
    pub fn new(times: &'t [u16]) -> Uneven<'t>
        ensures { (result.times.now ≡ times.now) × (result.next ≡ 0) }
    {
        Uneven { times, next: 0 }
    }
}

impl Behaviour for Uneven<'_> {
    ghost style = { uneven_style };

    ghost fault = { λ _. None };

    ghost times = { λ s. uneven_times s.times.now s.next };

    ghost timely = { λ s. uneven_timely s.times.now s.next };

    fn check(&self) -> Result<(), PartRefusal> {
        Ok(())
    }

    fn next_time(&mut self) -> u16 {
        match self.times {
            [] => 10000,
            times => {
                let at = self.next % times.len();
                self.next = at + 1;
                nearest_cycle_time(times[at])
            }
        }
    }

    fn fill(&self, old: u8) -> u8 {
        255 - old
    }

    fn free_bits(&self) -> u8 {
        0x3F
    }

    fn first_toggle(&self) -> bool {
        true
    }
}
