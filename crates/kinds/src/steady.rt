// The steady part: one cycle time always, FF in unloaded bytes, zeros in the free bits of a status.
ghost use Rattle.std.specs.Prelude.{◌≡◌};
ghost use Rattle.kinds.specs.Style.{steady_style, steady_times, steady_timely};
ghost use Rattle.kinds.specs.Refusals.{time_fault};

use crate::behaviour::{Behaviour, nearest_cycle_time};
use crate::refusal::PartRefusal;

#[derive(Drop)]
pub struct Steady {
    time: u16,
}

impl Steady {
    pub fn new(time: u16) -> Steady
        ensures { result.time ≡ time }
    {
        Steady { time }
    }
}

impl Behaviour for Steady {
    ghost style = { steady_style };

    ghost fault = { λ s. time_fault s.time };

    ghost times = { λ s. steady_times s.time };

    ghost timely = { λ s. steady_timely s.time };

    fn check(&self) -> Result<(), PartRefusal> {
        if (1..=10000).contains(&self.time) {
            Ok(())
        } else {
            Err(PartRefusal::CycleTime)
        }
    }

    fn next_time(&mut self) -> u16 {
        nearest_cycle_time(self.time)
    }

    fn fill(&self, _old: u8) -> u8 {
        0xFF
    }

    fn free_bits(&self) -> u8 {
        0x00
    }

    fn first_toggle(&self) -> bool {
        false
    }
}
