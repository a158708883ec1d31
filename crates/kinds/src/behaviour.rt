// What a part chooses for itself.
ghost use Rattle.std.specs.Prelude.{◌≡◌, ℕ, ◌+◌, Option};
ghost use Rattle.std.specs.Result.{result_err};
ghost use Rattle.kinds.specs.Style.{Style, Timely, nearest};
ghost use Rattle.kinds.specs.declared.refusal.PartRefusal.{PartRefusal as Fault};

use crate::refusal::PartRefusal;

// A cycle time moved to the nearest of 1 to 10,000 microseconds.
pub fn nearest_cycle_time(time: u16) -> u16
    ensures { result ≡ nearest time }
{
    time.clamp(1, 10000)
}

pub trait Behaviour {
    // What fills an unloaded byte, the free bits of a status, and the first bit 6.
    ghost style: { Style };

    // What the check of a part has against it.
    ghost fault: { Self → Option Fault };

    // The cycle times to come, the next one first.
    ghost times: { Self → ℕ → ℕ };

    ghost timely: { (s : Self) → Timely (times s) };

    fn check(&self) -> Result<(), PartRefusal>
        ensures { result_err result ≡ fault self.now };

    fn next_time(&mut self) -> u16
        ensures value { result ≡ times self.old 0 }
        ensures onward { (k : ℕ) → times self.new k ≡ times self.old (k + 1) };

    // What becomes of an unloaded byte.
    fn fill(&self, old: u8) -> u8
        ensures { result ≡ style.filler old };

    // Bits 5 to 0 of a status.
    fn free_bits(&self) -> u8
        ensures { result ≡ style.free };

    // Bit 6 of the first status.
    fn first_toggle(&self) -> bool
        ensures { result ≡ style.first };
}
