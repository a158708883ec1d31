// The interface to a part: the bus calls and the number of sectors, against one meaning.
ghost use Rattle.std.specs.Result.{result_err};
ghost use Rattle.std.specs.Prelude.{◌≡◌};
ghost use Rattle.bus.specs.Meaning.{Chip};
ghost use Rattle.bus.specs.Steps.{Loads, Reads, Waits, Identifies};
ghost use Rattle.bus.specs.Lawful.{Lawful};
ghost use Rattle.bus.specs.History.{Answer, load_answer, read_answer};
ghost use Rattle.bus.specs.declared.call.Call.{Call};
ghost use Rattle.bus.specs.declared.call.Call.TheVariants as Calls;
ghost use Rattle.bus.specs.declared.call.Response.TheVariants.{Waited, Identified};

use crate::identity::Identity;
use crate::load::Load;
use crate::refusal::BusRefusal;

// A gap is the microseconds since the call before; it passes before the call does anything else.
pub trait Socket {
    ghost meaning: { Self → Chip };

    // Sizes and bounds that hold in every state.
    ghost lawful: { (s : Self) → Lawful (meaning s) };

    // What this socket promises of a call beyond the rules of every socket: its own choices. Nothing, unless it says so.
    ghost promise: { Self → Call → Answer → Self → Type 0 } = { λ _ _ _ _. Unit {0} };

    fn sectors(&self) -> u32
        ensures { result ≡ (meaning self.now).sectors };

    fn load(&mut self, load: Load, gap: u16) -> Result<(), BusRefusal>
        ensures moves { Loads load gap (meaning self.old) (meaning self.new) (result_err result) }
        ensures own { promise self.old (Calls.Load load gap) (load_answer (result_err result)) self.new };

    fn read(&mut self, address: u32, gap: u16) -> Result<u8, BusRefusal>
        ensures moves { Reads address gap (meaning self.old) (meaning self.new) result }
        ensures own { promise self.old (Calls.Read address gap) (read_answer result) self.new };

    fn wait(&mut self, gap: u16)
        ensures moves { Waits gap (meaning self.old) (meaning self.new) }
        ensures own { promise self.old (Calls.Wait gap) (Ok Waited) self.new };

    fn identify(&mut self) -> Identity
        ensures moves { Identifies (meaning self.old) (meaning self.new) result }
        ensures own { promise self.old Calls.Identify (Ok (Identified result)) self.new };
}
