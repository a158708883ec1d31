// Bus calls of other software, passed on as they come: one call each, with its own answer. None settles, which is the clause `told` of
// each: one short equation about the call's own result, which a shared form would only make longer.
ghost use Rattle.std.specs.Prelude.{◌≡◌};
ghost use Rattle.std.specs.Result.{result_err};
ghost use Rattle.bus.specs.History.{load_answer, read_answer};
ghost use Rattle.bus.specs.Steps.{Loads, Reads, Waits};
ghost use Rattle.bus.specs.declared.call.Call.TheVariants as Calls;
ghost use Rattle.bus.specs.declared.call.Response.TheVariants.{Waited};

use crate::driver::Driver;
use bus::load::Load;
use bus::refusal::BusRefusal;
use bus::socket::Socket;

impl<S: Socket> Driver<S> {
    pub fn pass_load(&mut self, load: Load, gap: u16) -> Result<(), BusRefusal>
        ensures moves { Loads load gap (S.meaning self.old.socket) (S.meaning self.new.socket) (result_err result) }
        ensures own { S.promise self.old.socket (Calls.Load load gap) (load_answer (result_err result)) self.new.socket }
        ensures told { self.new.settling_reads ≡ 0 }
    {
        self.settling_reads = 0;
        self.socket.load(load, gap)
    }

    pub fn pass_read(&mut self, address: u32, gap: u16) -> Result<u8, BusRefusal>
        ensures moves { Reads address gap (S.meaning self.old.socket) (S.meaning self.new.socket) result }
        ensures own { S.promise self.old.socket (Calls.Read address gap) (read_answer result) self.new.socket }
        ensures told { self.new.settling_reads ≡ 0 }
    {
        self.settling_reads = 0;
        self.socket.read(address, gap)
    }

    pub fn pass_wait(&mut self, gap: u16)
        ensures moves { Waits gap (S.meaning self.old.socket) (S.meaning self.new.socket) }
        ensures own { S.promise self.old.socket (Calls.Wait gap) (Ok Waited) self.new.socket }
        ensures told { self.new.settling_reads ≡ 0 }
    {
        self.settling_reads = 0;
        self.socket.wait(gap);
    }
}
