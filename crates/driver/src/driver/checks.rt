// The checks of a call, in the order in which they are made.
ghost use Rattle.std.specs.Prelude.{◌≡◌, ◌≤◌, true, false, MatchResult};
ghost use Rattle.rows.specs.declared.refusal.RowRefusal.TheVariants as Refusals;
ghost use Rattle.bus.specs.Meaning.{rest, with_phase};
ghost use Rattle.bus.specs.Outcomes.{is_locked};
ghost use Rattle.settling.specs.Settling.{Settles};
ghost use Rattle.driver.specs.Loading.{Present};

use crate::driver::Driver;
use crate::lock::ask_lock;
use bus::socket::Socket;
use rows::refusal::RowRefusal;
use settling::settle::settle;

impl<S: Socket> Driver<S> {
    // Settles, and refuses a row that the part does not have.
    pub(crate) fn settle_at(&mut self, row: usize) -> Result<(), RowRefusal>
        ensures settles { Settles (S.meaning self.old.socket) (S.meaning self.new.socket) self.new.settling_reads }
        ensures checked { MatchResult result (λ _. Present (S.meaning self.new.socket) row) (λ e. (e ≡ Refusals.Absent) × ((S.meaning self.new.socket).sectors ≤ row)) }
    {
        self.settling_reads = settle(&mut self.socket);
        if row >= self.socket.sectors() as usize {
            return Err(RowRefusal::Absent);
        }
        Ok(())
    }

    // Refuses a row in a locked boot block.
    pub(crate) fn refuse_locked(&mut self, row: usize) -> Result<(), RowRefusal>
        ensures free { MatchResult result (λ _. is_locked (S.meaning self.old.socket).sectors (S.meaning self.old.socket).settled row ≡ false) (λ e. (e ≡ Refusals.Locked) × (is_locked (S.meaning self.old.socket).sectors (S.meaning self.old.socket).settled row ≡ true)) }
        ensures after { S.meaning self.new.socket ≡ with_phase (S.meaning self.old.socket) rest }
        ensures told { self.new.settling_reads ≡ self.old.settling_reads }
    {
        if ask_lock(&mut self.socket, row) {
            return Err(RowRefusal::Locked);
        }
        Ok(())
    }
}
