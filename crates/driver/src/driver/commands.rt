// Data protection, and the lockout of the boot blocks.
ghost use Rattle.std.specs.Prelude.{◌≡◌};
ghost use Rattle.bus.specs.Meaning.{State};
ghost use Rattle.rows.specs.RowCalls.{write_check};
ghost use Rattle.driver.specs.Calls.{Checked, Commanded};
ghost use Rattle.driver.specs.Loading.{Ready, Sends};
ghost use Rattle.driver.specs.DriverRows.{driver_rows};
ghost use Rattle.driver.specs.Settled.{after_protect, after_lift, after_lock_low, after_lock_high};

use crate::code::{lock_out, open};
use crate::driver::Driver;
use crate::sector::lift_sector;
use bus::codes;
use bus::load::Load;
use bus::socket::Socket;
use rows::refusal::RowRefusal;
use rows::store::ROW_BYTES;
use settling::settle::settle;

impl<S: Socket> Driver<S> {
    // Settles, sends the loads of a command to the part at rest, and settles again. A part that has sectors has row 0.
    fn command<F: FnOnce(&mut S)>(&mut self, send: F) -> Result<(), RowRefusal>
        requires { (s : _) → Ready (S.meaning s.now) → F.pre send s }
        ensures { (after : State → State) → Sends (λ s. S.meaning s.now) (λ s t. F.post send s tt t) after → Commanded (S.meaning self.old.socket) (S.meaning self.new.socket) self.new.settling_reads result (after (S.meaning self.old.socket).settled) }
    {
        self.settle_at(0)?;
        send(&mut self.socket);
        self.settling_reads += settle(&mut self.socket);
        Ok(())
    }

    // Turns data protection on.
    pub fn protect(&mut self) -> Result<(), RowRefusal>
        ensures { Commanded (S.meaning self.old.socket) (S.meaning self.new.socket) self.new.settling_reads result (after_protect (S.meaning self.old.socket).settled) }
    {
        let code = codes::coded();
        self.command(|socket| open(socket, &code))
    }

    // Locks the lower boot block for good.
    pub fn lock_low(&mut self) -> Result<(), RowRefusal>
        ensures { Commanded (S.meaning self.old.socket) (S.meaning self.new.socket) self.new.settling_reads result (after_lock_low (S.meaning self.old.socket).settled) }
    {
        let last = Load {
            address: 0,
            byte: 0x00,
        };
        self.command(|socket| lock_out(socket, last))
    }

    // Locks the upper boot block for good.
    pub fn lock_high(&mut self) -> Result<(), RowRefusal>
        ensures { Commanded (S.meaning self.old.socket) (S.meaning self.new.socket) self.new.settling_reads result (after_lock_high (S.meaning self.old.socket).settled) }
    {
        self.command(
            |socket: &mut S|
                requires { Ready (S.meaning socket.old) }
            {
                let last = Load {
                    address: ROW_BYTES as u32 * socket.sectors() - 1,
                    byte: 0xFF,
                };
                lock_out(socket, last);
            },
        )
    }

    // Turns data protection off, by a row that is read and loaded back.
    pub fn lift(&mut self, row: usize) -> Result<(), RowRefusal>
        ensures { Checked (S.meaning self.old.socket) (S.meaning self.new.socket) self.new.settling_reads result (write_check (driver_rows (S.meaning self.old.socket)) row 128) 2 128 (after_lift (S.meaning self.old.socket).settled) }
    {
        self.settle_at(row)?;
        self.refuse_locked(row)?;
        lift_sector(&mut self.socket, row);
        self.settling_reads += settle(&mut self.socket);
        Ok(())
    }
}
