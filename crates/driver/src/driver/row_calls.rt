// The driver as a store: sector r is row r, with its settled bytes and its lock.
ghost use Rattle.std.specs.Prelude.{◌≡◌};
ghost use Rattle.rows.specs.Exchanges.{ask_count, give_count};
ghost use Rattle.rows.specs.Rows.{Kept};
ghost use Rattle.driver.specs.Calls.{RowDriven};
ghost use Rattle.driver.specs.DriverRows.{driver_rows, driver_lawful};

use crate::driver::Driver;
use crate::lock::ask_lock;
use crate::sector::{read_sector, write_sector};
use bus::socket::Socket;
use rows::refusal::RowRefusal;
use rows::store::Store;
use settling::settle::settle;

impl<S: Socket> Store for Driver<S> {
    ghost meaning = { λ d. driver_rows (S.meaning d.socket) };

    ghost lawful = { λ d. driver_lawful (S.meaning d.socket) (S.lawful d.socket) };

    // Each call tells how many reads it made to settle, and what it leaves in the part.
    ghost promise = { λ d asked given e. RowDriven (S.meaning d.socket) (S.meaning e.socket) asked given e.settling_reads };

    fn rows(&mut self) -> usize
        ensures counts { result ≡ (S.meaning self.old.socket).sectors }
        ensures kept { Kept (driver_rows (S.meaning self.old.socket)) (driver_rows (S.meaning self.new.socket)) }
        ensures own { RowDriven (S.meaning self.old.socket) (S.meaning self.new.socket) ask_count (give_count result) self.new.settling_reads }
        ensures same { self.new.socket ≡ self.old.socket }
    {
        self.settling_reads = 0;
        self.socket.sectors() as usize
    }

    fn read(&mut self, row: usize, place: &mut [u8]) -> Result<(), RowRefusal> {
        self.settle_at(row)?;
        let page = place.first_chunk_mut().ok_or(RowRefusal::Length)?;
        read_sector(&mut self.socket, row, page);
        Ok(())
    }

    fn write(&mut self, row: usize, bytes: &[u8]) -> Result<(), RowRefusal> {
        self.settle_at(row)?;
        let page = bytes.as_array().ok_or(RowRefusal::Length)?;
        self.refuse_locked(row)?;
        write_sector(&mut self.socket, row, page);
        self.settling_reads += settle(&mut self.socket);
        Ok(())
    }

    fn is_locked(&mut self, row: usize) -> Result<bool, RowRefusal> {
        self.settle_at(row)?;
        Ok(ask_lock(&mut self.socket, row))
    }
}
