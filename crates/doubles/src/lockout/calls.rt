// The row calls of a store with a locked boot block.
ghost use Rattle.std.specs.Prelude.{◌≡◌};
ghost use Rattle.doubles.specs.Lockouts.{locking, locking_lawful};

use crate::lockout::Lockout;
use rows::refusal::RowRefusal;
use rows::store::{ROW_BYTES, Store};

impl<S: Store> Store for Lockout<S> {
    ghost meaning = { λ x. locking x.locked (S.meaning x.below) };

    ghost lawful = { λ x. locking_lawful x.locked (S.meaning x.below) (S.lawful x.below) };

    fn rows(&mut self) -> usize {
        self.below.rows()
    }

    fn read(&mut self, row: usize, place: &mut [u8]) -> Result<(), RowRefusal> {
        self.below.read(row, place)
    }

    fn write(&mut self, row: usize, bytes: &[u8]) -> Result<(), RowRefusal> {
        let rows = self.below.rows();
        if row < rows && bytes.len() == ROW_BYTES && row < self.locked {
            return Err(RowRefusal::Locked);
        }
        self.below.write(row, bytes)
    }

    fn is_locked(&mut self, row: usize) -> Result<bool, RowRefusal> {
        let below = self.below.is_locked(row)?;
        Ok(below || row < self.locked)
    }
}
