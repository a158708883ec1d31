// The row calls of a store over lent memory.
ghost use Rattle.std.specs.Prelude.{◌≡◌, ◌+◌, ◌*◌, ◌<◌, ◌≤◌, ◌++◌, length, drop, OnOk};
ghost use Rattle.memory.specs.Memory.{memory_rows, memory_lawful, rows_in, row_of, RowSet, Leaves};
ghost use Rattle.rows.specs.Refusals.{answered};
ghost use Rattle.rows.specs.RowCalls.{lock_check};
ghost use Rattle.rows.specs.Rows.{Stored};

use crate::store::MemoryStore;
use rows::refusal::RowRefusal;
use rows::store::{MOST_ROWS, ROW_BYTES, Store};

// How many rows lie in so many bytes.
fn rows_in(bytes: usize) -> usize
    ensures { result ≡ rows_in bytes }
{
    (bytes / ROW_BYTES).min(MOST_ROWS)
}

// Copies a page over a row of the memory.
#[tactic(auto, using(crate::proofs::MemoryLaws::row_set, crate::proofs::MemoryLaws::row_put_stored))]
fn store_row(memory: &mut [u8], row: usize, page: &[u8; ROW_BYTES])
    requires { 128 * row + 128 ≤ length memory.old }
    ensures set { RowSet memory.old memory.new row page.now }
    ensures stored { Stored (memory_rows memory.old) (memory_rows memory.new) row page.now }
{
    let at = ROW_BYTES * row;
    memory[at..at + ROW_BYTES].copy_from_slice(page);
}

impl<'a> MemoryStore<'a> {
    // Whether the row exists.
    fn check_row(&self, row: usize) -> Result<(), RowRefusal>
        ensures checked { answered result ≡ lock_check (memory_rows self.now.memory.now) row }
        ensures within { OnOk result (row < rows_in (length self.now.memory.now)) }
    {
        if row >= rows_in(self.memory.len()) {
            return Err(RowRefusal::Absent);
        }
        Ok(())
    }

    // Copies a row into a page.
    fn load(&self, row: usize, page: &mut [u8; ROW_BYTES])
        requires { 128 * row + 128 ≤ length self.now.memory.now }
        ensures { page.new ≡ row_of self.now.memory.now row }
    {
        let at = ROW_BYTES * row;
        page.copy_from_slice(&self.memory[at..at + ROW_BYTES]);
    }
}

impl<'a> Store for MemoryStore<'a> {
    ghost meaning = { λ s. memory_rows s.memory.now };

    ghost lawful = { λ s. memory_lawful s.memory.now };

    // Only an accepted write changes the memory, and of it only the bytes of its row. The store stays on the same memory.
    ghost promise = { λ s asked given t. Leaves s.memory.now t.memory.now asked given × (t.memory.ghost_name ≡ s.memory.ghost_name) };

    fn rows(&mut self) -> usize {
        rows_in(self.memory.len())
    }

    fn read(&mut self, row: usize, place: &mut [u8]) -> Result<(), RowRefusal> {
        self.check_row(row)?;
        let page = place.first_chunk_mut().ok_or(RowRefusal::Length)?;
        self.load(row, page);
        Ok(())
    }

    fn write(&mut self, row: usize, bytes: &[u8]) -> Result<(), RowRefusal> {
        self.check_row(row)?;
        let page = bytes.as_array().ok_or(RowRefusal::Length)?;
        store_row(self.memory, row, page);
        Ok(())
    }

    fn is_locked(&mut self, row: usize) -> Result<bool, RowRefusal> {
        self.check_row(row)?;
        Ok(false)
    }
}
