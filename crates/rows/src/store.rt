// The interface to rows of 128 bytes.
ghost use Rattle.std.specs.Prelude.{◌≡◌};
ghost use Rattle.rows.specs.Exchanges.{Asked, ask_count, ask_read, ask_write, ask_lock, Given, give_count, give_read, give_write, give_lock};
ghost use Rattle.rows.specs.Rows.{Rows, Lawful, Kept};
ghost use Rattle.rows.specs.RowCalls.{Reads, Writes, Asks};

use crate::refusal::RowRefusal;

// The bytes of a row.
pub const ROW_BYTES: usize = 128;

// The most rows that a store has.
pub const MOST_ROWS: usize = 1_048_576;

// Every call takes `&mut self`: a store may stand on a bus, which is moved even by reading.
pub trait Store {
    // What the store is: its number of rows, and of each row the bytes, the lock and where it lies.
    ghost meaning: { Self → Rows };

    ghost lawful: { (s : Self) → Lawful (meaning s) };

    // What this store promises of a call beyond the rules of every store. Nothing, unless it says so.
    ghost promise: { Self → Asked → Given → Self → Type 0 } = { λ _ _ _ _. Unit {0} };

    // The number of rows.
    fn rows(&mut self) -> usize
        ensures counts { result ≡ (meaning self.old).count }
        ensures kept { Kept (meaning self.old) (meaning self.new) }
        ensures own { promise self.old ask_count (give_count result) self.new };

    // Fills the first 128 bytes of the place with what the row shows.
    fn read(&mut self, row: usize, place: &mut [u8]) -> Result<(), RowRefusal>
        ensures reads { Reads (meaning self.old) (meaning self.new) row place.old place.new result }
        ensures own { promise self.old (ask_read row place.old) (give_read place.new result) self.new };

    // Has the row take the 128 bytes.
    fn write(&mut self, row: usize, bytes: &[u8]) -> Result<(), RowRefusal>
        ensures writes { Writes (meaning self.old) (meaning self.new) row bytes.now result }
        ensures own { promise self.old (ask_write row bytes.now) (give_write result) self.new };

    // Whether the row is locked.
    fn is_locked(&mut self, row: usize) -> Result<bool, RowRefusal>
        ensures asks { Asks (meaning self.old) (meaning self.new) row result }
        ensures own { promise self.old (ask_lock row) (give_lock result) self.new };
}
