// A store made over lent memory.
ghost use Rattle.std.specs.Prelude.{◌≡◌};
ghost use Rattle.memory.specs.Memory.{memory_rows, Holds};

use crate::store::MemoryStore;
use rows::store::Store;

impl<'a> MemoryStore<'a> {
    // The store whose rows are the memory's bytes, 128 to a row.
    pub fn new(memory: &'a mut [u8]) -> MemoryStore<'a>
        ensures holds { result.memory.now ≡ memory.old }
        ensures same { result.memory.ghost_name ≡ memory.entry.ghost_name }
        ensures means { ⟦<MemoryStore<'a> as Store>⟧.meaning result ≡ memory_rows memory.old }
        ensures shows { Holds (⟦<MemoryStore<'a> as Store>⟧.meaning result) memory.old }
    {
        MemoryStore { memory }
    }
}
