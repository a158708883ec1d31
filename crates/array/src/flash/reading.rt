// Making an array over lent memory, and what it shows.
ghost use Rattle.std.specs.Prelude.{◌≡◌, ◌*◌, ◌≤◌, length, take, slice_index};
ghost use Rattle.array.specs.Meaning.{count_for, count_of, state_of, new_state};

use super::FlashArray;

impl<'a> FlashArray<'a> {
    // So many sectors over this memory, if a part can have so many and the memory has room for them, else none. Unprotected and
    // unlocked.
    pub fn new(memory: &'a mut [u8], sectors: u32) -> FlashArray<'a>
        ensures count { count_of result ≡ count_for sectors (length memory.old) }
        ensures state { state_of result ≡ new_state (take (128 * count_for sectors (length memory.old)) memory.old) }
    {
        let fits = (256..=8192).contains(&sectors) && 128 * sectors as usize <= memory.len();
        FlashArray {
            memory,
            sectors: if fits { sectors } else { 0 },
            protected: false,
            low_locked: false,
            high_locked: false,
        }
    }
}

impl FlashArray<'_> {
    // The number of sectors.
    pub fn sectors(&self) -> u32
        ensures value { result ≡ count_of self.now }
        ensures bound { (result ≤ 8192) × (128 * result ≤ length self.now.memory.now) }
    {
        self.sectors
    }

    // The bytes of the sectors.
    fn bytes(&self) -> &[u8]
        ensures { result.now ≡ (state_of self.now).bytes }
    {
        &self.memory[..128 * self.sectors() as usize]
    }

    // The byte at an address, 0 outside the array.
    pub fn byte_at(&self, address: u32) -> u8
        ensures { result ≡ slice_index (state_of self.now).bytes address }
    {
        self.bytes().get(address as usize).copied().unwrap_or(0)
    }

    // Whether the lower boot block is locked.
    pub fn low_locked(&self) -> bool
        ensures { result ≡ (state_of self.now).low_locked }
    {
        self.low_locked
    }

    // Whether the upper boot block is locked.
    pub fn high_locked(&self) -> bool
        ensures { result ≡ (state_of self.now).high_locked }
    {
        self.high_locked
    }
}
