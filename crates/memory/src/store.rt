// A store over lent memory.
pub mod calls;
pub mod making;

// As many whole rows as the memory holds, up to the most that a store has, none of them locked.
#[derive(Drop)]
pub struct MemoryStore<'a> {
    memory: &'a mut [u8],
}
