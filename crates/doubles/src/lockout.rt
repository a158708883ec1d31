// A store with a locked boot block.
pub mod calls;
pub mod making;

// The store below with its first rows locked, as a chip's boot block lockout has them.
#[derive(Drop)]
pub struct Lockout<S> {
    below: S,
    locked: usize,
}
