// One store after another.
pub mod calls;
pub mod making;

// The rows of the front, and then those of the back, cut at the most rows that a store has.
#[derive(Drop)]
pub struct Pair<F, B> {
    front: F,
    back: B,
}
