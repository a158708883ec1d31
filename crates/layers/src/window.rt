// A part of the rows of a store.
pub mod calls;
pub mod making;

// So many rows from a first row on, cut where the store below ends.
#[derive(Drop)]
pub struct Window<S> {
    below: S,
    first: usize,
    most: usize,
}
