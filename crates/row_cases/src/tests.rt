use rows::refusal::RowRefusal;

mod memories;
mod piles;
mod windows;
mod wirings;

// The number that a row call answered, 0 where it was accepted: the rules tell cases by these numbers, and so do the tables here.
fn number<T: Drop>(res: Result<T, RowRefusal>) -> u8 {
    res.map_or_else(RowRefusal::number, |_| 0)
}
