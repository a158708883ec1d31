// The row calls of a pair.
ghost use Rattle.std.specs.Prelude.{◌≡◌, ◌+◌, min};
ghost use Rattle.rows.specs.Rows.{Kept};
ghost use Rattle.layers.specs.Pairs.{paired, paired_lawful, Leaves};
ghost use Rattle.layers.specs.Places.{Finds};

use crate::pair::Pair;
use rows::refusal::RowRefusal;
use rows::store::{MOST_ROWS, Store};

// How many rows a pair shows of so many.
fn total(front: usize, back: usize) -> usize
    ensures { result ≡ min 1048576 (front + back) }
{
    front.saturating_add(back).min(MOST_ROWS)
}

// The store that has a row of the pair, and which row of it that is.
#[derive(Clone, Copy)]
enum Place {
    Front(usize),
    Back(usize),
}

impl<F: Store, B: Store> Pair<F, B> {
    fn place_of(&mut self, row: usize) -> Result<Place, RowRefusal>
        ensures finds { Finds (F.meaning self.old.front) (B.meaning self.old.back) row result }
        ensures front { Kept (F.meaning self.old.front) (F.meaning self.new.front) }
        ensures back { Kept (B.meaning self.old.back) (B.meaning self.new.back) }
    {
        let front = self.front.rows();
        let back = self.back.rows();
        if row >= total(front, back) {
            return Err(RowRefusal::Absent);
        }
        Ok(if row < front {
            Place::Front(row)
        } else {
            Place::Back(row - front)
        })
    }
}

impl<F: Store, B: Store> Store for Pair<F, B> {
    ghost meaning = { λ p. paired (F.meaning p.front) (B.meaning p.back) };

    ghost lawful = { λ p. paired_lawful (F.meaning p.front) (B.meaning p.back) (F.lawful p.front) (B.lawful p.back) };

    // Only an accepted write changes one of the stores, and of it only the one row.
    ghost promise = { λ p asked given q. Leaves (F.meaning p.front) (F.meaning q.front) (B.meaning p.back) (B.meaning q.back) asked given };

    fn rows(&mut self) -> usize {
        let front = self.front.rows();
        let back = self.back.rows();
        total(front, back)
    }

    // The three calls are alike: each hands on its own arguments and answer, which one function could not do more plainly.
    fn read(&mut self, row: usize, place: &mut [u8]) -> Result<(), RowRefusal> {
        match self.place_of(row)? {
            Place::Front(at) => self.front.read(at, place),
            Place::Back(at) => self.back.read(at, place),
        }
    }

    fn write(&mut self, row: usize, bytes: &[u8]) -> Result<(), RowRefusal> {
        match self.place_of(row)? {
            Place::Front(at) => self.front.write(at, bytes),
            Place::Back(at) => self.back.write(at, bytes),
        }
    }

    fn is_locked(&mut self, row: usize) -> Result<bool, RowRefusal> {
        match self.place_of(row)? {
            Place::Front(at) => self.front.is_locked(at),
            Place::Back(at) => self.back.is_locked(at),
        }
    }
}
