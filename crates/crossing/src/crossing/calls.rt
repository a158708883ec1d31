// The row calls of a crossing.
ghost use Rattle.std.specs.Prelude.{◌≡◌, map, length};
ghost use Rattle.rows.specs.Below.{LeavesBelow};
ghost use Rattle.wiring.specs.Lines.{crossed, reversed};
ghost use Rattle.crossing.specs.Crossings.{crossing, crossing_lawful};

use crate::crossing::Crossing;
use rows::refusal::RowRefusal;
use rows::store::{ROW_BYTES, Store};
use wiring::wiring::Wiring;

// The page that has to lie below for the one given to show.
fn laid(wiring: &Wiring, page: &[u8; ROW_BYTES]) -> [u8; ROW_BYTES]
    ensures { result ≡ map (crossed (reversed wiring.now.lines)) page.now }
{
    let mut laid = *page;
    wiring.lay(&mut laid);
    laid
}

impl<S: Store> Store for Crossing<S> {
    ghost meaning = { λ x. crossing x.wiring.lines (S.meaning x.below) };

    ghost lawful = { λ x. crossing_lawful x.wiring.lines (S.meaning x.below) x.wiring.once (S.lawful x.below) };

    // The wiring stays, and only an accepted write changes the store below, and of it only the one row, which takes the bytes
    // that show as those given.
    ghost promise = { λ x asked given y. LeavesBelow (λ r. r) (map (crossed (reversed x.wiring.lines))) (S.meaning x.below) (S.meaning y.below) asked given × (y.wiring.lines ≡ x.wiring.lines) };

    fn rows(&mut self) -> usize {
        self.below.rows()
    }

    fn read(&mut self, row: usize, place: &mut [u8]) -> Result<(), RowRefusal> {
        self.below.read(row, place)?;
        self.wiring.show(&mut place[0..ROW_BYTES]);
        Ok(())
    }

    fn write(&mut self, row: usize, bytes: &[u8]) -> Result<(), RowRefusal> {
        // A write of another length is the store's below to refuse: it knows whether the row exists.
        let Some(page) = bytes.as_array() else {
            return self.below.write(row, bytes);
        };
        self.below.write(row, &laid(&self.wiring, page))
    }

    fn is_locked(&mut self, row: usize) -> Result<bool, RowRefusal> {
        self.below.is_locked(row)
    }
}
