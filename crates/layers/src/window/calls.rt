// The row calls of a window.
ghost use Rattle.std.specs.Prelude.{◌≡◌, ◌+◌, ◌-◌, min, IfOk};
ghost use Rattle.rows.specs.Refusals.{answered};
ghost use Rattle.rows.specs.Below.{LeavesBelow};
ghost use Rattle.rows.specs.RowCalls.{lock_check};
ghost use Rattle.rows.specs.Rows.{Kept};
ghost use Rattle.layers.specs.Windows.{windowed, windowed_lawful, Placed};

use crate::window::Window;
use rows::refusal::RowRefusal;
use rows::store::Store;

// How many rows show of so many below.
fn span(rows: usize, first: usize, most: usize) -> usize
    ensures { result ≡ min most (rows - first) }
{
    rows.saturating_sub(first).min(most)
}

impl<S: Store> Window<S> {
    // The row below that shows as this one, if it does.
    fn row_below(&mut self, row: usize) -> Result<usize, RowRefusal>
        ensures checked { answered result ≡ lock_check (windowed self.old.first self.old.most (S.meaning self.old.below)) row }
        ensures found { IfOk result (λ at. at ≡ self.old.first + row) }
        ensures kept { Kept (S.meaning self.old.below) (S.meaning self.new.below) }
        ensures placed { Placed self.old self.new }
    {
        if row >= self.rows() {
            return Err(RowRefusal::Absent);
        }
        Ok(self.first + row)
    }
}

impl<S: Store> Store for Window<S> {
    ghost meaning = { λ w. windowed w.first w.most (S.meaning w.below) };

    ghost lawful = { λ w. windowed_lawful w.first w.most (S.meaning w.below) (S.lawful w.below) };

    // The window stays where it is, and only an accepted write changes the store below, and of it only the one row.
    ghost promise = { λ w asked given v. LeavesBelow (λ r. w.first + r) (λ b. b) (S.meaning w.below) (S.meaning v.below) asked given × Placed w v };

    fn rows(&mut self) -> usize {
        span(self.below.rows(), self.first, self.most)
    }

    // The three calls are alike: each hands on its own arguments and answer, which one function could not do more plainly.
    fn read(&mut self, row: usize, place: &mut [u8]) -> Result<(), RowRefusal> {
        let at = self.row_below(row)?;
        self.below.read(at, place)
    }

    fn write(&mut self, row: usize, bytes: &[u8]) -> Result<(), RowRefusal> {
        let at = self.row_below(row)?;
        self.below.write(at, bytes)
    }

    fn is_locked(&mut self, row: usize) -> Result<bool, RowRefusal> {
        let at = self.row_below(row)?;
        self.below.is_locked(at)
    }
}
