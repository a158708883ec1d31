// A window made over a store, and the store given back.
ghost use Rattle.std.specs.Prelude.{◌≡◌};
ghost use Rattle.layers.specs.Windows.{windowed};

use crate::window::Window;
use rows::store::Store;

impl<S: Store> Window<S> {
    // At most so many rows of the store below, from a first row on.
    pub fn new(below: S, first: usize, most: usize) -> Window<S>
        ensures holds { (result.below ≡ below) × (result.first ≡ first) × (result.most ≡ most) }
        ensures means { ⟦<Window<S> as Store>⟧.meaning result ≡ windowed first most (S.meaning below) }
    {
        Window { below, first, most }
    }

    // The store below, as the calls left it. Each layer has this line; a trait for it would be longer.
    pub fn into_below(self) -> S
        ensures { result ≡ self.below }
    {
        self.below
    }
}
