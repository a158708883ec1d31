// A crossing made over a store, and the store given back.
ghost use Rattle.std.specs.Prelude.{◌≡◌};
ghost use Rattle.crossing.specs.Crossings.{crossing};

use crate::crossing::Crossing;
use rows::store::Store;
use wiring::wiring::Wiring;

impl<S: Store> Crossing<S> {
    // The store below, seen through the wiring.
    pub fn new(below: S, wiring: Wiring) -> Crossing<S>
        ensures holds { (result.below ≡ below) × (result.wiring ≡ wiring) }
        ensures means { ⟦<Crossing<S> as Store>⟧.meaning result ≡ crossing wiring.lines (S.meaning below) }
    {
        Crossing { below, wiring }
    }

    // The store below, as the calls left it. Each layer has this line; a trait for it would be longer.
    pub fn into_below(self) -> S
        ensures { result ≡ self.below }
    {
        self.below
    }
}
