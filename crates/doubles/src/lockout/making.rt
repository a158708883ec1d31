// A boot block locked over a store, and the store given back.
ghost use Rattle.std.specs.Prelude.{◌≡◌};
ghost use Rattle.doubles.specs.Lockouts.{locking};

use crate::lockout::Lockout;
use rows::store::Store;

impl<S: Store> Lockout<S> {
    // The store below, with so many of its first rows locked.
    pub fn new(below: S, locked: usize) -> Lockout<S>
        ensures holds { (result.below ≡ below) × (result.locked ≡ locked) }
        ensures means { ⟦<Lockout<S> as Store>⟧.meaning result ≡ locking locked (S.meaning below) }
    {
        Lockout { below, locked }
    }

    // The store below, as the calls left it. Each layer has this line; a trait for it would be longer.
    pub fn into_below(self) -> S
        ensures { result ≡ self.below }
    {
        self.below
    }
}
