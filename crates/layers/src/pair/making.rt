// A pair made of two stores, and the stores given back.
ghost use Rattle.std.specs.Prelude.{◌≡◌};
ghost use Rattle.layers.specs.Pairs.{paired};

use crate::pair::Pair;
use rows::store::Store;

impl<F: Store, B: Store> Pair<F, B> {
    // The rows of the front, and then those of the back.
    pub fn new(front: F, back: B) -> Pair<F, B>
        ensures holds { (result.front ≡ front) × (result.back ≡ back) }
        ensures means { ⟦<Pair<F, B> as Store>⟧.meaning result ≡ paired (F.meaning front) (B.meaning back) }
    {
        Pair { front, back }
    }

    // The two stores, as the calls left them.
    pub fn into_below(self) -> (F, B)
        ensures { (result.0 ≡ self.front) × (result.1 ≡ self.back) }
    {
        (self.front, self.back)
    }
}
