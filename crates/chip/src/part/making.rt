// A new part.
ghost use Rattle.std.specs.Prelude.{◌≡◌};
ghost use Rattle.array.specs.Meaning.{count_of, state_of};
ghost use Rattle.chip.specs.Meaning.{meant, new_chip};

use super::Part;
use crate::phase::Phase;
use array::flash::FlashArray;
use bus::load::Load;
use kinds::behaviour::Behaviour;
use period::open::OpenPeriod;

impl<'a, B: Behaviour + Drop> Part<'a, B> {
    // A part with this array and device code, at rest.
    pub fn new(array: FlashArray<'a>, device: u8, behaviour: B) -> Part<'a, B>
        ensures chip { meant B.style result ≡ new_chip B.style (count_of array.entry) device (state_of array.entry) }
        ensures behaviour { result.behaviour ≡ behaviour }
    {
        let toggle = !behaviour.first_toggle();
        Part {
            array,
            device,
            phase: Phase::Rest,
            period: OpenPeriod::new(),
            last: Load::default(),
            toggle,
            reads: 0,
            behaviour,
        }
    }
}
