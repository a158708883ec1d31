// Checking and making, for every kind of part and every behaviour.
ghost use Rattle.std.specs.Prelude.{◌≡◌};
ghost use Rattle.std.specs.Result.{result_err};
ghost use Rattle.kinds.specs.Refusals.{part_refusal};
ghost use Rattle.parts.specs.Making.{made_as};
ghost use Rattle.chip.specs.Meaning.{meant};

use array::flash::FlashArray;
use chip::part::Part;
use kinds::behaviour::Behaviour;
use kinds::part_kind::PartKind;
use kinds::refusal::PartRefusal;

// Whether this memory and this behaviour make a part of the kind.
pub fn check<K: PartKind, B: Behaviour>(memory: &[u8], behaviour: &B) -> Result<(), PartRefusal>
    ensures { result_err result ≡ part_refusal K.SECTORS memory.now (B.fault behaviour.now) }
{
    if memory.len() != 128 * K::SECTORS as usize {
        return Err(PartRefusal::Memory);
    }
    behaviour.check()
}

// A new part of the kind over this memory: unprotected, unlocked and at rest, its first contents the memory's bytes. Where the check
// refuses, a part without sectors.
pub fn make<'a, K: PartKind, B: Behaviour + Drop>(memory: &'a mut [u8], behaviour: B) -> Part<'a, B>
    ensures chip { meant B.style result ≡ made_as B.style (part_refusal K.SECTORS memory.old (B.fault behaviour)) K.SECTORS K.DEVICE memory.old }
    ensures behaviour { result.behaviour ≡ behaviour }
{
    let sectors = check::<K, B>(memory, &behaviour).map_or(0, |()| K::SECTORS);
    Part::new(FlashArray::new(memory, sectors), K::DEVICE, behaviour)
}
