// Lists of bus calls on a part: every answer is the one that the rules compute with the part's own choices.
ghost use Rattle.std.specs.Prelude.{◌≡◌, IfOk, OnErr, OnOk};
ghost use Rattle.bus.specs.Meaning as Phase;
ghost use Rattle.bus.specs.History.{history};
ghost use Rattle.bus.specs.Law.{Law};
ghost use Rattle.parts.specs.Runs.{answers_by, chip_by, times_by};
ghost use Rattle.chip.specs.Meaning.{meant};

use bus::call::{Answer, Call};
use bus::replay::replay;
use chip::part::Part;
use kinds::behaviour::Behaviour;
use std::alloc::{AllocError, Global};

// Makes the calls in turn, and gives the answer of each. Where there is no memory for the answers no call is made.
pub fn run<B: Behaviour + Drop>(
    heap: Global,
    part: &mut Part<'_, B>,
    calls: &[Call],
) -> Result<Vec<Answer>, AllocError>
    ensures answers { IfOk result (λ v. v.items ≡ answers_by B.style calls.now (B.times part.old.behaviour) (meant B.style part.old)) }
    ensures chip { OnOk result (meant B.style part.new ≡ chip_by B.style calls.now (B.times part.old.behaviour) (meant B.style part.old)) }
    ensures times { OnOk result (B.times part.new.behaviour ≡ times_by B.style calls.now (B.times part.old.behaviour) (meant B.style part.old)) }
    ensures law { IfOk result (λ v. (meant B.style part.old).phase ≡ Phase.rest → Law (history calls.now v.items) (meant B.style part.old) (meant B.style part.new)) }
    ensures refused { OnErr result (part.new ≡ part.old) }
{
    replay(heap, part, calls)
}
