// Scripts played on parts.
use crate::script::{Chip, Setup, Timing};
use bus::call::{Answer, Call};
use kinds::behaviour::Behaviour;
use kinds::part_kind::{At29c010a, Bench, PartKind};
use kinds::refusal::PartRefusal;
use kinds::steady::Steady;
use kinds::uneven::Uneven;
use parts::making::{check, make};
use parts::run::run;
use std::alloc::{AllocError, Global};

// What the check of a part says, and what the calls on it answer.
#[derive(Drop)]
pub struct Played {
    pub checked: Result<(), PartRefusal>,
    pub answers: Vec<Answer>,
}

fn play_on<K: PartKind, B: Behaviour + Drop>(
    heap: Global,
    fill: u8,
    behaviour: B,
    calls: &[Call],
) -> Result<Played, AllocError> {
    let mut memory = vec![in heap; fill; 128 * K::SECTORS as usize]?;
    let checked = check::<K, B>(&memory, &behaviour);
    let answers = run(heap, &mut make::<K, B>(&mut memory, behaviour), calls)?;
    Ok(Played { checked, answers })
}

// Makes the calls on a new part.
pub(crate) fn play(heap: Global, setup: &Setup, calls: &[Call]) -> Result<Played, AllocError> {
    let fill = setup.fill;
    match (setup.chip, &setup.timing) {
        (Chip::At29c010a, Timing::Steady(time)) => {
            play_on::<At29c010a, _>(heap, fill, Steady::new(*time), calls)
        }
        (Chip::At29c010a, Timing::Uneven(times)) => {
            play_on::<At29c010a, _>(heap, fill, Uneven::new(times), calls)
        }
        (Chip::Bench, Timing::Steady(time)) => {
            play_on::<Bench, _>(heap, fill, Steady::new(*time), calls)
        }
        (Chip::Bench, Timing::Uneven(times)) => {
            play_on::<Bench, _>(heap, fill, Uneven::new(times), calls)
        }
    }
}
