// The part: the rules, coded once over what a behaviour chooses.
use crate::phase::Phase;
use array::flash::FlashArray;
use bus::load::Load;
use kinds::behaviour::Behaviour;
use period::open::OpenPeriod;

mod making;
pub mod socket;
mod steps;

// The array holds the state as it was before the open period, which takes effect when it closes. The period stands beside the phase
// and not in it: a phase that held it could not be matched by value, together with the event.
#[derive(Drop)]
pub struct Part<'a, B: Behaviour + Drop> {
    array: FlashArray<'a>,
    device: u8,
    phase: Phase,
    period: OpenPeriod,
    last: Load,
    toggle: bool,
    reads: u64,
    behaviour: B,
}
