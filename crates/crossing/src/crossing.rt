// A store whose bytes show through a wiring.
use wiring::wiring::Wiring;

pub mod calls;
pub mod making;

// Bit i shown is the bit below that the wiring's line i names; writes go through the reverse.
#[derive(Drop)]
pub struct Crossing<S> {
    below: S,
    wiring: Wiring,
}
