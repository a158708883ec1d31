// Where a part stands in time, and what can happen to it.
use bus::load::Load;

// At rest, in an open period of this age, or so far into a cycle of this time. An age past 150 means 150, and a cycle time means the
// nearest of 1 to 10,000, which the elapsed time stays below: no ghost field bounds them (tried: where a part,
// which holds a `&mut`, is a type argument, no struct in it without a borrow of its own may have one).
#[derive(Clone, Copy)]
pub enum Phase {
    Rest,
    Open(u8),
    Cycle { elapsed: u16, time: u16 },
}

// What comes over the bus: time, a load, a read, or identification.
#[derive(Clone, Copy)]
pub enum Event {
    Gap(u16),
    Load(Load),
    Read(u32),
    Identify,
}
