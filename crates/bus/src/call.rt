// Bus calls and their answers, as values.
use crate::identity::Identity;
use crate::load::Load;
use crate::refusal::BusRefusal;
use std::fmt;

// A bus call. The number is its gap: the microseconds since the call before.
#[derive(Clone, Copy, PartialEq, Eq, Debug)]
pub enum Call {
    Load(Load, u16),
    Read(u32, u16),
    Wait(u16),
    Identify,
}

impl fmt::Display for Call {
    fn fmt<W: fmt::Write>(&self, f: &mut fmt::Formatter<W>) -> fmt::Result {
        match self {
            Call::Load(Load { address, byte }, gap) => {
                write!(f, "load {byte:02X} at {address:05X} after {gap}")
            }
            Call::Read(address, gap) => write!(f, "read {address:05X} after {gap}"),
            Call::Wait(gap) => write!(f, "wait {gap}"),
            Call::Identify => f.write_str("identify"),
        }
    }
}

// What an accepted call gives.
#[derive(Clone, Copy, PartialEq, Eq, Debug)]
pub enum Response {
    Loaded,
    Byte(u8),
    Waited,
    Identified(Identity),
}

impl fmt::Display for Response {
    fn fmt<W: fmt::Write>(&self, f: &mut fmt::Formatter<W>) -> fmt::Result {
        match self {
            Response::Loaded => f.write_str("loaded"),
            Response::Byte(byte) => write!(f, "{byte:02X}"),
            Response::Waited => f.write_str("waited"),
            Response::Identified(identity) => write!(f, "{identity}"),
        }
    }
}

// What a bus call answers.
pub type Answer = Result<Response, BusRefusal>;
