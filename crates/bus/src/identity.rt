// What identification answers: the maker's code, the device code, and the lock byte of each boot block.
use std::fmt;

#[derive(Clone, Copy, PartialEq, Eq, Debug)]
pub struct Identity {
    pub maker: u8,
    pub device: u8,
    pub low: u8,
    pub high: u8,
}

impl fmt::Display for Identity {
    fn fmt<W: fmt::Write>(&self, f: &mut fmt::Formatter<W>) -> fmt::Result {
        let Identity {
            maker,
            device,
            low,
            high,
        } = *self;
        write!(f, "{maker:02X} {device:02X} {low:02X} {high:02X}")
    }
}
