// A byte load: the address and the data that the bus offers for writing.
#[derive(Clone, Copy, PartialEq, Eq, Debug, Default)]
pub struct Load {
    pub address: u32,
    pub byte: u8,
}
