// One cycle on the bus, `gap` microseconds after the one before.
#[derive(Clone, Copy, PartialEq, Eq, Debug)]
pub enum Cycle {
    Load { gap: u16, address: u32, data: u8 },
    Read { gap: u16, address: u32 },
    Wait { gap: u16 },
}
