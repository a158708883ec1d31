// The values of a cycle. Functions of this crate alone, and no methods: those of `Cycle` would be public.
ghost use Rattle.std.specs.Prelude.{◌≡◌, ◌<◌};
ghost use Rattle.writer.specs.Writing.{letter_of, gap_of, address_of, data_of, byte_of, too_high};

use fields::ADDRESS_DIGITS;
use trace::Cycle;

// The highest address that the digits of a line can write.
const ADDRESS_TOP: u32 = (1 << (4 * ADDRESS_DIGITS)) - 1;

pub(crate) fn letter(cycle: Cycle) -> u8
    ensures { result ≡ letter_of cycle }
{
    match cycle {
        Cycle::Load { .. } => b'L',
        Cycle::Read { .. } => b'R',
        Cycle::Wait { .. } => b'W',
    }
}

pub(crate) fn gap(cycle: Cycle) -> u16
    ensures { result ≡ gap_of cycle }
{
    match cycle {
        Cycle::Load { gap, .. } | Cycle::Read { gap, .. } | Cycle::Wait { gap } => gap,
    }
}

pub(crate) fn address(cycle: Cycle) -> Option<u32>
    ensures { result ≡ address_of cycle }
{
    match cycle {
        Cycle::Load { address, .. } | Cycle::Read { address, .. } => Some(address),
        Cycle::Wait { .. } => None,
    }
}

pub(crate) fn data(cycle: Cycle) -> Option<u32>
    ensures value { result ≡ byte_of cycle }
    ensures byte { data_of cycle < 256 }
{
    match cycle {
        Cycle::Load { data, .. } => Some(u32::from(data)),
        Cycle::Read { .. } | Cycle::Wait { .. } => None,
    }
}

pub(crate) fn is_too_high(cycle: Cycle) -> bool
    ensures { result ≡ too_high cycle }
{
    address(cycle).is_some_and(|address| address > ADDRESS_TOP)
}
