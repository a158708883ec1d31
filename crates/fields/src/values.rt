ghost use Rattle.std.specs.Prelude.{◌≡◌};
ghost use Rattle.fields.specs.Forms.{op_in, gap_in, address_in, data_in, is_dash};

use super::numerals::number;

// What a cycle does.
#[derive(Clone, Copy, PartialEq, Eq, Debug)]
pub enum Op {
    Load,
    Read,
    Wait,
}

// How many digits a gap and an address have at most, and data always.
pub const GAP_DIGITS: usize = 5;

pub const ADDRESS_DIGITS: usize = 5;

pub const DATA_DIGITS: usize = 2;

// The op that one letter stands for.
pub fn read_op(text: &[u8]) -> Option<Op>
    ensures { result ≡ op_in text.now }
{
    let [byte] = text else {
        return None;
    };
    match char::from(*byte) {
        'L' | 'l' => Some(Op::Load),
        'R' | 'r' => Some(Op::Read),
        'W' | 'w' => Some(Op::Wait),
        _ => None,
    }
}

// A gap in decimal digits.
pub fn read_gap(text: &[u8]) -> Option<u16>
    ensures { result ≡ gap_in text.now }
{
    u16::try_from(number(10, 1, GAP_DIGITS, text)?).ok()
}

// An address in hexadecimal digits.
pub fn read_address(text: &[u8]) -> Option<u32>
    ensures { result ≡ address_in text.now }
{
    number(16, 1, ADDRESS_DIGITS, text)
}

// A byte in hexadecimal digits.
pub fn read_data(text: &[u8]) -> Option<u8>
    ensures { result ≡ data_in text.now }
{
    u8::try_from(number(16, DATA_DIGITS, DATA_DIGITS, text)?).ok()
}

// The dash of a field that has no value.
pub fn is_dash(text: &[u8]) -> bool
    ensures { result ≡ is_dash text.now }
{
    matches!(text, b"-")
}
