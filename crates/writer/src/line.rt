ghost use Rattle.std.specs.Prelude.{◌≡◌, ℕ, ◌+◌, ◌<◌, ◌≤◌, false, List, ◌++◌, length, Ok, decimal};
ghost use Rattle.fields.specs.Forms.{gap_digits, longest};
ghost use Rattle.trace.specs.Naming.{standard_order};
ghost use Rattle.trace.specs.Lines.{value_line};
ghost use Rattle.writer.specs.Writing.{hex_char, hex_text, value_text, text_of, too_high, Fronts};

use super::values::{address, data, gap, letter};
use fields::{ADDRESS_DIGITS, DATA_DIGITS, GAP_DIGITS};
use itoa::write_digits;
use trace::Cycle;

// The longest line: op, gap, addr and data with single spaces between.
pub const LONGEST: usize = 1 + 1 + GAP_DIGITS + 1 + ADDRESS_DIGITS + 1 + DATA_DIGITS;

const DIGITS: &[u8; 16] = b"0123456789ABCDEF";

// Writes the line of a cycle to the front of a place with room for the longest, and answers the line's length.
// Straight into the place: a vector or a text of its own (tried) would be filled and then copied.
// No `Display` and `write!` (tried): nothing says that a write to a text with room succeeds, and this cannot fail.
pub(crate) fn put_line(cycle: Cycle, place: &mut [u8]) -> usize
    requires { longest ≤ length place.old }
    ensures text { Fronts place.old (text_of cycle) result place.new }
    ensures reads { too_high cycle ≡ false → value_line standard_order (text_of cycle) ≡ Ok cycle }
{
    let at = put(place, 0, &[letter(cycle), b' ']);
    let at = put_gap(place, at, gap(cycle));
    let at = put(place, at, b" ");
    let at = put_value(place, at, ADDRESS_DIGITS, address(cycle));
    let at = put(place, at, b" ");
    put_value(place, at, DATA_DIGITS, data(cycle))
}

// Puts a text behind the first `at` bytes, and answers where it ends; so do the functions below.
fn put(place: &mut [u8], at: usize, text: &[u8]) -> usize
    requires { at + length text.now ≤ length place.old }
    ensures end { result ≡ at + length text.now }
    ensures text { (p w : List ℕ) → Fronts p w at place.old → Fronts p (w ++ text.now) result place.new }
{
    let end = at + text.len();
    place[at..end].copy_from_slice(text);
    end
}

// A gap in decimal digits.
fn put_gap(place: &mut [u8], at: usize, gap: u16) -> usize
    requires { at + gap_digits ≤ length place.old }
    ensures end { result ≤ at + gap_digits }
    ensures text { (p w : List ℕ) → Fronts p w at place.old → Fronts p (w ++ decimal gap) result place.new }
{
    let end = at + decimal_len(gap);
    write_digits(u64::from(gap), place, end);
    end
}

// How many decimal digits a gap has.
fn decimal_len(gap: u16) -> usize
    ensures len { result ≡ length (decimal gap) }
    ensures few { result ≤ gap_digits }
{
    match gap {
        0..=9 => 1,
        10..=99 => 2,
        100..=999 => 3,
        1000..=9999 => 4,
        _ => 5,
    }
}

// A value in all its digits, or a dash.
fn put_value(place: &mut [u8], at: usize, digits: usize, value: Option<u32>) -> usize
    requires some { 0 < digits }
    requires few { digits ≤ 8 }
    requires room { at + digits ≤ length place.old }
    ensures end { result ≤ at + digits }
    ensures text { (p w v : List ℕ) → v ≡ value_text digits value → Fronts p w at place.old → Fronts p (w ++ v) result place.new }
{
    match value {
        Some(number) => put_hex(place, at, digits, number),
        None => put(place, at, b"-"),
    }
}

// This many hexadecimal digits, the highest first.
fn put_hex(place: &mut [u8], at: usize, digits: usize, number: u32) -> usize
    requires few { digits ≤ 8 }
    requires room { at + digits ≤ length place.old }
    ensures end { result ≡ at + digits }
    ensures text { (p w : List ℕ) → Fronts p w at place.old → Fronts p (w ++ hex_text digits number) result place.new }
{
    let end = at + digits;
    for digit in (0..digits).rev() {
        place[end - 1 - digit] = hex_digit((number >> (4 * digit)) % 16);
    }
    end
}

// The capital digit of a number below 16.
fn hex_digit(value: u32) -> u8
    requires { value < 16 }
    ensures { result ≡ hex_char value }
{
    DIGITS[value as usize]
}
