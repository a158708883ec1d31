// A line of text as four fields, and the values that the fields of a trace hold.
#![tactic(auto)]

mod line;
mod numerals;
mod values;

pub use line::{Fields, is_text, split};
pub use values::{
    ADDRESS_DIGITS, DATA_DIGITS, GAP_DIGITS, Op, is_dash, read_address, read_data, read_gap,
    read_op,
};
