ghost use Rattle.std.specs.Prelude.{◌≡◌};
ghost use Rattle.trace.specs.Refusals.{line_number, bad_column};

use super::Column;

// Why a line is not taken.
#[derive(Clone, Copy, PartialEq, Eq, Debug)]
pub enum LineRefusal {
    // More than 64 bytes, or a byte that is not printable.
    Bytes,
    // Not four fields with single spaces between.
    Fields,
    // A line of names without each name once.
    Names,
    // A value without its form, under this column.
    Value(Column),
}

impl LineRefusal {
    // The number under which a refused line is reported.
    // A match and no discriminants: a variant has a field.
    pub fn number(self) -> u8
        ensures { result ≡ line_number self }
    {
        match self {
            LineRefusal::Bytes => 11,
            LineRefusal::Fields => 12,
            LineRefusal::Names => 13,
            LineRefusal::Value(_) => 14,
        }
    }

    // The column that is at fault, if it is one.
    pub fn column(self) -> Option<Column>
        ensures { result ≡ bad_column self }
    {
        match self {
            LineRefusal::Value(column) => Some(column),
            _ => None,
        }
    }
}
