ghost use Rattle.std.specs.Prelude.{◌≡◌};
ghost use Rattle.trace.specs.Naming.{EachOnce};
ghost use Rattle.trace.specs.Lines.{FieldsOf, names_line, value_line};
ghost use Rattle.trace.specs.Laws.{SaysOrder, SaysCycle};

use super::names::order;
use super::row::Row;
use super::{Columns, Cycle, LineRefusal};
use fields::{Fields, is_text, split};

// The fields of a line, of names or of values.
fn fields_of(line: &[u8]) -> Result<Fields<'_>, LineRefusal>
    ensures { FieldsOf line.now result }
{
    if !is_text(line) {
        return Err(LineRefusal::Bytes);
    }
    split(line).ok_or(LineRefusal::Fields)
}

impl Columns {
    // The order that a line of names gives: refused by 11, 12 or 13.
    pub fn from_names(line: &[u8]) -> Result<Columns, LineRefusal>
        ensures value { result ≡ names_line line.now }
        ensures says { SaysOrder line.now result }
    {
        let names = fields_of(line)?;
        order(names).ok_or(LineRefusal::Names)
    }
}

impl Cycle {
    // The cycle that a line of values gives under these columns: refused by 11, 12 or 14.
    pub fn from_line(columns: Columns, line: &[u8]) -> Result<Cycle, LineRefusal>
        ensures value { result ≡ value_line columns line.now }
        ensures says { EachOnce columns → SaysCycle columns line.now result }
    {
        let row = Row::new(columns, fields_of(line)?);
        // No `ok_or_else`: tried, and what its closure returns was not proved.
        let Some(cycle) = row.cycle() else {
            return Err(LineRefusal::Value(row.bad_column(columns)));
        };
        Ok(cycle)
    }
}
