ghost use Rattle.std.specs.Prelude.{◌≡◌, Ok};
ghost use Rattle.trace.specs.Naming.{standard_order};
ghost use Rattle.trace.specs.Lines.{value_line};
ghost use Rattle.writer.specs.Writing.{text_of, Wrote, ReadsBack, RoundTrip};

use super::WriteRefusal;
use super::line::{LONGEST, put_line};
use super::values::is_too_high;
use trace::{Columns, Cycle};

// Writes the line of a cycle to the front of a place, and answers the line's length.
pub fn write_cycle(cycle: Cycle, place: &mut [u8]) -> Result<usize, WriteRefusal>
    ensures wrote { Wrote cycle place.old result place.new }
    ensures reads { ReadsBack cycle result }
{
    if is_too_high(cycle) {
        return Err(WriteRefusal::Address);
    }
    if place.len() < LONGEST {
        return Err(WriteRefusal::Place);
    }
    Ok(put_line(cycle, place))
}

// Writes a cycle into a place, and reads it back from there.
pub fn write_and_read(cycle: Cycle, place: &mut [u8]) -> Result<Cycle, WriteRefusal>
    ensures { RoundTrip cycle place.old result place.new }
{
    let len = write_cycle(cycle, place)?;
    Ok(read_back(cycle, &place[0..len]))
}

// Reads the line that was written of a cycle.
fn read_back(cycle: Cycle, line: &[u8]) -> Cycle
    requires line { line.now ≡ text_of cycle }
    requires reads { value_line standard_order (text_of cycle) ≡ Ok cycle }
    ensures reads { value_line standard_order line.now ≡ Ok result }
    ensures same { result ≡ cycle }
{
    Cycle::from_line(Columns::standard(), line).unwrap()
}
