ghost use Rattle.std.specs.Prelude.{◌≡◌, not};
ghost use Rattle.trace.specs.Lines.{field_texts, row_texts, field_of, placed, by_column, load_of, read_of, wait_of, cycle_in, formed, named};

use super::{Column, Columns, Cycle};
use fields::{Fields, Op, is_dash, read_address, read_data, read_gap, read_op};

// One field of a line of values, by the column that it stands under.
#[derive(Clone, Copy)]
pub enum Field<'a> {
    Op(&'a [u8]),
    Gap(&'a [u8]),
    Addr(&'a [u8]),
    Data(&'a [u8]),
}

impl<'a> Field<'a> {
    fn under(column: Column, text: &'a [u8]) -> Field<'a>
        ensures { result ≡ field_of column text.entry }
    {
        match column {
            Column::Op => Field::Op(text),
            Column::Gap => Field::Gap(text),
            Column::Addr => Field::Addr(text),
            Column::Data => Field::Data(text),
        }
    }
}

// The fields of a line of values, each under its column.
// Four parts by name: a field is an enum case, made and matched one at a time.
#[derive(Clone, Copy)]
pub struct Row<'a> {
    op: &'a [u8],
    gap: &'a [u8],
    addr: &'a [u8],
    data: &'a [u8],
}

impl<'a> Row<'a> {
    // One field more.
    fn with(self, field: Field<'a>) -> Row<'a>
        ensures { row_texts result ≡ placed (row_texts self.entry) field.entry }
    {
        match field {
            Field::Op(op) => Row { op, ..self },
            Field::Gap(gap) => Row { gap, ..self },
            Field::Addr(addr) => Row { addr, ..self },
            Field::Data(data) => Row { data, ..self },
        }
    }

    // The four fields, each made and taken in its turn.
    pub(crate) fn new(columns: Columns, fields: Fields<'a>) -> Row<'a>
        ensures { row_texts result ≡ by_column columns (field_texts fields.entry) }
    {
        let none: &[u8] = &[];
        let mut row = Row {
            op: none,
            gap: none,
            addr: none,
            data: none,
        };
        for (column, text) in columns.order.iter().zip(fields.texts.iter()) {
            row = row.with(Field::under(*column, text));
        }
        row
    }

    // The cycle, where every value has its form.
    // A match and no table of steps: the op is a value of the line, and so matched.
    pub(crate) fn cycle(self) -> Option<Cycle>
        ensures { result ≡ cycle_in (row_texts self.entry) }
    {
        let gap = read_gap(self.gap)?;
        match read_op(self.op)? {
            Op::Load => self.load(gap),
            Op::Read => self.read(gap),
            Op::Wait => self.wait(gap),
        }
    }

    fn load(self, gap: u16) -> Option<Cycle>
        ensures { result ≡ load_of gap (row_texts self.entry) }
    {
        let address = read_address(self.addr)?;
        let data = read_data(self.data)?;
        Some(Cycle::Load { gap, address, data })
    }

    fn read(self, gap: u16) -> Option<Cycle>
        ensures { result ≡ read_of gap (row_texts self.entry) }
    {
        let address = read_address(self.addr)?;
        is_dash(self.data).then_some(Cycle::Read { gap, address })
    }

    fn wait(self, gap: u16) -> Option<Cycle>
        ensures { result ≡ wait_of gap (row_texts self.entry) }
    {
        (is_dash(self.addr) && is_dash(self.data)).then_some(Cycle::Wait { gap })
    }

    // Has the value of this column its form? Address and data go by the op, so under a bad op they count as good.
    fn has_form(self, column: Column) -> bool
        ensures { result ≡ formed (row_texts self.entry) column }
    {
        match (column, read_op(self.op)) {
            (Column::Op, op) => op.is_some(),
            (Column::Gap, _) => read_gap(self.gap).is_some(),
            (_, None) => true,
            (Column::Addr, Some(Op::Wait)) => is_dash(self.addr),
            (Column::Addr, Some(_)) => read_address(self.addr).is_some(),
            (Column::Data, Some(Op::Load)) => read_data(self.data).is_some(),
            (Column::Data, Some(_)) => is_dash(self.data),
        }
    }

    // The column to name of a row that has no cycle: the leftmost bad one.
    // The test has a clause of its own: a wrong one is refused by what it means, whatever its form.
    pub(crate) fn bad_column(self, columns: Columns) -> Column
        ensures { result ≡ named columns (formed (row_texts self.entry)) }
    {
        let [.., last] = columns.order;
        columns
            .order
            .iter()
            .copied()
            .find(
                |column|
                    ensures { result ≡ not (formed (row_texts self.entry) column.now) }
                { !self.has_form(*column) },
            )
            .unwrap_or(last)
    }
}
