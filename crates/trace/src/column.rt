ghost use Rattle.std.specs.Prelude.{◌≡◌, Decides};
ghost use Rattle.trace.specs.Names.{name_of, times, only_once};

#[derive(Clone, Copy, PartialEq, Eq, Debug)]
pub enum Column {
    Op,
    Gap,
    Addr,
    Data,
}

impl Column {
    // The column's name, in a line of names and in a report.
    pub fn name(self) -> &'static str
        ensures { result.now ≡ name_of self }
    {
        match self {
            Column::Op => "op",
            Column::Gap => "gap",
            Column::Addr => "addr",
            Column::Data => "data",
        }
    }
}

// The columns in the order in which a line of names has them, each once.
// No ghost field says so: a struct with one, held beside a `&mut`, gets no proof as a type argument, as in an `Option`.
#[derive(Clone, Copy, PartialEq, Eq, Debug)]
pub struct Columns {
    pub(super) order: [Column; 4],
}

impl Columns {
    ghost use Rattle.trace.specs.Naming.{standard_order};
    ghost use Rattle.trace.specs.Lines.{ordered};

    // The order in which cycles are written.
    pub fn standard() -> Columns
        ensures { result ≡ standard_order }
    {
        Columns {
            order: [Column::Op, Column::Gap, Column::Addr, Column::Data],
        }
    }

    // Is this the order in which cycles are written?
    pub fn is_standard(self) -> bool
        ensures { Decides result (self ≡ standard_order) }
    {
        self == Columns::standard()
    }

    // These columns, if each stands once.
    pub(super) fn from_order(order: [Column; 4]) -> Option<Columns>
        ensures { result ≡ ordered order }
    {
        has_each_once(order).then_some(Columns { order })
    }
}

// Does each of the four columns stand once?
// The wirings ask the like of bytes, in a crate that shares nothing with this one.
fn has_each_once(order: [Column; 4]) -> bool
    ensures { result ≡ only_once order }
{
    let columns = [Column::Op, Column::Gap, Column::Addr, Column::Data];
    columns.iter().all(|column| times(*column, order) == 1)
}

// How often the column stands among these: of columns, as the wirings count bytes. A loop and no chain (tried): `filter` and `count` took
// twice as long.
fn times(column: Column, order: [Column; 4]) -> usize
    ensures { result ≡ times column order }
{
    let mut n = 0;
    for other in order.iter() {
        n += usize::from(*other == column);
    }
    n
}
