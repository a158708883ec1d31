ghost use Rattle.std.specs.Prelude.{◌≡◌};
ghost use Rattle.trace.specs.Names.{column_named};
ghost use Rattle.trace.specs.Lines.{field_texts, order_named};

use super::{Column, Columns};
use fields::Fields;

// The column that a name stands for.
fn column_named(name: &[u8]) -> Option<Column>
    ensures { result ≡ column_named name.now }
{
    match name {
        [a, b] => match (char::from(*a), char::from(*b)) {
            ('o', 'p') => Some(Column::Op),
            _ => None,
        },
        [a, b, c] => match (char::from(*a), char::from(*b), char::from(*c)) {
            ('g', 'a', 'p') => Some(Column::Gap),
            _ => None,
        },
        [a, b, c, d] => match (
            char::from(*a),
            char::from(*b),
            char::from(*c),
            char::from(*d),
        ) {
            ('a', 'd', 'd', 'r') => Some(Column::Addr),
            ('d', 'a', 't', 'a') => Some(Column::Data),
            _ => None,
        },
        _ => None,
    }
}

// The order of four names, each of which stands once.
pub(crate) fn order(names: Fields) -> Option<Columns>
    ensures { result ≡ order_named (field_texts names.entry) }
{
    let [first, second, third, fourth] = names.texts;
    Columns::from_order([
        column_named(first)?,
        column_named(second)?,
        column_named(third)?,
        column_named(fourth)?,
    ])
}
