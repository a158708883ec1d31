ghost use Rattle.std.specs.Prelude.{◌≡◌, true, false, map, Some, IfSome, MatchOption};
ghost use Rattle.fields.specs.Splitting.{is_text, parts, filled, are_four};

// The most bytes that a line may have, its end not counted.
const LONGEST_LINE: usize = 64;

// The four fields of a line from left to right, each a part of it.
#[derive(Clone, Copy, PartialEq, Eq, Debug)]
pub struct Fields<'a> {
    pub texts: [&'a [u8]; 4],
}

// Is the line short enough, and are all its bytes printable?
pub fn is_text(line: &[u8]) -> bool
    ensures { result ≡ is_text line.now }
{
    line.len() <= LONGEST_LINE && line.iter().all(|byte| (32..=126).contains(byte))
}

// The four fields of a line, or none where it is not four fields with single spaces between.
pub fn split(line: &[u8]) -> Option<Fields<'_>>
    ensures { MatchOption result (are_four (parts line.now) ≡ false) (λ f. (are_four (parts line.now) ≡ true) × (parts line.now ≡ map (λ p. p.now) f.texts)) }
{
    let mut parts = line.split(|byte| *byte == b' ');
    let first = field(parts.next())?;
    let second = field(parts.next())?;
    let third = field(parts.next())?;
    let fourth = field(parts.next())?;
    let texts = [first, second, third, fourth];
    parts.next().is_none().then_some(Fields { texts })
}

// The part, if it is a field. It is asked as soon as the part is cut: nothing behind an empty one is looked at.
fn field(part: Option<&[u8]>) -> Option<&[u8]>
    ensures { MatchOption result (IfSome part.entry (λ p. filled p.now ≡ false)) (λ p. (part.entry ≡ Some p) × (filled p.now ≡ true)) }
{
    part.filter(|text| !text.is_empty())
}
