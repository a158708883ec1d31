// Lists of lines.
ghost use Rattle.std.specs.Prelude.{◌≡◌, MatchBool};
ghost use Rattle.wiring.specs.Lines.{EachOnce, occurrences, position};

// How often the lines name v. A loop and no chain (tried): `filter` and `count` took some seven times as long.
fn occurrences(lines: &[u8], v: u8) -> usize
    ensures { result ≡ occurrences v lines.now }
{
    let mut n = 0;
    for line in lines {
        n += usize::from(*line == v);
    }
    n
}

// Whether the lines name each of 0 to 7 once.
pub(crate) fn name_each_once(lines: &[u8; 8]) -> bool
    ensures { MatchBool result (EachOnce lines.now) (EachOnce lines.now → ⊥) }
{
    (0..8u8).all(|v| occurrences(lines, v) == 1)
}

// The line that names v first, or 8: a number and no Option, as the definition has it, since a wiring names each line.
pub(crate) fn position(lines: &[u8; 8], v: u8) -> u8
    ensures { result ≡ position v lines.now }
{
    lines.iter().position(|line| *line == v).unwrap_or(8) as u8
}
