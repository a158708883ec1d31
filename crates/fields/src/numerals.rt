ghost use Rattle.std.specs.Prelude.{◌≡◌, ◌^◌, ◌<◌, ◌≤◌, IfSome};
ghost use Rattle.fields.specs.Forms.{number_in};

// The number that `text` writes in this base, in no fewer and no more digits: five are room enough for any column.
pub(crate) fn number(base: u32, fewest: usize, most: usize, text: &[u8]) -> Option<u32>
    requires base { 2 ≤ base }
    requires base_top { base ≤ 16 }
    requires digits { most ≤ 5 }
    ensures value { result ≡ number_in base fewest most text.now }
    ensures bound { IfSome result (λ n. n < 16 ^ most) }
{
    if text.len() < fewest || text.len() > most {
        return None;
    }
    let mut number = 0u32;
    // A loop and no chain (tried): what bounds each step is what came before, which the closure would not know.
    for byte in text {
        let digit = char::from(*byte).to_digit(base)?;
        number = number * base + digit;
    }
    Some(number)
}
