// The rules at their edges, computed by the definitions.
ghost use Rattle.std.specs.Prelude.{◌≡◌, ℕ, List, length};
ghost use Rattle.cases.specs.Worked.{computed, expected};

// The number of worked cases, each of which comes out as expected, whatever the bytes of the AT29C010A.
pub fn worked_cases() -> usize
    ensures count { result ≡ length expected }
    ensures worked { (bytes : List ℕ) → computed bytes ≡ expected }
{
    15
}
