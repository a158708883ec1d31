// Other software that cannot make the part take a code.
ghost use Rattle.std.specs.Prelude.{◌≡◌};
ghost use Rattle.service.specs.Others.{harmless, all_harmless};

use crate::calls::{OthersCall, ServiceCall};

// Whether a call is ours, or one of other software that is no second load of a code: 55 at 2AAA, compared in its low 15 bits.
fn is_harmless(call: &ServiceCall) -> bool
    ensures { result ≡ harmless call.now }
{
    !matches!(
        call,
        ServiceCall::Others(OthersCall::Load(load, _))
            if load.address % 0x8000 == 0x2AAA && load.byte == 0x55
    )
}

// Whether every call of the list is harmless.
pub fn all_harmless(calls: &[ServiceCall]) -> bool
    ensures { result ≡ all_harmless calls.now }
{
    calls.iter().all(is_harmless)
}
