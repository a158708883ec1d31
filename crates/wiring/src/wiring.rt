// Which line below each line shows.
ghost use Rattle.wiring.specs.Lines.{EachOnce};

mod calls;

// Line i shows line `lines[i]` below: each of 0 to 7 is named once.
#[derive(Clone, Copy)]
pub struct Wiring {
    lines: [u8; 8],
    ghost once: { EachOnce lines },
}
