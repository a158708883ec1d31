// A plain number of sectors beside the lent memory, as a part is made: none, or 256 to 8,192 for which the memory has room. Methods
// stand in modules below, since their contracts cite definitions over the struct.
ghost use Rattle.std.specs.Prelude.{length};
ghost use Rattle.array.specs.Fits.{Fit};

mod closing;
mod reading;

#[derive(Drop)]
pub struct FlashArray<'a> {
    memory: &'a mut [u8],
    sectors: u32,
    protected: bool,
    low_locked: bool,
    high_locked: bool,
    ghost fits: { Fit sectors (length memory.now) },
}
