// The open load period.
ghost use Rattle.std.specs.Prelude.{◌≡◌, ℕ, ◌*◌, ◌<◌};
ghost use Rattle.bus.specs.Codes.{completes_reserved, kind};
ghost use Rattle.bus.specs.Periods.{extend, fresh};

use crate::head::Head;
use crate::page::{PageBuffer, Target};
use bus::kind::Kind;
use bus::load::Load;

// The number of sectors comes with the calls that ask for it: a copy here could differ from that of the array beside it.
#[derive(Drop)]
pub struct OpenPeriod {
    head: Head,
    data_loads: PageBuffer,
}

impl OpenPeriod {
    ghost use Rattle.period.specs.Meaning.{head_of, target_in, page_of, period_of, extend_inside};

    // A period that has no loads yet.
    pub fn new() -> OpenPeriod
        ensures { (n : ℕ) → period_of n result ≡ fresh }
    {
        OpenPeriod {
            head: Head::new(),
            data_loads: PageBuffer::new(),
        }
    }

    // The kind of the period on a part of so many sectors.
    pub fn kind(&self, sectors: u32) -> Kind
        ensures { result ≡ kind sectors (period_of sectors self.now) }
    {
        self.head.kind(sectors)
    }

    // Whether this load would complete the code of identification or of chip erase.
    pub fn completes_reserved(&self, l: Load) -> bool
        ensures { result ≡ completes_reserved (head_of self.now) l }
    {
        self.head.completes_reserved(l)
    }

    // The sectors that the data loads named, on a part of so many sectors.
    pub fn target(&self, sectors: u32) -> Target
        ensures { result ≡ target_in sectors self.now }
    {
        self.data_loads.target(sectors)
    }

    // The last load of each byte of the sector that the data loads named.
    pub fn page(&self) -> &[Option<u8>; 128]
        ensures { result.now ≡ page_of self.now }
    {
        self.data_loads.page()
    }

    // One load more, on a part of so many sectors. A load outside the part changes nothing.
    pub fn extend(&mut self, sectors: u32, l: Load)
        ensures { period_of sectors self.new ≡ extend_inside sectors (period_of sectors self.old) l }
    {
        if u64::from(l.address) >= 128 * u64::from(sectors) {
            return;
        }
        if self.head.is_long() {
            self.data_loads.add(sectors, l);
        } else {
            self.extend_head(sectors, l);
        }
    }

    fn extend_head(&mut self, sectors: u32, l: Load)
        requires { l.address < 128 * sectors }
        ensures { period_of sectors self.new ≡ extend sectors (period_of sectors self.old) l }
    {
        let old = self.head.kind(sectors);
        let before = self.head.len();
        self.head.keep(l);
        let new = self.head.kind(sectors);
        self.data_loads.add_by_kind(sectors, old, new, before, l);
    }
}
