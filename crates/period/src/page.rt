// The data loads of a period.
ghost use Rattle.std.specs.Prelude.{◌≡◌, ◌*◌, ◌<◌};
ghost use Rattle.bus.specs.Periods.{add_data, data_with};
ghost use Rattle.period.specs.Data.{target_of, data_of};

use bus::kind::Kind;
use bus::load::Load;

// The sectors that the data loads named.
#[derive(Clone, Copy, PartialEq, Eq, Debug)]
pub enum Target {
    Nothing,
    Sector(u32),
    Several,
}

// Which sector the data loads named, and the last load of each of its bytes: beside the target and not in it, since a target is handed
// out by value, and the page would be copied with it or lent wherever it is matched. A sector past those of the part means none: no
// ghost field rules it out (tried: where a part, which holds a `&mut`, is a type argument, no struct in it without a borrow of its own
// may have one).
#[derive(Drop)]
pub(crate) struct PageBuffer {
    target: Target,
    page: [Option<u8>; 128],
}

impl PageBuffer {
    pub(crate) fn new() -> PageBuffer
        ensures { result.target ≡ Target.Nothing }
    {
        PageBuffer {
            target: Target::Nothing,
            page: [None; 128],
        }
    }

    // The sectors that the data loads named, on a part of so many sectors.
    pub(crate) fn target(&self, sectors: u32) -> Target
        ensures { result ≡ target_of sectors self.now.target }
    {
        match self.target {
            Target::Sector(sector) if sector >= sectors => Target::Nothing,
            target => target,
        }
    }

    // The last load of each byte of the sector that the data loads named.
    pub(crate) fn page(&self) -> &[Option<u8>; 128]
        ensures { result.now ≡ self.now.page }
    {
        &self.page
    }

    // One data load more.
    pub(crate) fn add(&mut self, sectors: u32, l: Load)
        requires { l.address < 128 * sectors }
        ensures { data_of sectors self.new ≡ add_data (data_of sectors self.old) l }
    {
        let sector = l.address / 128;
        let at = (l.address % 128) as usize;
        match self.target(sectors) {
            Target::Nothing => {
                self.page = [None; 128];
                self.page[at] = Some(l.byte);
                self.target = Target::Sector(sector);
            }
            Target::Sector(s) if s == sector => self.page[at] = Some(l.byte),
            Target::Sector(_) => self.target = Target::Several,
            Target::Several => {}
        }
    }

    // The load is a data load, unless it completes a code; `before` is how many loads the head had.
    pub(crate) fn add_by_kind(&mut self, sectors: u32, old: Kind, new: Kind, before: usize, l: Load)
        requires { l.address < 128 * sectors }
        ensures { data_of sectors self.new ≡ data_with old new before (data_of sectors self.old) l }
    {
        match (new, old) {
            (Kind::Coded, _) if before == 2 => self.target = Target::Nothing,
            (Kind::Lift, _) if before == 5 => self.target = Target::Nothing,
            (Kind::Low | Kind::High, _) => self.target = Target::Nothing,
            (Kind::Plain, Kind::Low | Kind::High) => self.target = Target::Several,
            _ => self.add(sectors, l),
        }
    }
}
