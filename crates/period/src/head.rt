// The head of a period: its first seven loads, and the code that they begin with.
ghost use Rattle.std.specs.Prelude.{◌≡◌, false, ◌&&◌, [], length, ◌==◌};
ghost use Rattle.std.specs.List.{list_all, zip};
ghost use Rattle.bus.specs.Codes.{at, matches, begins, exactly, completes_reserved, seventh_is, kind_of};
ghost use Rattle.bus.specs.Periods.{head_with, more_with};

use arrayvec::ArrayVec;
use bus::codes;
use bus::kind::Kind;
use bus::load::Load;

// The first seven loads, and whether there were more.
#[derive(Drop)]
pub(crate) struct Head {
    loads: ArrayVec<Load, 7>,
    more: bool,
}

// Whether this is the load of a code, addresses compared in their low 15 bits.
fn matches(code: &Load, load: &Load) -> bool
    ensures { result ≡ matches code.now load.now }
{
    load.address % 32768 == code.address && load.byte == code.byte
}

// Whether each load is that of the code at its place, as far as both go.
fn match_all(code: &[Load], loads: &[Load]) -> bool
    ensures { result ≡ list_all (λ p. matches p.0 p.1) (zip code.now loads.now) }
{
    code.iter().zip(loads.iter()).all(|(c, l)| matches(c, l))
}

impl Head {
    pub(crate) fn new() -> Head
        ensures { (result.loads.items ≡ []) × (result.more ≡ false) }
    {
        Head {
            loads: ArrayVec::new(),
            more: false,
        }
    }

    // How many loads it has.
    pub(crate) fn len(&self) -> usize
        ensures { result ≡ length self.now.loads.items }
    {
        self.loads.len()
    }

    // Whether it is full and was followed by more loads, which tells its kind for good.
    pub(crate) fn is_long(&self) -> bool
        ensures { result ≡ (self.now.more && length self.now.loads.items == 7) }
    {
        self.more && self.loads.is_full()
    }

    // Whether it begins with this code.
    fn begins(&self, code: &[Load]) -> bool
        ensures { result ≡ begins code.now self.now.loads.items }
    {
        let loads = self.loads.as_slice();
        code.len() <= loads.len() && match_all(code, loads)
    }

    // Whether it is this code and no more so far.
    fn exactly(&self, code: &[Load]) -> bool
        ensures { result ≡ exactly code.now self.now.loads.items }
    {
        self.loads.len() == code.len() && self.begins(code)
    }

    // Whether there is a seventh load and it has this address and byte, compared in full.
    fn seventh_is(&self, address: u64, byte: u8) -> bool
        ensures { result ≡ seventh_is self.now.loads.items (at address byte) }
    {
        self.loads
            .as_slice()
            .get(6)
            .is_some_and(|l| u64::from(l.address) == address && l.byte == byte)
    }

    // Whether this load would complete the code of identification or of chip erase.
    pub(crate) fn completes_reserved(&self, l: Load) -> bool
        ensures { result ≡ completes_reserved self.now.loads.items l }
    {
        match (l.address % 32768, l.byte) {
            (0x5555, 0x90) => self.exactly(&codes::unlock()),
            (0x5555, 0x10) => self.exactly(&codes::unlock_twice()),
            _ => false,
        }
    }

    // The kind of the period on a part of so many sectors.
    pub(crate) fn kind(&self, sectors: u32) -> Kind
        ensures { result ≡ kind_of sectors self.now.loads.items self.now.more }
    {
        if self.begins(&codes::coded()) {
            Kind::Coded
        } else if self.begins(&codes::six(codes::LIFT)) {
            Kind::Lift
        } else if self.more || !self.begins(&codes::six(codes::LOCKOUT)) {
            Kind::Plain
        } else if self.seventh_is(0, 0) {
            Kind::Low
        } else if self.seventh_is((128 * u64::from(sectors)).saturating_sub(1), 0xFF) {
            Kind::High
        } else {
            Kind::Plain
        }
    }

    // The load joins the head, or tells that there were more.
    pub(crate) fn keep(&mut self, l: Load)
        ensures loads { self.new.loads.items ≡ head_with self.old.loads.items l }
        ensures more { self.new.more ≡ more_with self.old.loads.items self.old.more }
    {
        if self.loads.try_push(l).is_err() {
            self.more = true;
        }
    }
}
