// The result of a load period, and how it takes effect.
ghost use Rattle.std.specs.Prelude.{◌≡◌, ℕ, ◌+◌, ◌<◌, ◌≤◌, List, Option, length};
ghost use Rattle.std.specs.Option.{unwrap_or};
ghost use Rattle.std.proofs.Math.Seq.{paste};
ghost use Rattle.bus.specs.Outcomes.{is_locked, outcome_of, programmed};
ghost use Rattle.bus.specs.Closing.{closed_as};
ghost use Rattle.period.specs.Data.{data_at};
ghost use Rattle.period.specs.Meaning.{period_of};
ghost use Rattle.array.specs.Filling.{fill_from, programmed_by, settle_by};
ghost use Rattle.array.specs.Meaning.{count_of, state_of};

use super::FlashArray;
use bus::closed::Closed;
use bus::kind::Kind;
use bus::outcome::Outcome;
use kinds::behaviour::Behaviour;
use period::open::OpenPeriod;
use period::page::Target;

// What a byte becomes: its last load, or else what the behaviour makes of it.
fn programmed<B: Behaviour>(loaded: Option<u8>, old: u8, behaviour: &B) -> u8
    ensures { result ≡ unwrap_or loaded (B.style.filler old) }
{
    loaded.unwrap_or_else(|| behaviour.fill(old))
}

// Writes a page from `base` on.
fn write_page<B: Behaviour>(memory: &mut [u8], base: usize, page: &[Option<u8>; 128], behaviour: &B)
    requires { base + 128 ≤ length memory.old }
    ensures { memory.new ≡ paste memory.old base (programmed page.now (fill_from B.style.filler memory.old base 128)) 128 }
{
    // Byte by byte, with its index, as the rules tell it: each loaded byte takes its last load.
    for (i, loaded) in page.iter().enumerate() {
        memory[base + i] = programmed(*loaded, memory[base + i], behaviour);
    }
}

impl FlashArray<'_> {
    // Whether a sector lies in a locked boot block.
    pub fn is_locked(&self, sector: u32) -> bool
        ensures { result ≡ is_locked (count_of self.now) (state_of self.now) sector }
    {
        let sectors = self.sectors();
        (self.low_locked && sector < 64)
            || (self.high_locked && sector >= sectors.saturating_sub(64))
    }

    // The result of a period of this kind whose data loads named this: the first that applies.
    pub fn outcome(&self, kind: Kind, target: Target) -> Outcome
        ensures value { (page : List (Option ℕ)) → result ≡ outcome_of (count_of self.now) (state_of self.now) kind (data_at target page) }
        ensures named { (r : ℕ) → result ≡ Outcome.Written r → target ≡ Target.Sector r }
    {
        match (kind, target) {
            (Kind::Low | Kind::High, _) => Outcome::Set,
            (Kind::Plain, _) if self.protected => Outcome::Barred,
            (_, Target::Nothing) => Outcome::Empty,
            (_, Target::Several) => Outcome::Mixed,
            (_, Target::Sector(sector)) if self.is_locked(sector) => Outcome::Locked(sector),
            (_, Target::Sector(sector)) => Outcome::Written(sector),
        }
    }

    // What the period comes to if it closes as it stands.
    pub fn closing(&self, period: &OpenPeriod) -> Closed
        ensures { result ≡ closed_as (count_of self.now) (state_of self.now) (period_of (count_of self.now) period.now) }
    {
        let sectors = self.sectors();
        let kind = period.kind(sectors);
        let outcome = self.outcome(kind, period.target(sectors));
        Closed { kind, outcome }
    }

    // Programs a page into its sector.
    fn program<B: Behaviour>(&mut self, sector: u32, page: &[Option<u8>; 128], behaviour: &B)
        requires { sector < count_of self.old }
        ensures bytes { state_of self.new ≡ programmed_by B.style (state_of self.old) sector page.now }
        ensures kept { count_of self.new ≡ count_of self.old }
    {
        write_page(self.memory, 128 * sector as usize, page, behaviour);
    }

    // The period closes: what it comes to takes effect.
    pub fn close<B: Behaviour>(&mut self, period: &OpenPeriod, behaviour: &B)
        ensures state { state_of self.new ≡ settle_by B.style (count_of self.old) (state_of self.old) (period_of (count_of self.old) period.now) }
        ensures kept { count_of self.new ≡ count_of self.old }
    {
        let sectors = self.sectors();
        let kind = period.kind(sectors);
        if let Outcome::Written(sector) = self.outcome(kind, period.target(sectors)) {
            self.program(sector, period.page(), behaviour);
        }
        match kind {
            Kind::Coded => self.protected = true,
            Kind::Lift => self.protected = false,
            Kind::Low => self.low_locked = true,
            Kind::High => self.high_locked = true,
            Kind::Plain => {}
        }
    }
}
