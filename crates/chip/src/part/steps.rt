// What an event does to a part, by where it stands in time.
ghost use Rattle.std.specs.Prelude.{◌≡◌, ℕ, ◌+◌, ◌-◌, ◌*◌, ◌/◌, ◌<◌, ◌≤◌, min, not, nat_le, nat_lt};
ghost use Rattle.std.specs.Result.{result_err};
ghost use Rattle.bus.specs.Closing.{due};
ghost use Rattle.bus.specs.Periods.{fresh};
ghost use Rattle.bus.specs.Time.{running};
ghost use Rattle.bus.specs.Status.{bit, counted};
ghost use Rattle.period.specs.Meaning.{period_of};
ghost use Rattle.kinds.specs.Style.{nearest};
ghost use Rattle.array.specs.Filling.{settle_by};
ghost use Rattle.chip.specs.Exact.{Onward};
ghost use Rattle.chip.specs.Meaning.{count_of, stored, frame, chip_with, meant, MovesTo, grown, joined_to, Within, Stepped, Reached};

use super::Part;
use crate::phase::{Event, Phase};
use bus::closed::Closed;
use bus::load::Load;
use bus::refusal::BusRefusal;
use kinds::behaviour::{Behaviour, nearest_cycle_time};
use period::open::OpenPeriod;

// An open period closes when its age, in microseconds, exceeds this.
const LOAD_WINDOW: u32 = 150;

// The age of an open period after a gap.
fn later(age: u8, gap: u16) -> u32
    ensures { result ≡ min age 150 + gap }
{
    u32::from(age).min(LOAD_WINDOW) + u32::from(gap)
}

// The status: bit 7 against the byte last loaded, bit 6 against the status before, and the free bits.
fn status(last: Load, toggle: bool, free: u8) -> u8
    requires { free < 64 }
    ensures { result ≡ 128 * (1 - last.byte / 128) + (64 * bit (not toggle) + free) }
{
    let top = if last.byte < 128 { 128 } else { 0 };
    let middle = if toggle { 0 } else { 64 };
    top + middle + free
}

// One read more.
fn counted(reads: u64) -> u64
    ensures { result ≡ counted reads }
{
    reads.saturating_add(1)
}

impl<B: Behaviour + Drop> Part<'_, B> {
    // Whether an address lies outside the part.
    fn is_outside(&self, address: u32) -> bool
        ensures { result ≡ nat_le (128 * count_of self.now) address }
    {
        address >= 128 * self.array.sectors()
    }

    // The gap passes, if the address lies inside the part.
    pub(super) fn reach(&mut self, address: u32, gap: u16) -> Result<(), BusRefusal>
        ensures { Reached B.style address gap (B.times self.old.behaviour) (B.times self.new.behaviour) (meant B.style self.old) (meant B.style self.new) (result_err result) }
    {
        if self.is_outside(address) {
            return Err(BusRefusal::Outside);
        }
        let _ = self.step(Event::Gap(gap));
        Ok(())
    }

    // The period that a gap would close now.
    pub fn due(&self, gap: u16) -> Option<Closed>
        ensures { result ≡ due gap (meant B.style self.now) }
    {
        match self.phase {
            Phase::Open(age) if later(age, gap) > LOAD_WINDOW => Some(
                self.array.closing(&self.period),
            ),
            _ => None,
        }
    }

    // A cycle has run so far: it goes on, or the part is at rest.
    fn run(&mut self, time: u16, elapsed: u32)
        requires { (1 ≤ time) × (time ≤ 10000) }
        ensures { MovesTo B.style self.old self.new (chip_with (frame self.old) (stored self.old) (running time elapsed)) }
    {
        self.phase = if elapsed < u32::from(time) {
            Phase::Cycle {
                elapsed: elapsed as u16,
                time,
            }
        } else {
            Phase::Rest
        };
    }

    // A cycle goes on for a gap.
    fn run_on(&mut self, elapsed: u16, time: u16, gap: u16)
        ensures { MovesTo B.style self.old self.new (chip_with (frame self.old) (stored self.old) (running (nearest time) (min elapsed (nearest time - 1) + gap))) }
    {
        let time = nearest_cycle_time(time);
        self.run(time, u32::from(elapsed.min(time - 1)) + u32::from(gap));
    }

    // The open period closes, and takes the next cycle time.
    fn close(&mut self) -> u16
        ensures state { stored self.new ≡ settle_by B.style (count_of self.old) (stored self.old) (period_of (count_of self.old) self.old.period) }
        ensures kept { frame self.new ≡ frame self.old }
        ensures time { result ≡ B.times self.old.behaviour 0 }
        ensures times { (k : ℕ) → B.times self.new.behaviour k ≡ B.times self.old.behaviour (k + 1) }
    {
        self.array.close(&self.period, &self.behaviour);
        self.behaviour.next_time()
    }

    // The open period has grown to this age, or has closed, and its cycle begins.
    fn grow(&mut self, age: u32)
        ensures chip { meant B.style self.new ≡ grown B.style self.old (B.times self.old.behaviour 0) age }
        ensures times { Onward (nat_lt 150 age) (B.times self.old.behaviour) (B.times self.new.behaviour) }
    {
        if age > LOAD_WINDOW {
            let time = self.close();
            self.run(time, age - LOAD_WINDOW);
        } else {
            self.phase = Phase::Open(age as u8);
        }
    }

    // The load joins the open period.
    fn join(&mut self, l: Load)
        requires { l.address < 128 * count_of self.old }
        ensures { MovesTo B.style self.old self.new (joined_to B.style self.old (period_of (count_of self.old) self.old.period) l) }
    {
        let sectors = self.array.sectors();
        self.period.extend(sectors, l);
        self.phase = Phase::Open(0);
        self.last = l;
    }

    // The load opens a period.
    fn begin(&mut self, l: Load)
        requires { l.address < 128 * count_of self.old }
        ensures { MovesTo B.style self.old self.new (joined_to B.style self.old fresh l) }
    {
        self.period = OpenPeriod::new();
        self.join(l);
    }

    // What an event does, by where the part stands, and the byte that a read gets. An address lies inside the part. One match, as
    // the rules are told: by phase and event together.
    pub(super) fn step(&mut self, event: Event) -> Result<Option<u8>, BusRefusal>
        requires { Within event (count_of self.old) }
        ensures { Stepped B.style event (B.times self.old.behaviour) (B.times self.new.behaviour) (meant B.style self.old) (meant B.style self.new) result }
    {
        match (self.phase, event) {
            (Phase::Rest, Event::Gap(_)) => Ok(None),
            (Phase::Open(age), Event::Gap(gap)) => {
                self.grow(later(age, gap));
                Ok(None)
            }
            (Phase::Cycle { elapsed, time }, Event::Gap(gap)) => {
                self.run_on(elapsed, time, gap);
                Ok(None)
            }
            (Phase::Rest, Event::Load(l)) => {
                self.begin(l);
                Ok(None)
            }
            (Phase::Open(_), Event::Load(l)) if self.period.completes_reserved(l) => Err(
                BusRefusal::ReservedCode,
            ),
            (Phase::Open(_), Event::Load(l)) => {
                self.join(l);
                Ok(None)
            }
            (Phase::Cycle { .. }, Event::Load(_)) => Err(BusRefusal::Busy),
            (Phase::Rest, Event::Read(address)) => {
                self.reads = counted(self.reads);
                Ok(Some(self.array.byte_at(address)))
            }
            (Phase::Open(_) | Phase::Cycle { .. }, Event::Read(_)) => {
                let byte = status(self.last, self.toggle, self.behaviour.free_bits());
                self.reads = counted(self.reads);
                self.toggle = !self.toggle;
                Ok(Some(byte))
            }
            (Phase::Open(_), Event::Identify) => {
                let _ = self.close();
                self.phase = Phase::Rest;
                Ok(None)
            }
            (Phase::Rest | Phase::Cycle { .. }, Event::Identify) => {
                self.phase = Phase::Rest;
                Ok(None)
            }
        }
    }
}
