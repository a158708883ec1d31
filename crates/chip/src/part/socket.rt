// A part is a socket.
ghost use Rattle.std.specs.Prelude.{◌≡◌};
ghost use Rattle.bus.specs.Identification.{lock_byte};
ghost use Rattle.chip.specs.Meaning.{meant, Promised};
ghost use Rattle.chip.specs.Lawful.{part_lawful};

use super::Part;
use crate::phase::Event;
use bus::identity::Identity;
use bus::load::Load;
use bus::refusal::BusRefusal;
use bus::socket::Socket;
use kinds::behaviour::Behaviour;

fn lock_byte(locked: bool) -> u8
    ensures { result ≡ lock_byte locked }
{
    if locked { 0xFF } else { 0xFE }
}

impl<B: Behaviour + Drop> Socket for Part<'_, B> {
    ghost meaning = { meant B.style };

    ghost lawful = { part_lawful B.style };

    ghost promise = { Promised B.style B.times };

    fn sectors(&self) -> u32 {
        self.array.sectors()
    }

    fn load(&mut self, load: Load, gap: u16) -> Result<(), BusRefusal> {
        self.reach(load.address, gap)?;
        self.step(Event::Load(load))?;
        Ok(())
    }

    fn read(&mut self, address: u32, gap: u16) -> Result<u8, BusRefusal> {
        self.reach(address, gap)?;
        let byte = self.step(Event::Read(address))?;
        Ok(byte.unwrap())
    }

    fn wait(&mut self, gap: u16) {
        let _ = self.step(Event::Gap(gap));
    }

    fn identify(&mut self) -> Identity {
        let _ = self.step(Event::Identify);
        Identity {
            maker: 0x1F,
            device: self.device,
            low: lock_byte(self.array.low_locked()),
            high: lock_byte(self.array.high_locked()),
        }
    }
}
