// A lent socket is a socket: each call is passed on in a line, which no form makes plainer.
use crate::identity::Identity;
use crate::load::Load;
use crate::refusal::BusRefusal;
use crate::socket::Socket;

impl<'a, S: Socket> Socket for &'a mut S {
    ghost meaning = { λ s. S.meaning s.now };

    ghost lawful = { λ s. S.lawful s.now };

    ghost promise = { λ s x a t. S.promise s.now x a t.now };

    fn sectors(&self) -> u32 {
        (**self).sectors()
    }

    fn load(&mut self, load: Load, gap: u16) -> Result<(), BusRefusal> {
        (**self).load(load, gap)
    }

    fn read(&mut self, address: u32, gap: u16) -> Result<u8, BusRefusal> {
        (**self).read(address, gap)
    }

    fn wait(&mut self, gap: u16) {
        (**self).wait(gap)
    }

    fn identify(&mut self) -> Identity {
        (**self).identify()
    }
}
