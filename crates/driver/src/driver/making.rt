// A driver made over a socket, and the socket back again.
ghost use Rattle.std.specs.Prelude.{◌≡◌};
ghost use Rattle.driver.specs.DriverRows.{driver_rows};

use crate::driver::Driver;
use bus::socket::Socket;
use rows::store::Store;

impl<S: Socket> Driver<S> {
    // The driver whose rows are the sectors of the part in the socket.
    pub fn new(socket: S) -> Driver<S>
        ensures holds { result.socket ≡ socket }
        ensures told { result.settling_reads ≡ 0 }
        ensures means { ⟦<Driver<S> as Store>⟧.meaning result ≡ driver_rows (S.meaning socket) }
    {
        Driver {
            socket,
            settling_reads: 0,
        }
    }

    pub fn into_socket(self) -> S
        ensures { result ≡ self.socket }
    {
        self.socket
    }

    // How many reads the latest call made to settle, all its settlings together.
    pub fn settling_reads(&self) -> u32
        ensures { result ≡ self.now.settling_reads }
    {
        self.settling_reads
    }
}
