// Toggle bit polling.
ghost use Rattle.std.specs.Prelude.{◌≡◌, ◌<◌};
ghost use Rattle.settling.specs.Settling.{toggle_bit, Polls, Settles};
ghost use Rattle.settling.specs.Steps.{Stage, Closed, Agreement};

use bus::socket::Socket;

// Longer than a load period stays open after its last load, in microseconds.
const CLOSING_WAIT: u16 = 151;

// The time from one poll to the next, in microseconds.
const POLL_GAP: u16 = 100;

// Lets the open period close.
fn close_period<S: Socket>(socket: &mut S)
    ensures { Closed (S.meaning socket.old) (S.meaning socket.new) }
{
    socket.wait(CLOSING_WAIT);
}

// Bit 6 of a byte. Bit 7 would not do: after a period that protection barred it never shows the data that was loaded.
fn toggle_bit(byte: u8) -> u8
    ensures { result ≡ toggle_bit byte }
{
    (byte >> 6) & 1
}

// The toggle bit of a read of address 0.
fn poll<S: Socket>(socket: &mut S) -> u8
    requires { 0 < (S.meaning socket.old).sectors }
    ensures { Polls (S.meaning socket.old) (S.meaning socket.new) result }
{
    socket.read(0, POLL_GAP).map_or(0, toggle_bit)
}

// Polls until two reads in succession agree, and tells how many there were. In a cycle the toggle bit alternates.
fn poll_until_agreed<S: Socket>(socket: &mut S) -> u32
    requires some { 0 < (S.meaning socket.old).sectors }
    requires closed { Stage (S.meaning socket.old).phase 0 }
    ensures { Agreement (S.meaning socket.old) (S.meaning socket.new) result }
{
    let mut before = poll(socket);
    let mut reads = 1;
    loop {
        let after = poll(socket);
        reads += 1;
        if after == before {
            break reads;
        }
        before = after;
    }
}

// Waits until the part is at rest, and tells how many reads that took: none on a part without sectors.
pub fn settle<S: Socket>(socket: &mut S) -> u32
    ensures { Settles (S.meaning socket.old) (S.meaning socket.new) result }
{
    close_period(socket);
    if socket.sectors() == 0 {
        return 0;
    }
    poll_until_agreed(socket)
}
