// One sector of a part at rest.
ghost use Rattle.std.specs.Prelude.{◌≡◌, ◌*◌, ◌<◌, false};
ghost use Rattle.bus.specs.Meaning.{Chip, none};
ghost use Rattle.bus.specs.Outcomes.{is_locked};
ghost use Rattle.memory.specs.Memory.{row_of, as_bytes};
ghost use Rattle.driver.specs.Loading.{Ready, Present, Quiet, Gave, Code, Coding, first_of, SentBack, Programs};
ghost use Rattle.driver.specs.Settled.{after_lift};

use crate::code::{open, put};
use bus::codes;
use bus::load::Load;
use bus::socket::Socket;
use rows::store::ROW_BYTES;

// The byte at an address, read with gap 1.
fn byte_at<S: Socket>(socket: &mut S, address: u32) -> u8
    requires ready { Ready (S.meaning socket.old) }
    requires within { address < 128 * (S.meaning socket.old).sectors }
    ensures { Gave (S.meaning socket.old) (S.meaning socket.new) address result }
{
    socket.read(address, 1).unwrap_or(0)
}

// Reads each byte of a sector into the page. Each is below 256, and so as the driver's rows tell it.
pub(crate) fn read_sector<S: Socket>(socket: &mut S, sector: usize, page: &mut [u8; ROW_BYTES])
    requires { Present (S.meaning socket.old) sector }
    ensures quiet { Quiet (S.meaning socket.old) (S.meaning socket.new) 128 }
    ensures fills { page.new ≡ row_of (S.meaning socket.old).settled.bytes sector }
    ensures shows { page.new ≡ as_bytes (row_of (S.meaning socket.old).settled.bytes sector) }
{
    for (i, byte) in page.iter_mut().enumerate() {
        *byte = byte_at(socket, (ROW_BYTES * sector + i) as u32);
    }
}

// Loads each byte of a page into an open period, after its code.
fn load_page<S: Socket>(socket: &mut S, sector: usize, page: &[u8; ROW_BYTES])
    requires { sector < (S.meaning socket.old).sectors }
    ensures { (k : Code) (c : Chip) → Coding k c (S.meaning socket.old) none → Coding k c (S.meaning socket.new) (first_of sector page.now 128) }
{
    for (i, byte) in page.iter().enumerate() {
        let load = Load {
            address: (ROW_BYTES * sector + i) as u32,
            byte: *byte,
        };
        put(socket, load);
    }
}

// Programs a sector: once the part has settled, the sector has the bytes and the part is protected.
pub(crate) fn write_sector<S: Socket>(socket: &mut S, sector: usize, page: &[u8; ROW_BYTES])
    requires present { Present (S.meaning socket.old) sector }
    requires free { is_locked (S.meaning socket.old).sectors (S.meaning socket.old).settled sector ≡ false }
    ensures { Programs (S.meaning socket.old) (S.meaning socket.new) sector page.now }
{
    open(socket, &codes::coded());
    load_page(socket, sector, page);
}

// Reads a sector and loads it back after the lift code: once the part has settled, it is unprotected and has the bytes that it had.
pub(crate) fn lift_sector<S: Socket>(socket: &mut S, sector: usize)
    requires present { Present (S.meaning socket.old) sector }
    requires free { is_locked (S.meaning socket.old).sectors (S.meaning socket.old).settled sector ≡ false }
    ensures { SentBack (S.meaning socket.old) (S.meaning socket.new) (after_lift (S.meaning socket.old).settled) }
{
    let mut page = [0; ROW_BYTES];
    read_sector(socket, sector, &mut page);
    open(socket, &codes::six(codes::LIFT));
    load_page(socket, sector, &page);
}
