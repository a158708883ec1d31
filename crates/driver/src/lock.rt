// The lock question.
ghost use Rattle.std.specs.Prelude.{◌≡◌, ◌-◌, ◌&&◌, ◌||◌, ◌==◌, nat_le, nat_lt};
ghost use Rattle.bus.specs.Meaning.{rest, with_phase};
ghost use Rattle.bus.specs.Outcomes.{is_locked};

use bus::identity::Identity;
use bus::socket::Socket;

// The byte of a locked boot block.
const LOCKED: u8 = 0xFF;

// The sectors of a boot block.
const BLOCK_SECTORS: u32 = 64;

// Whether a sector lies in a locked boot block of a part that identifies itself so.
fn in_locked_block(id: Identity, sectors: u32, sector: usize) -> bool
    ensures { result ≡ ((id.low == 255 && nat_lt sector 64) || (id.high == 255 && nat_le (sectors - 64) sector)) }
{
    (id.low == LOCKED && sector < BLOCK_SECTORS as usize)
        || (id.high == LOCKED && sector >= sectors.saturating_sub(BLOCK_SECTORS) as usize)
}

// Whether a sector is locked, told by identification.
pub(crate) fn ask_lock<S: Socket>(socket: &mut S, sector: usize) -> bool
    ensures tells { result ≡ is_locked (S.meaning socket.old).sectors (S.meaning socket.old).settled sector }
    ensures after { S.meaning socket.new ≡ with_phase (S.meaning socket.old) rest }
{
    let id = socket.identify();
    in_locked_block(id, socket.sectors(), sector)
}
