// The codes at the head of a load period. Every load has gap 1, so that it joins the period.
ghost use Rattle.std.specs.Prelude.{◌≡◌, ◌-◌, ◌*◌, ◌<◌};
ghost use Rattle.bus.specs.Codes.{at};
ghost use Rattle.bus.specs.Periods.{fresh};
ghost use Rattle.driver.specs.Loading.{Ready, Puts, Opened, Opening, extend_all, Sent};
ghost use Rattle.driver.specs.Settled.{after_lock_low, after_lock_high};

use bus::codes;
use bus::load::Load;
use bus::socket::Socket;

// One load. The state of the part, which is known, tells whether it is accepted.
pub(crate) fn put<S: Socket>(socket: &mut S, load: Load)
    requires { load.address < 128 * (S.meaning socket.old).sectors }
    ensures puts { Puts load (S.meaning socket.old) (S.meaning socket.new) }
    ensures sectors { (S.meaning socket.new).sectors ≡ (S.meaning socket.old).sectors }
{
    let _ = socket.load(load, 1);
}

// Opens a period with the loads of a code.
pub(crate) fn open<S: Socket>(socket: &mut S, code: &[Load])
    requires ready { Ready (S.meaning socket.old) }
    requires opening { Opening code.now }
    ensures { Opened (S.meaning socket.old) (S.meaning socket.new) (extend_all (S.meaning socket.old).sectors fresh code.now) }
{
    for load in code {
        put(socket, *load);
    }
}

// Loads a lockout code, which ends with this load: 00 at address 0 for the lower boot block, FF at the last address for the upper one.
pub(crate) fn lock_out<S: Socket>(socket: &mut S, last: Load)
    requires ready { Ready (S.meaning socket.old) }
    requires within { last.address < 128 * (S.meaning socket.old).sectors }
    ensures low { last ≡ at 0 0 → Sent (S.meaning socket.old) (S.meaning socket.new) (after_lock_low (S.meaning socket.old).settled) }
    ensures high { last ≡ at (128 * (S.meaning socket.old).sectors - 1) 0xFF → Sent (S.meaning socket.old) (S.meaning socket.new) (after_lock_high (S.meaning socket.old).settled) }
{
    open(socket, &codes::six(codes::LOCKOUT));
    put(socket, last);
}
