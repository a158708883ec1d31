// Lists of bus calls on any socket.
ghost use Rattle.std.specs.Prelude.{◌≡◌, length, IfOk, OnErr};
ghost use Rattle.bus.specs.Meaning as Phase;
ghost use Rattle.bus.specs.History.{Answered, Run, Kept, history};
ghost use Rattle.bus.specs.Law.{Law};

use crate::call::{Answer, Call, Response};
use crate::socket::Socket;
use std::alloc::{AllocError, Global};

// Makes one call, and gives its answer. The call is a value of a list, and so matched.
pub fn make_call<S: Socket>(socket: &mut S, call: Call) -> Answer
    ensures answered { Answered call result (S.meaning socket.old) (S.meaning socket.new) }
    ensures own { S.promise socket.old call result socket.new }
{
    match call {
        Call::Load(load, gap) => socket.load(load, gap).map(|()| Response::Loaded),
        Call::Read(address, gap) => socket.read(address, gap).map(Response::Byte),
        Call::Wait(gap) => {
            socket.wait(gap);
            Ok(Response::Waited)
        }
        Call::Identify => Ok(Response::Identified(socket.identify())),
    }
}

// Makes the calls in turn, and gives the answer of each. Where there is no memory for the answers no call is made. The answers are
// those of the rules, and the socket keeps its own promise at each call. On a part that began at rest the settled state then
// follows the load periods that calls and answers tell.
pub fn replay<S: Socket>(
    heap: Global,
    socket: &mut S,
    calls: &[Call],
) -> Result<Vec<Answer>, AllocError>
    ensures each { IfOk result (λ v. length v.items ≡ length calls.now) }
    ensures ran { IfOk result (λ v. Run (history calls.now v.items) (S.meaning socket.old) (S.meaning socket.new)) }
    ensures own { IfOk result (λ v. Kept S.promise (history calls.now v.items) socket.old socket.new) }
    ensures law { IfOk result (λ v. (S.meaning socket.old).phase ≡ Phase.rest → Law (history calls.now v.items) (S.meaning socket.old) (S.meaning socket.new)) }
    ensures refused { OnErr result (socket.new ≡ socket.old) }
{
    // A loop and no chain (tried): of a socket that the closure of `map` moves nothing is known afterwards, and `collect` would
    // ask for memory between the calls.
    let mut answers = Vec::with_capacity(heap, calls.len())?;
    for call in calls {
        answers.push_reserved(make_call(socket, *call));
    }
    Ok(answers)
}
