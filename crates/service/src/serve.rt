// Lists of calls on a driver.
ghost use Rattle.std.specs.Prelude.{◌≡◌, length, IfOk, OnErr};
ghost use Rattle.service.specs.Histories.{Run, history};
ghost use Rattle.service.specs.Law.{Law};

use crate::calls::{Reply, ServiceCall};
use crate::make::make_call;
use bus::socket::Socket;
use driver::driver::Driver;
use std::alloc::{AllocError, Global};

// Makes each call in turn, and gives the replies in the same order. The memory for them is asked for before the first call: where
// there is none, no call is made. On a part that began at rest and protected each row then shows our last accepted write to it,
// whatever harmless calls other software made.
pub fn serve<S: Socket>(
    heap: Global,
    driver: &mut Driver<S>,
    calls: Vec<ServiceCall>,
) -> Result<Vec<Reply>, AllocError>
    ensures every { IfOk result (λ replies. length replies.items ≡ length calls.items) }
    ensures ran { IfOk result (λ replies. Run (history calls.items replies.items) (S.meaning driver.old.socket) (S.meaning driver.new.socket)) }
    ensures law { IfOk result (λ replies. Law calls.items replies.items (S.meaning driver.old.socket) (S.meaning driver.new.socket)) }
    ensures refused { OnErr result (driver.new ≡ driver.old) }
{
    let mut replies = Vec::with_capacity(heap, calls.len())?;
    // A loop and no chain (tried): the closure would change the driver that it captures, and then nothing is known of the replies.
    // No generic function with `perform` and `replay`: it needs a trait for "makes a call" with an impl for each, and each is four lines.
    for call in calls {
        replies.push_reserved(make_call(driver, call));
    }
    Ok(replies)
}
