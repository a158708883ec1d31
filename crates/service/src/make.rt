// One call on a driver.
ghost use Rattle.std.specs.Prelude.{◌≡◌};
ghost use Rattle.bus.specs.History.{Answered};
ghost use Rattle.driver.specs.Calls.{Commanded};
ghost use Rattle.service.specs.Others.{bus_call};
ghost use Rattle.service.specs.Steps.{after_lock, Done};

use crate::calls::{BootBlock, OthersCall, Reply, ServiceAnswer, ServiceCall};
use bus::call::{Answer, Response};
use bus::socket::Socket;
use driver::driver::Driver;
use row_lists::perform::make;
use rows::refusal::RowRefusal;

fn lock<S: Socket>(driver: &mut Driver<S>, block: BootBlock) -> Result<(), RowRefusal>
    ensures { Commanded (S.meaning driver.old.socket) (S.meaning driver.new.socket) driver.new.settling_reads result (after_lock block (S.meaning driver.old.socket).settled) }
{
    match block {
        BootBlock::Lower => driver.lock_low(),
        BootBlock::Upper => driver.lock_high(),
    }
}

fn pass_on<S: Socket>(driver: &mut Driver<S>, call: OthersCall) -> Answer
    ensures answered { Answered (bus_call call) result (S.meaning driver.old.socket) (S.meaning driver.new.socket) }
    ensures told { driver.new.settling_reads ≡ 0 }
{
    match call {
        OthersCall::Load(load, gap) => driver.pass_load(load, gap).map(|()| Response::Loaded),
        OthersCall::Read(address, gap) => driver.pass_read(address, gap).map(Response::Byte),
        OthersCall::Wait(gap) => {
            driver.pass_wait(gap);
            Ok(Response::Waited)
        }
    }
}

// Makes one call. Calls are values of a list, and so matched, here and above.
pub fn make_call<S: Socket>(driver: &mut Driver<S>, call: ServiceCall) -> Reply
    ensures { Done (S.meaning driver.old.socket) (S.meaning driver.new.socket) call result.answer result.settling_reads }
{
    let answer = match call {
        ServiceCall::Row(call) => ServiceAnswer::Row(make(driver, call)),
        ServiceCall::Lock(block) => ServiceAnswer::Lock(lock(driver, block)),
        ServiceCall::Others(call) => ServiceAnswer::Others(pass_on(driver, call)),
    };
    Reply {
        answer,
        settling_reads: driver.settling_reads(),
    }
}
