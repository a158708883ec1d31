// Lists of row calls on any store.
ghost use Rattle.std.specs.Prelude.{◌≡◌, IfOk, MatchResult};
ghost use Rattle.row_lists.specs.Histories.{asked, given, history, Made, OwnKept, Performed};

use crate::calls::{RowAnswer, RowCall};
use rows::store::Store;
use std::alloc::{AllocError, Global};

// Makes one call. The call is a value of a list, and so matched.
pub fn make<S: Store>(store: &mut S, call: RowCall) -> RowAnswer
    ensures made { Made (S.meaning store.old) (S.meaning store.new) call result }
    ensures own { S.promise store.old (asked call) (given result) store.new }
{
    match call {
        RowCall::CountRows => RowAnswer::Count(store.rows()),
        RowCall::Read { row, mut place } => {
            let result = store.read(row, &mut place);
            RowAnswer::Place { place, result }
        }
        RowCall::Write { row, bytes } => RowAnswer::Done(store.write(row, &bytes)),
        RowCall::AskLock { row } => RowAnswer::Lock(store.is_locked(row)),
    }
}

// Makes each call in turn, and gives the answers in the same order. The memory for them is asked for before the first
// call: where there is none, no call is made.
pub fn perform<S: Store>(
    heap: Global,
    store: &mut S,
    calls: Vec<RowCall>,
) -> Result<Vec<RowAnswer>, AllocError>
    ensures performed { MatchResult result (λ answers. Performed (S.meaning store.old) (S.meaning store.new) calls.items answers.items) (λ _. store.new ≡ store.old) }
    ensures own { IfOk result (λ answers. OwnKept S.promise (history calls.items answers.items) store.old store.new) }
{
    let mut answers = Vec::with_capacity(heap, calls.len())?;
    // A loop and no chain (tried): the closure would change the store that it captures, and then nothing is known of the answers.
    // No generic function with `serve` and `replay`: it needs a trait for "makes a call" with an impl for each, and each is four lines.
    for call in calls {
        answers.push_reserved(make(store, call));
    }
    Ok(answers)
}
