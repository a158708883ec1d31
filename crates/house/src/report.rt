// Lists of row calls, made and printed.
use crate::house::read;
use row_lists::calls::RowCall;
use row_lists::perform::perform;
use rows::store::{ROW_BYTES, Store};

// Makes the calls, and prints each with its answer.
pub(crate) fn calls<S: Store>(
    rt: &HostRuntime,
    title: &str,
    store: &mut S,
    calls: Vec<RowCall>,
) -> anyhow::Result<()> {
    let heap = rt.alloc();
    let asked: Vec<String> = calls
        .iter()
        .map(|call| format!(in heap; "{call}"))
        .try_collect(heap)?;
    let answers = perform(heap, store, calls)?;
    println!(rt; "{title}")?;
    for (call, answer) in asked.iter().zip(answers.iter()) {
        println!(rt; "  {call}: {answer}")?;
    }
    Ok(())
}

// Reads each row of the store, and prints what it shows.
pub(crate) fn rows<S: Store>(rt: &HostRuntime, title: &str, store: &mut S) -> anyhow::Result<()> {
    let heap = rt.alloc();
    let reads: Vec<RowCall> = (0..store.rows())
        .map(|row| read(heap, row, ROW_BYTES))
        .try_collect(heap)?;
    println!(rt; "{title}")?;
    for (row, answer) in perform(heap, store, reads)?.iter().enumerate() {
        println!(rt; "  row {row}: {answer}")?;
    }
    Ok(())
}
