// The pile of a house, and a visit to it.
use crate::report;
use crossing::crossing::Crossing;
use doubles::lockout::Lockout;
use layers::pair::Pair;
use layers::window::Window;
use row_lists::calls::RowCall;
use rows::store::Store;
use std::alloc::{AllocError, Global};
use wiring::wiring::Wiring;

// The rows of the attic's chip that are locked for good.
const ATTIC_LOCKED: usize = 2;

// Sets a wiring, and prints whether it was taken.
fn wire(rt: &HostRuntime, wiring: &mut Wiring, lines: &[u8]) -> anyhow::Result<()> {
    match wiring.set(lines) {
        Ok(()) => println!(rt; "wiring {lines:?}: set")?,
        Err(refusal) => {
            println!(rt; "wiring {lines:?}: refused {}, {refusal}", refusal.number())?;
        }
    }
    Ok(())
}

// The attic's board crosses data lines 0 and 1.
pub(crate) fn board(rt: &HostRuntime) -> anyhow::Result<Wiring> {
    let mut wiring = Wiring::straight();
    wire(rt, &mut wiring, &[1, 0, 2, 3, 4, 5, 6, 7])?;
    wire(rt, &mut wiring, &[7, 7, 2, 3, 4, 5, 6, 0])?;
    Ok(wiring)
}

fn write(heap: Global, row: usize, value: u8, count: usize) -> Result<RowCall, AllocError> {
    let bytes = vec![in heap; value; count]?;
    Ok(RowCall::Write { row, bytes })
}

pub(crate) fn read(heap: Global, row: usize, count: usize) -> Result<RowCall, AllocError> {
    let place = vec![in heap; 0xAA; count]?;
    Ok(RowCall::Read { row, place })
}

// What the support engineer asks of the house's rows: each refusal, and calls that are accepted around it.
fn questions(heap: Global) -> Result<Vec<RowCall>, AllocError> {
    let list = vec![in heap;
        RowCall::CountRows,
        write(heap, 0, 0x21, 128)?,
        write(heap, 4, 0x22, 128)?,
        write(heap, 5, 0x01, 128)?,
        write(heap, 5, 0x23, 127)?,
        write(heap, 6, 0x24, 128)?,
        read(heap, 0, 130)?,
        read(heap, 5, 128)?,
        read(heap, 5, 127)?,
        read(heap, 6, 128)?,
        RowCall::AskLock { row: 4 },
        RowCall::AskLock { row: 5 },
        RowCall::AskLock { row: 6 },
    ]?;
    Ok(list)
}

// The house shows rows 1 to 3 of the kitchen's chip, then rows 0 to 2 of the attic's through its board, whose first two
// rows are locked.
pub(crate) fn visit<K: Store + Drop, A: Store + Drop>(
    rt: &HostRuntime,
    kitchen: K,
    attic: A,
    wiring: Wiring,
) -> anyhow::Result<()> {
    let front = Window::new(kitchen, 1, 9);
    let back = Window::new(
        Crossing::new(Lockout::new(attic, ATTIC_LOCKED), wiring),
        0,
        3,
    );
    let mut pile = Pair::new(front, back);
    report::calls(rt, "calls on the house", &mut pile, questions(rt.alloc())?)?;
    report::rows(rt, "rows that the house shows", &mut pile)?;
    let (front, back) = pile.into_below();
    let mut kitchen = front.into_below();
    report::rows(rt, "rows of the kitchen's chip", &mut kitchen)?;
    let mut attic = back.into_below().into_below().into_below();
    report::rows(rt, "rows of the attic's chip", &mut attic)
}
