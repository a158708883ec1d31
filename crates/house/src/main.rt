// A house's settings: a chip on its bus, then the rows of two heating modules' chips behind one crossed board.
#![tactic(auto)]

mod bench;
mod house;
mod report;

use memory::store::MemoryStore;

// Rows of the chip in the kitchen's module, and of the one in the attic's.
const KITCHEN_BYTES: usize = 4 * 128;

const ATTIC_BYTES: usize = 5 * 128;

fn run(rt: &HostRuntime) -> anyhow::Result<()> {
    bench::show(rt)?;
    let heap = rt.alloc();
    let mut kitchen = vec![in heap; 0x4B; KITCHEN_BYTES]?;
    let mut attic = vec![in heap; 0xFF; ATTIC_BYTES]?;
    let wiring = house::board(rt)?;
    house::visit(
        rt,
        MemoryStore::new(&mut kitchen),
        MemoryStore::new(&mut attic),
        wiring,
    )
}

fn main(rt: HostRuntime) -> anyhow::Result<()> {
    run(&rt)
}
