// Memory stores at the edges of their memory.
use super::number;
use memory::store::MemoryStore;
use rows::store::Store;
use std::process::Abort;

fn has_rows(rt: &impl Abort, memory: &mut [u8], rows: usize) {
    let mut store = MemoryStore::new(memory);
    assert_eq!(rt; store.rows(), rows);
    assert_eq!(rt; number(store.write(rows, &[1; 128])), 4);
    assert_eq!(rt; number(store.read(rows, &mut [0; 128])), 4);
    assert_eq!(rt; number(store.is_locked(rows)), 4);
    assert_eq!(rt; number(store.read(usize::MAX, &mut [0; 128])), 4);
}

// (bytes of a memory, whole rows in them)
const MEMORIES: [(usize, usize); 6] = [(0, 0), (127, 0), (128, 1), (255, 1), (256, 2), (257, 2)];

#[test]
fn whole_rows_alone_count(rt: HostRuntime) {
    let mut memory = [0; 257];
    for (bytes, rows) in MEMORIES {
        has_rows(&rt, &mut memory[..bytes], rows);
    }
}

#[test]
fn a_write_stays_in_its_row(rt: HostRuntime) {
    let mut memory = [0x5A; 300];
    let mut store = MemoryStore::new(&mut memory);
    assert_eq!(rt; number(store.write(1, &[0xC3; 128])), 0);
    assert_eq!(rt; number(store.write(0, &[0xC3; 127])), 5);
    assert_eq!(rt; number(store.write(0, &[0xC3; 129])), 5);
    assert_eq!(rt; number(store.write(0, &[])), 5);
    assert!(rt;
        memory[127] == 0x5A
            && memory[128] == 0xC3
            && memory[255] == 0xC3
            && memory[256] == 0x5A
            && memory[299] == 0x5A
    );
}

#[test]
fn a_read_fills_128_bytes(rt: HostRuntime) {
    let mut memory = [0x5A; 128];
    let mut store = MemoryStore::new(&mut memory);
    let mut place = [1; 130];
    assert_eq!(rt; number(store.read(0, &mut place[0..127])), 5);
    assert!(rt; place[0] == 1 && place[126] == 1);
    assert_eq!(rt; number(store.read(0, &mut place)), 0);
    assert!(rt; place[0] == 0x5A && place[127] == 0x5A && place[128] == 1 && place[129] == 1);
    assert_eq!(rt; store.is_locked(0), Ok(false));
}
