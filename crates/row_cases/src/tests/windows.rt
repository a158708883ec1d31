// Windows at the edges of the store below.
use super::number;
use layers::window::Window;
use memory::store::MemoryStore;
use rows::store::Store;
use std::process::Abort;

// (first row, most rows, rows that show) over a store of 3 rows
const WINDOWS: [(usize, usize, usize); 9] = [
    (0, 3, 3),
    (0, 2, 2),
    (1, 9, 2),
    (2, 1, 1),
    (3, 1, 0),
    (4, 1, 0),
    (usize::MAX, 1, 0),
    (0, usize::MAX, 3),
    (usize::MAX, usize::MAX, 0),
];

fn shows(rt: &impl Abort, first: usize, most: usize, rows: usize) {
    let mut memory = [0; 384];
    let mut window = Window::new(MemoryStore::new(&mut memory), first, most);
    assert_eq!(rt; window.rows(), rows);
    assert_eq!(rt; number(window.read(rows, &mut [0; 128])), 4);
    assert_eq!(rt; number(window.write(usize::MAX, &[0; 128])), 4);
    assert_eq!(rt; number(window.is_locked(usize::MAX)), 4);
}

#[test]
fn a_window_is_cut_where_its_store_ends(rt: HostRuntime) {
    for (first, most, rows) in WINDOWS {
        shows(&rt, first, most, rows);
    }
}

#[test]
fn a_window_on_nothing_is_empty(rt: HostRuntime) {
    let mut window = Window::new(MemoryStore::new(&mut []), 0, 5);
    assert_eq!(rt; window.rows(), 0);
    assert_eq!(rt; number(window.write(0, &[])), 4);
}
