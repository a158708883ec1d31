// Piles three layers deep and more.
use super::number;
use crossing::crossing::Crossing;
use doubles::lockout::Lockout;
use layers::pair::Pair;
use layers::window::Window;
use memory::store::MemoryStore;
use rows::store::Store;
use std::process::Abort;
use wiring::wiring::Wiring;

// Rows 1 and 2 of the front, then the rows of the back turned by one line, of which the first is locked.
fn exercise<F: Store + Drop, B: Store + Drop>(rt: &impl Abort, front: F, back: B, wiring: Wiring) {
    let mut pile = Pair::new(
        Window::new(front, 1, 9),
        Crossing::new(Lockout::new(back, 1), wiring),
    );
    assert_eq!(rt; pile.rows(), 4);
    assert_eq!(rt; number(pile.write(0, &[0x11; 128])), 0);
    assert_eq!(rt; number(pile.write(2, &[0x22; 128])), 6);
    assert_eq!(rt; number(pile.write(3, &[0x01; 128])), 0);
    assert_eq!(rt; number(pile.write(4, &[0x44; 128])), 4);
    assert_eq!(rt; number(pile.write(2, &[0x22; 127])), 5);
    assert_eq!(rt; pile.is_locked(1), Ok(false));
    assert_eq!(rt; pile.is_locked(2), Ok(true));
    let mut place = [9; 129];
    assert_eq!(rt; number(pile.read(3, &mut place)), 0);
    assert!(rt; place[0] == 0x01 && place[127] == 0x01 && place[128] == 9);
}

#[test]
fn locks_and_bytes_follow_their_rows(rt: HostRuntime) {
    let mut wiring = Wiring::straight();
    assert!(rt; wiring.set(&[1, 2, 3, 4, 5, 6, 7, 0]).is_ok());
    let mut front = [0; 384];
    let mut back = [0; 256];
    exercise(
        &rt,
        MemoryStore::new(&mut front),
        MemoryStore::new(&mut back),
        wiring,
    );
    assert!(rt;
        front[0] == 0
            && front[127] == 0
            && front[128] == 0x11
            && front[255] == 0x11
            && front[256] == 0
    );
    assert!(rt; back[0] == 0 && back[127] == 0 && back[128] == 0x02 && back[255] == 0x02);
}

fn no_rows<S: Store + Drop>(rt: &impl Abort, mut store: S) {
    assert_eq!(rt; store.rows(), 0);
    assert_eq!(rt; number(store.read(0, &mut [])), 4);
    assert_eq!(rt; number(store.write(0, &[])), 4);
    assert_eq!(rt; number(store.is_locked(0)), 4);
}

fn empty<F: Store + Drop, B: Store + Drop>(rt: &impl Abort, front: F, back: B) {
    no_rows(
        rt,
        Pair::new(
            Window::new(front, 0, 9),
            Crossing::new(back, Wiring::straight()),
        ),
    );
}

#[test]
fn a_pile_of_empty_stores_is_empty(rt: HostRuntime) {
    empty(
        &rt,
        MemoryStore::new(&mut []),
        MemoryStore::new(&mut [0; 127]),
    );
}

// Stores of 1, 2 and 2 rows: row 4 is the last of the third.
fn nested<A: Store + Drop, B: Store + Drop, C: Store + Drop>(
    rt: &impl Abort,
    first: A,
    second: B,
    third: C,
) {
    let mut pile = Pair::new(Pair::new(first, second), third);
    assert_eq!(rt; pile.rows(), 5);
    assert_eq!(rt; number(pile.write(4, &[0x77; 128])), 0);
    assert_eq!(rt; number(pile.write(5, &[0x77; 128])), 4);
}

#[test]
fn a_pair_of_pairs_counts_through(rt: HostRuntime) {
    let mut first = [0; 128];
    let mut second = [0; 256];
    let mut third = [0; 256];
    nested(
        &rt,
        MemoryStore::new(&mut first),
        MemoryStore::new(&mut second),
        MemoryStore::new(&mut third),
    );
    assert!(rt; first[0] == 0 && second[255] == 0 && third[127] == 0 && third[128] == 0x77);
}
