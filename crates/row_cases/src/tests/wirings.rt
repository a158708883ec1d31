// Wirings that are taken and refused, and bytes through them.
use wiring::refusal::WiringRefusal;
use wiring::wiring::Wiring;

const CROSSED: [u8; 8] = [1, 0, 2, 3, 4, 5, 6, 7];

#[test]
fn lines_0_and_1_crossed_show_01_as_02(rt: HostRuntime) {
    let mut wiring = Wiring::straight();
    assert!(rt; wiring.set(&CROSSED).is_ok());
    let mut bytes = [0x01, 0x02, 0x80, 0xFF, 0xFD];
    wiring.show(&mut bytes);
    assert!(rt; bytes == [0x02, 0x01, 0x80, 0xFF, 0xFE]);
    wiring.lay(&mut bytes);
    assert!(rt; bytes == [0x01, 0x02, 0x80, 0xFF, 0xFD]);
}

// A turn by one line: what shows at line i lies at line i + 1, so that the reverse is another wiring.
#[test]
fn a_write_goes_through_the_reverse(rt: HostRuntime) {
    let mut wiring = Wiring::straight();
    assert!(rt; wiring.set(&[1, 2, 3, 4, 5, 6, 7, 0]).is_ok());
    let mut bytes = [0x01];
    wiring.show(&mut bytes);
    assert!(rt; bytes == [0x80]);
    let mut bytes = [0x01];
    wiring.lay(&mut bytes);
    assert!(rt; bytes == [0x02]);
}

const REFUSED: [&[u8]; 7] = [
    &[7, 0, 2, 3, 4, 5, 6, 7],
    &[8, 0, 2, 3, 4, 5, 6, 7],
    &[255, 0, 2, 3, 4, 5, 6, 7],
    &[0, 1, 2, 3, 4, 5, 6],
    &[0, 1, 2, 3, 4, 5, 6, 7, 0],
    &[0, 1, 2, 3, 4, 5, 6, 7, 8],
    &[],
];

#[test]
fn each_line_is_named_once(rt: HostRuntime) {
    let mut wiring = Wiring::straight();
    assert!(rt; wiring.set(&CROSSED).is_ok());
    for lines in REFUSED {
        assert_eq!(rt; wiring.set(lines).map_err(WiringRefusal::number), Err(7));
        assert!(rt; *wiring.lines() == CROSSED);
    }
}
