//! The quarter round, which `chacha20` doesn't export of `chacha_base`. Tests within that crate would cost a second
//! proof of it.

use chacha_base::rounds::{Steps, quarter_round};

// RFC 8439, 2.1.1, on four words of a state.
#[test]
fn mixes_words(rt: HostRuntime) {
    let mut state = [
        0x11111111, 1, 2, 3, 4, 0x01020304, 6, 7, 8, 9, 0x9b8d6f43, 11, 12, 13, 14, 0x01234567,
    ];
    let mixed = [
        0xea2a92f4, 1, 2, 3, 4, 0xcb1cf8ce, 6, 7, 8, 9, 0x4581472e, 11, 12, 13, 14, 0x5881c4bb,
    ];
    quarter_round(0, 5, 10, 15, &mut state, &mut Steps::new());
    assert!(rt; state == mixed);
}
