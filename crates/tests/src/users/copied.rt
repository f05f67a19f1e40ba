//! A published stream by `examples`: from block 1 on, and in pieces by any cipher. `own_core` has its tests in `tests`.

use chacha20::backends::Lanes4;
use chacha20::cipher::KeyIvInit;
use chacha20::variants::Ietf;
use chacha20::{ChaChaCore, R20, StreamCipherCoreWrapper};
use examples::message::encrypt_from_block_1;
use examples::pieces::apply_in_pieces;
use examples::simulation::{fill_below, worker};
use known_answers::published::{COUNTING, KEYSTREAM, NONCE};

#[test]
fn from_block_1(rt: HostRuntime) {
    let mut message = [0; 114];
    let encrypted = encrypt_from_block_1(&COUNTING, &NONCE, &mut message);
    assert!(rt; encrypted.is_ok() & (message == *KEYSTREAM));
}

// `ChaCha20` over another backend.
type ChaCha20Lanes4 = StreamCipherCoreWrapper<ChaChaCore<R20, Ietf, Lanes4>>;

#[test]
fn pieces_of_a_byte(rt: HostRuntime) {
    let mut bytes = [0; 178];
    let mut cipher = ChaCha20Lanes4::new(&COUNTING, &NONCE);
    apply_in_pieces(&mut cipher, &mut bytes, 1);
    assert!(rt; bytes.ends_with(KEYSTREAM));
}

// The words of RFC 8439, A.1, numbers 1 and 5, two by two: times 6, divided by 2^64.
#[test]
fn simulations(rt: HostRuntime) {
    let mut numbers = [[0; 8]; 2];
    fill_below(&mut worker([0; 32], 0), 6, &mut numbers[0]);
    fill_below(&mut worker([0; 32], 1 << 57), 6, &mut numbers[1]);
    assert!(rt; numbers == [[3, 0, 0, 4, 3, 1, 0, 3], [1, 4, 3, 4, 5, 5, 2, 2]]);
}
