//! Prints the ciphertext of the first known-answer case, and then a line for each number: `row N ok` or `row N bad`. It
//! reads nothing. The status is 0 if each line says ok and could be written, and else 1.
#![tactic(auto)]

use chacha20::ChaCha20;
use chacha20::backends::{Lanes8, Lanes16};
use chacha20::cipher::{KeyIvInit, StreamCipher};
use known_answers::cases::CASES;
use known_answers::report::report;
use known_answers::subjects::run_text;
use std::process::ExitCode;

// The named ciphers are over `Lanes16`, the named generators over `Lanes8`.
fn main(rt: HostRuntime) -> ExitCode {
    let mut message = [0, 1, 2, 3, 4, 5, 6, 7, 8, 9, 10, 11, 12, 13, 14, 15];
    ChaCha20::new(&[0x42; 32], &[0x24; 12]).apply_keystream(&mut message);
    report(&rt, &message, &run_text::<(Lanes16, Lanes8)>(CASES))
}
