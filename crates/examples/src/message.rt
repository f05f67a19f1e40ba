//! A message under a key and a nonce, in one call: by ChaCha20, by any other cipher, or with a number of rounds of your
//! own. These are bare ciphers, which don't authenticate: whoever changes a bit of the ciphertext changes that bit of
//! the text, and decryption doesn't notice. For messages that are sent or stored take the crate `chacha20poly1305`.
//!
//! The contract of `encrypt` says:
//!
//! - `accepted`: the call returns `Ok` exactly where the message has at most 2^38 bytes (256 GiB).
//! - `bytes`: on `Ok` the message is what it was, each byte XORed (exclusive or) with the byte at its place in the
//!   keystream of the key and the nonce.
//! - `refused`: on `Err` the message is as it was.
//!
//! Decryption is the same call. Never use a nonce twice under one key.

ghost use Rattle.std.specs.Prelude.{◌≡◌, ◌≤◌, ◌+◌, ◌↔◌, ◌^◌, length, IsOk, OnOk, OnErr};
ghost use Rattle.chacha20.specs.ChaCha.{chacha_stream, keystream, xor_stream, ietf};
ghost use Rattle.chacha20.specs.Cipher.{limit_of};

use chacha20::backends::Lanes16;
use chacha20::cipher::{KeyIvInit, StreamCipher, StreamCipherError, StreamCipherSeek};
use chacha20::variants::Ietf;
use chacha20::{ChaCha20, ChaChaCore, Key, Nonce, Rounds, StreamCipherCoreWrapper};

/// Encrypts a message by ChaCha20, as RFC 8439, section 2.4, does from block 0 on. Ten is the number of double rounds.
/// `Err` exactly where the message is longer than the keystream; then it is as it was.
pub fn encrypt(key: &Key, nonce: &Nonce, message: &mut [u8]) -> Result<(), StreamCipherError>
    ensures accepted { IsOk result ↔ (length message.old ≤ 2 ^ 38) }
    ensures bytes { OnOk result (message.new
        ≡ xor_stream (chacha_stream 10 ietf key.now nonce.now) 0 message.old) }
    ensures refused { OnErr result (message.new ≡ message.old) }
{
    ChaCha20::new(key, nonce).try_apply_keystream(message)
}

/// Encrypts a message from block 1 on, so from byte 64 of the keystream (RFC 8439, section 2.4.2). Protocols do so that
/// take block 0 for something else, as AEADs do. `Err` exactly where the message is longer than the 2^38 - 64
/// bytes that are left there; then it is as it was.
pub fn encrypt_from_block_1(
    key: &Key,
    nonce: &Nonce,
    message: &mut [u8],
) -> Result<(), StreamCipherError>
    ensures accepted { IsOk result ↔ (64 + length message.old ≤ 2 ^ 38) }
    ensures bytes { OnOk result (message.new
        ≡ xor_stream (chacha_stream 10 ietf key.now nonce.now) 64 message.old) }
    ensures refused { OnErr result (message.new ≡ message.old) }
{
    let mut cipher = ChaCha20::new(key, nonce);
    cipher.seek(64u32);
    cipher.try_apply_keystream(message)
}

/// As `encrypt`, by any cipher `C`: `C.modulus` is the number of its blocks, `C.blocks_of` the blocks of a
/// key and a nonce. For a named type the prover puts in that type's own numbers, as in the functions below.
pub fn encrypt_by<C: KeyIvInit + StreamCipher + Drop>(
    key: &C::Key,
    nonce: &C::Iv,
    message: &mut [u8],
) -> Result<(), StreamCipherError>
    ensures accepted { IsOk result ↔ (length message.old ≤ limit_of C.modulus) }
    ensures bytes { OnOk result (message.new
        ≡ xor_stream (keystream C.modulus (C.blocks_of key.now nonce.now)) 0 message.old) }
    ensures refused { OnErr result (message.new ≡ message.old) }
{
    C::new(key, nonce).try_apply_keystream(message)
}

/// Three double rounds, so six rounds (this crate). Contracts see the number after `ghost`; the code has
/// the constant.
#[derive(Clone, Copy)]
pub struct R6;

impl Rounds for R6 {
    ghost COUNT = { 3 };

    const COUNT: usize = 3;
}

/// ChaCha with six rounds (this crate).
pub type ChaCha6 = StreamCipherCoreWrapper<ChaChaCore<R6, Ietf, Lanes16>>;
