//! Seals a message under a random key and nonce, opens it, and refuses a forged one.
#![tactic(auto)]

ghost use Rattle.std.specs.Prelude.{◌≡◌, ◌+◌, ◌≤◌, ◌↔◌, ◌^◌, ℕ, List, [], length, take, drop, IsOk, OnOk, OnErr};
ghost use Rattle.chacha20poly1305.specs.XChaCha.{xchacha_stream};
ghost use Rattle.chacha20poly1305.specs.Aead.{sealed_message, poly1305_tag};

use chacha20poly1305::{Error, XChaCha20Poly1305, XNonce};
use std::{io, str};

fn main(rt: HostRuntime) -> io::Result<()> {
    let key = XChaCha20Poly1305::generate_key(&rt)?;
    let nonce = XChaCha20Poly1305::generate_nonce(&rt)?;
    let cipher = XChaCha20Poly1305::new(&key);

    let mut sealed = [0; 14 + 16];
    seal(&cipher, &nonce, b"attack at dawn", &mut sealed).unwrap();

    let mut text = [0; 14];
    let opened = open(&cipher, &nonce, &sealed, &mut text);
    println!(rt; "{opened:?}: {:?}", str::from_utf8(&text))?;

    sealed[0] ^= 1;
    let forged = open(&cipher, &nonce, &sealed, &mut text);
    println!(rt; "{forged:?}")
}

// Writes the ciphertext, followed by a tag of 16 bytes (draft-irtf-cfrg-xchacha, section 2).
fn seal(
    cipher: &XChaCha20Poly1305,
    nonce: &XNonce,
    text: &[u8],
    sealed: &mut [u8],
) -> Result<(), Error>
    requires { length sealed.old ≡ length text.now + 16 }
    ensures accepted { IsOk result ↔ (64 + length text.now ≤ 2 ^ 38) }
    ensures sealed { OnOk result (sealed.new
        ≡ sealed_message (xchacha_stream 10 cipher.now nonce.now) [] text.now) }
    ensures refused { OnErr result (sealed.new ≡ sealed.old) }
{
    cipher.encrypt(nonce, b"", text, sealed)
}

// Writes the text of what `seal` wrote. A wrong tag is refused.
fn open(
    cipher: &XChaCha20Poly1305,
    nonce: &XNonce,
    sealed: &[u8],
    text: &mut [u8],
) -> Result<(), Error>
    requires { length sealed.now ≡ length text.old + 16 }
    ensures opens { (plaintext : List ℕ)
        → sealed.now ≡ sealed_message (xchacha_stream 10 cipher.now nonce.now) [] plaintext
        → IsOk result ↔ (64 + length plaintext ≤ 2 ^ 38) }
    ensures text { (plaintext : List ℕ)
        → sealed.now ≡ sealed_message (xchacha_stream 10 cipher.now nonce.now) [] plaintext
        → OnOk result (text.new ≡ plaintext) }
    ensures right_tag { let n = length text.old in IsOk result → drop n sealed.now
        ≡ poly1305_tag (xchacha_stream 10 cipher.now nonce.now) [] (take n sealed.now) }
    ensures refused { OnErr result (text.new ≡ text.old) }
{
    cipher.decrypt(nonce, b"", sealed, text)
}
