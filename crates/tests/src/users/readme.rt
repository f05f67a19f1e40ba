//! The code of README and of the guide that no example has; a type of the guide is in `examples.rt`.

ghost use Rattle.std.specs.Prelude.{◌≡◌, ◌≤◌, ◌^◌, length};

use chacha20::cipher::{KeyIvInit, StreamCipher, StreamCipherError};
use chacha20::{ChaCha20, Key, Nonce};
use examples::message::encrypt;

// A message, encrypted by a new cipher.
fn encrypted(key: &Key, nonce: &Nonce) -> Result<[u8; 14], StreamCipherError> {
    let mut message = *b"attack at dawn";
    let mut cipher = ChaCha20::new(key, nonce);
    cipher.try_apply_keystream(&mut message)?;
    Ok(message)
}

// `encrypt` for callers who prove that the message is not too long.
fn encrypt_short(key: &Key, nonce: &Nonce, message: &mut [u8])
    requires { length message.old ≤ 2 ^ 38 }
{
    ChaCha20::new(key, nonce).apply_keystream(message);
}

// Encrypts a message and decrypts it again. Whether it is accepted or not, it is as before.
fn encrypt_and_decrypt(
    key: &Key,
    nonce: &Nonce,
    message: &mut [u8],
) -> Result<(), StreamCipherError>
    ensures { message.new ≡ message.old }
{
    encrypt(key, nonce, message)?;
    encrypt(key, nonce, message)
}

// XORs the next bytes, where as many are left.
fn apply_next<C: StreamCipher>(cipher: &mut C, message: &mut [u8]) {
    if cipher.check_remaining(message.len()).is_ok() {
        cipher.apply_keystream(message);
    }
}
