//! ChaCha with a nonce of 12 bytes (RFC 8439).

ghost use Rattle.chacha20.specs.ChaCha.{block, keystream, ietf, modulus};
ghost use Rattle.chacha20.specs.Cipher.{limit_of};
ghost use Rattle.chacha20_c.specs.Results.{Checked, Written, Xored, XoredInto};

use crate::backend::Backend;
use crate::stateless;
use chacha20::{ChaChaCore, Ietf, Key, Nonce, R20};

// Where the streams of 2^32 blocks end.
const LIMIT: u128 = 64 << 32;

// The core of `ChaCha20`.
type Core = ChaChaCore<R20, Ietf, Backend>;

/// ChaCha20 (RFC 8439, section 2.4):
/// XORs `data` in place with the keystream from byte `position` on.
/// Returns 0. Where the bytes would pass the end of the stream, it returns 1 and writes nothing.
/// `data` overlaps no other argument.
#[unsafe(no_mangle)]
pub extern "C" fn chacha20_xor_in_place(
    key: &Key,
    nonce: &Nonce,
    position: u64,
    data: &mut [u8],
) -> u32
    ensures { Xored (limit_of (modulus ietf)) (keystream (modulus ietf)
        (block 10 ietf key.now nonce.now)) position result «data».old «data».new }
{
    stateless::xor_in_place::<Core>(key, nonce, u128::from(position), data)
}

/// `chacha20_xor_in_place` from `input` to `output`, which overlaps no other argument.
/// Returns 0. Where the lengths differ or the bytes would pass the end of the stream, it returns 1 and writes nothing.
#[unsafe(no_mangle)]
pub extern "C" fn chacha20_xor_between(
    key: &Key,
    nonce: &Nonce,
    position: u64,
    output: &mut [u8],
    input: &[u8],
) -> u32
    ensures { XoredInto (limit_of (modulus ietf)) (keystream (modulus ietf)
        (block 10 ietf key.now nonce.now)) position result input.now output.old output.new }
{
    stateless::xor_between::<Core>(key, nonce, u128::from(position), output, input)
}

/// The keystream of `chacha20_xor_in_place`: writes its bytes over `output`.
/// Returns 0. Where the bytes would pass the end of the stream, it returns 1 and writes nothing.
/// `output` overlaps no other argument.
#[unsafe(no_mangle)]
pub extern "C" fn chacha20_keystream(
    key: &Key,
    nonce: &Nonce,
    position: u64,
    output: &mut [u8],
) -> u32
    ensures { Written (limit_of (modulus ietf)) (keystream (modulus ietf)
        (block 10 ietf key.now nonce.now)) position result output.old output.new }
{
    stateless::write_keystream::<Core>(key, nonce, u128::from(position), output)
}

/// Whether the ciphers with a nonce of 12 or of 24 bytes take `len` bytes from byte `position` on (this crate).
/// Returns 0, or 1 where the bytes would pass the end of the stream.
#[unsafe(no_mangle)]
pub extern "C" fn chacha20_check(position: u64, len: usize) -> u32
    ensures { Checked (limit_of (modulus ietf)) position len result }
{
    stateless::check(u128::from(position), len, LIMIT)
}
