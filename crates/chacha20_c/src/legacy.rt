//! ChaCha20 from before RFC 8439, with a nonce of 8 bytes and a counter of 64 bits. A position in its stream is the
//! number of a block and a number of bytes from there on, since one number of 64 bits does not reach the end.

ghost use Rattle.std.specs.Prelude.{◌≡◌, ◌+◌, ◌*◌};
ghost use Rattle.chacha20.specs.ChaCha.{block, keystream, legacy, modulus};
ghost use Rattle.chacha20.specs.Cipher.{limit_of};
ghost use Rattle.chacha20_c.specs.Results.{Checked, Written, Xored, XoredInto};

use crate::backend::Backend;
use crate::stateless;
use chacha20::{ChaChaCore, Key, Legacy, LegacyNonce, R20};

// The core of `ChaCha20Legacy`.
pub(crate) type Core = ChaChaCore<R20, Legacy, Backend>;

// Where the stream of 2^64 blocks ends.
const LIMIT: u128 = 64 << 64;

/// ChaCha20 as it was before RFC 8439:
/// XORs `data` in place with the keystream from byte 64 * `block_pos` + `offset` on, a sum that does not wrap.
/// Returns 0. Where the bytes would pass the end of the stream, it returns 1 and writes nothing.
/// `data` overlaps no other argument.
#[unsafe(no_mangle)]
pub extern "C" fn chacha20_legacy_xor_in_place(
    key: &Key,
    nonce: &LegacyNonce,
    block_pos: u64,
    offset: u64,
    data: &mut [u8],
) -> u32
    ensures { Xored (limit_of (modulus legacy)) (keystream (modulus legacy)
        (block 10 legacy key.now nonce.now))
        (64 * block_pos + offset) result «data».old «data».new }
{
    stateless::xor_in_place::<Core>(key, nonce, position(block_pos, offset), data)
}

/// `chacha20_legacy_xor_in_place` from `input` to `output`, which overlaps no other argument.
/// Returns 0. Where the lengths differ or the bytes would pass the end of the stream, it returns 1 and writes nothing.
#[unsafe(no_mangle)]
pub extern "C" fn chacha20_legacy_xor_between(
    key: &Key,
    nonce: &LegacyNonce,
    block_pos: u64,
    offset: u64,
    output: &mut [u8],
    input: &[u8],
) -> u32
    ensures { XoredInto (limit_of (modulus legacy)) (keystream (modulus legacy)
        (block 10 legacy key.now nonce.now))
        (64 * block_pos + offset) result input.now output.old output.new }
{
    stateless::xor_between::<Core>(key, nonce, position(block_pos, offset), output, input)
}

/// The keystream of `chacha20_legacy_xor_in_place`: writes its bytes over `output`.
/// Returns 0. Where the bytes would pass the end of the stream, it returns 1 and writes nothing.
/// `output` overlaps no other argument.
#[unsafe(no_mangle)]
pub extern "C" fn chacha20_legacy_keystream(
    key: &Key,
    nonce: &LegacyNonce,
    block_pos: u64,
    offset: u64,
    output: &mut [u8],
) -> u32
    ensures { Written (limit_of (modulus legacy)) (keystream (modulus legacy)
        (block 10 legacy key.now nonce.now))
        (64 * block_pos + offset) result output.old output.new }
{
    stateless::write_keystream::<Core>(key, nonce, position(block_pos, offset), output)
}

/// Whether the legacy cipher takes `len` bytes from byte 64 * `block_pos` + `offset` on. That sum does not
/// wrap. Returns 0, or 1 where the bytes would pass the end of the stream.
#[unsafe(no_mangle)]
pub extern "C" fn chacha20_legacy_check(block_pos: u64, offset: u64, len: usize) -> u32
    ensures { Checked (limit_of (modulus legacy)) (64 * block_pos + offset) len result }
{
    stateless::check(position(block_pos, offset), len, LIMIT)
}

// The position of the byte `offset` bytes past the front of block `block_pos`.
fn position(block_pos: u64, offset: u64) -> u128
    ensures { result ≡ 64 * block_pos + offset }
{
    64 * u128::from(block_pos) + u128::from(offset)
}
