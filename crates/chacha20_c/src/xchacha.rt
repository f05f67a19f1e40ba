//! HChaCha, and ChaCha with a nonce of 24 bytes (draft-irtf-cfrg-xchacha).

ghost use Rattle.std.specs.Prelude.{◌≡◌};
ghost use Rattle.chacha20.specs.ChaCha.{block, keystream, ietf, modulus};
ghost use Rattle.chacha20.specs.Cipher.{limit_of};
ghost use Rattle.chacha20.specs.XChaCha.{hchacha, subkey, subnonce};
ghost use Rattle.chacha20_c.specs.Results.{Written, Xored, XoredInto};

use crate::chacha::{chacha20_keystream, chacha20_xor_between, chacha20_xor_in_place};
use chacha20::{Key, R20, XNonce, hchacha, subkey, subnonce};

/// XChaCha20 (draft-irtf-cfrg-xchacha, section 2.3):
/// XORs `data` in place with the keystream from byte `position` on.
/// Returns 0. Where the bytes would pass the end of the stream, it returns 1 and writes nothing.
/// `data` overlaps no other argument.
#[unsafe(no_mangle)]
pub extern "C" fn xchacha20_xor_in_place(
    key: &Key,
    nonce: &XNonce,
    position: u64,
    data: &mut [u8],
) -> u32
    ensures { Xored (limit_of (modulus ietf)) (keystream (modulus ietf)
        (block 10 ietf (subkey 10 key.now nonce.now) (subnonce nonce.now)))
        position result «data».old «data».new }
{
    chacha20_xor_in_place(&subkey::<R20>(key, nonce), &subnonce(nonce), position, data)
}

/// `xchacha20_xor_in_place` from `input` to `output`, which overlaps no other argument.
/// Returns 0. Where the lengths differ or the bytes would pass the end of the stream, it returns 1 and writes nothing.
#[unsafe(no_mangle)]
pub extern "C" fn xchacha20_xor_between(
    key: &Key,
    nonce: &XNonce,
    position: u64,
    output: &mut [u8],
    input: &[u8],
) -> u32
    ensures { XoredInto (limit_of (modulus ietf)) (keystream (modulus ietf)
        (block 10 ietf (subkey 10 key.now nonce.now) (subnonce nonce.now)))
        position result input.now output.old output.new }
{
    chacha20_xor_between(
        &subkey::<R20>(key, nonce),
        &subnonce(nonce),
        position,
        output,
        input,
    )
}

/// The keystream of `xchacha20_xor_in_place`: writes its bytes over `output`.
/// Returns 0. Where the bytes would pass the end of the stream, it returns 1 and writes nothing.
/// `output` overlaps no other argument.
#[unsafe(no_mangle)]
pub extern "C" fn xchacha20_keystream(
    key: &Key,
    nonce: &XNonce,
    position: u64,
    output: &mut [u8],
) -> u32
    ensures { Written (limit_of (modulus ietf)) (keystream (modulus ietf)
        (block 10 ietf (subkey 10 key.now nonce.now) (subnonce nonce.now)))
        position result output.old output.new }
{
    chacha20_keystream(
        &subkey::<R20>(key, nonce),
        &subnonce(nonce),
        position,
        output,
    )
}

/// HChaCha20 (draft-irtf-cfrg-xchacha, section 2.2): writes the 32 bytes that it makes of a key and of 16 bytes more.
/// It refuses nothing. `subkey` overlaps no other argument.
#[unsafe(no_mangle)]
pub extern "C" fn hchacha20(key: &Key, input: &[u8; 16], subkey: &mut Key)
    ensures { subkey.new ≡ hchacha 10 key.now input.now }
{
    *subkey = hchacha::<R20>(key, input);
}
