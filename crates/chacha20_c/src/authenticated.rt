//! ChaCha20-Poly1305 (RFC 8439, section 2.8), XChaCha20-Poly1305 (draft-irtf-cfrg-xchacha, section 2), and the MAC.

ghost use Rattle.std.specs.Prelude.{◌≡◌, ◌≢◌, ◌↔◌, ◌⊎◌, ◌≤◌, ◌<◌, ◌+◌, ◌++◌, length};
ghost use Rattle.chacha20.specs.ChaCha.{chacha_stream, ietf, modulus};
ghost use Rattle.chacha20.specs.Cipher.{limit_of};
ghost use Rattle.chacha20.specs.XChaCha.{xchacha_stream};
ghost use Rattle.poly1305.specs.Poly1305.{poly1305};
ghost use Rattle.chacha20poly1305.specs.Aead.{poly1305_tag, sealed_message};

use crate::backend::Backend;
use chacha20::{
    ChaChaCore, Ietf, Key, Nonce, R20, StreamCipherCoreWrapper, XNonce, subkey, subnonce,
};
use chacha20poly1305::{ChaChaPoly1305, Error};
use poly1305::{Tag, authenticate, is_equal};

// The AEAD for nonces of 12 bytes.
type Aead = ChaChaPoly1305<StreamCipherCoreWrapper<ChaChaCore<R20, Ietf, Backend>>>;

/// ChaCha20-Poly1305: encrypts `data` in place, and writes the tag of `aad` and the ciphertext.
/// Returns 0. Where the message has more bytes than the stream from block 1 on, it returns 1 and writes nothing.
/// `data` and `tag` overlap no other argument.
#[unsafe(no_mangle)]
pub extern "C" fn chacha20_aead_encrypt_in_place(
    key: &Key,
    nonce: &Nonce,
    aad: &[u8],
    data: &mut [u8],
    tag: &mut Tag,
) -> u32
    ensures accepted { result ≡ 0 ↔ (64 + length «data».old ≤ limit_of (modulus ietf)) }
    ensures sealed { result ≡ 0 → «data».new ++ tag.new
        ≡ sealed_message (chacha_stream 10 ietf key.now nonce.now) aad.now «data».old }
    ensures refused { result ≢ 0
        → (result ≡ 1) × («data».new ≡ «data».old) × (tag.new ≡ tag.old) }
{
    match Aead::new(key).encrypt_in_place_detached(nonce, aad, data) {
        Ok(made) => {
            *tag = made;
            0
        }
        Err(_) => 1,
    }
}

/// `chacha20_aead_encrypt_in_place` from `input` to `output`, which overlaps no other argument.
/// Where the lengths differ, it returns 1 and writes nothing.
#[unsafe(no_mangle)]
pub extern "C" fn chacha20_aead_encrypt_between(
    key: &Key,
    nonce: &Nonce,
    aad: &[u8],
    output: &mut [u8],
    input: &[u8],
    tag: &mut Tag,
) -> u32
    ensures accepted { result ≡ 0 ↔ ((length input.now ≡ length output.old)
        × (64 + length input.now ≤ limit_of (modulus ietf))) }
    ensures sealed { result ≡ 0 → output.new ++ tag.new
        ≡ sealed_message (chacha_stream 10 ietf key.now nonce.now) aad.now input.now }
    ensures refused { result ≢ 0
        → (result ≡ 1) × (output.new ≡ output.old) × (tag.new ≡ tag.old) }
{
    if output.len() != input.len() {
        return 1;
    }
    match Aead::new(key).encrypt_detached(nonce, aad, input, output) {
        Ok(made) => {
            *tag = made;
            0
        }
        Err(_) => 1,
    }
}

/// ChaCha20-Poly1305: decrypts `data` in place, after it has checked that `tag` is that of `aad` and `data`.
/// Returns 0. Where the message has more bytes than the stream from block 1 on, it returns 1, and where the tag is
/// wrong, 2; then it writes nothing. `data` overlaps no other argument.
#[unsafe(no_mangle)]
pub extern "C" fn chacha20_aead_decrypt_in_place(
    key: &Key,
    nonce: &Nonce,
    aad: &[u8],
    data: &mut [u8],
    tag: &Tag,
) -> u32
    ensures accepted { let stream = chacha_stream 10 ietf key.now nonce.now in
        result ≡ 0 ↔ ((64 + length «data».old ≤ limit_of (modulus ietf))
        × (tag.now ≡ poly1305_tag stream aad.now «data».old)) }
    ensures refused { result ≡ 1 ↔ (limit_of (modulus ietf) < 64 + length «data».old) }
    ensures wrong { let stream = chacha_stream 10 ietf key.now nonce.now in
        result ≡ 2 ↔ ((64 + length «data».old ≤ limit_of (modulus ietf))
        × (tag.now ≢ poly1305_tag stream aad.now «data».old)) }
    ensures opened { result ≡ 0 → «data».old ++ tag.now
        ≡ sealed_message (chacha_stream 10 ietf key.now nonce.now) aad.now «data».new }
    ensures kept { result ≢ 0 → «data».new ≡ «data».old }
{
    match Aead::new(key).decrypt_in_place_detached(nonce, aad, data, tag) {
        Ok(()) => 0,
        Err(Error::TooLong) => 1,
        Err(Error::WrongTag) => 2,
    }
}

/// `chacha20_aead_decrypt_in_place` from `input` to `output`, which overlaps no other argument.
/// Where the lengths differ, it returns 1 and writes nothing.
#[unsafe(no_mangle)]
pub extern "C" fn chacha20_aead_decrypt_between(
    key: &Key,
    nonce: &Nonce,
    aad: &[u8],
    output: &mut [u8],
    input: &[u8],
    tag: &Tag,
) -> u32
    ensures accepted { let stream = chacha_stream 10 ietf key.now nonce.now in
        result ≡ 0 ↔ ((length input.now ≡ length output.old)
        × (64 + length input.now ≤ limit_of (modulus ietf))
        × (tag.now ≡ poly1305_tag stream aad.now input.now)) }
    ensures refused { result ≡ 1 ↔ ((length input.now ≢ length output.old)
        ⊎ (limit_of (modulus ietf) < 64 + length input.now)) }
    ensures wrong { let stream = chacha_stream 10 ietf key.now nonce.now in
        result ≡ 2 ↔ ((length input.now ≡ length output.old)
        × (64 + length input.now ≤ limit_of (modulus ietf))
        × (tag.now ≢ poly1305_tag stream aad.now input.now)) }
    ensures opened { result ≡ 0 → input.now ++ tag.now
        ≡ sealed_message (chacha_stream 10 ietf key.now nonce.now) aad.now output.new }
    ensures kept { result ≢ 0 → output.new ≡ output.old }
{
    if output.len() != input.len() {
        return 1;
    }
    match Aead::new(key).decrypt_detached(nonce, aad, input, output, tag) {
        Ok(()) => 0,
        Err(Error::TooLong) => 1,
        Err(Error::WrongTag) => 2,
    }
}

/// XChaCha20-Poly1305: `chacha20_aead_encrypt_in_place` with a nonce of 24 bytes.
#[unsafe(no_mangle)]
pub extern "C" fn xchacha20_aead_encrypt_in_place(
    key: &Key,
    nonce: &XNonce,
    aad: &[u8],
    data: &mut [u8],
    tag: &mut Tag,
) -> u32
    ensures accepted { result ≡ 0 ↔ (64 + length «data».old ≤ limit_of (modulus ietf)) }
    ensures sealed { result ≡ 0 → «data».new ++ tag.new
        ≡ sealed_message (xchacha_stream 10 key.now nonce.now) aad.now «data».old }
    ensures refused { result ≢ 0
        → (result ≡ 1) × («data».new ≡ «data».old) × (tag.new ≡ tag.old) }
{
    chacha20_aead_encrypt_in_place(&subkey::<R20>(key, nonce), &subnonce(nonce), aad, data, tag)
}

/// XChaCha20-Poly1305: `chacha20_aead_encrypt_between` with a nonce of 24 bytes.
#[unsafe(no_mangle)]
pub extern "C" fn xchacha20_aead_encrypt_between(
    key: &Key,
    nonce: &XNonce,
    aad: &[u8],
    output: &mut [u8],
    input: &[u8],
    tag: &mut Tag,
) -> u32
    ensures accepted { result ≡ 0 ↔ ((length input.now ≡ length output.old)
        × (64 + length input.now ≤ limit_of (modulus ietf))) }
    ensures sealed { result ≡ 0 → output.new ++ tag.new
        ≡ sealed_message (xchacha_stream 10 key.now nonce.now) aad.now input.now }
    ensures refused { result ≢ 0
        → (result ≡ 1) × (output.new ≡ output.old) × (tag.new ≡ tag.old) }
{
    chacha20_aead_encrypt_between(
        &subkey::<R20>(key, nonce),
        &subnonce(nonce),
        aad,
        output,
        input,
        tag,
    )
}

/// XChaCha20-Poly1305: `chacha20_aead_decrypt_in_place` with a nonce of 24 bytes.
#[unsafe(no_mangle)]
pub extern "C" fn xchacha20_aead_decrypt_in_place(
    key: &Key,
    nonce: &XNonce,
    aad: &[u8],
    data: &mut [u8],
    tag: &Tag,
) -> u32
    ensures accepted { let stream = xchacha_stream 10 key.now nonce.now in
        result ≡ 0 ↔ ((64 + length «data».old ≤ limit_of (modulus ietf))
        × (tag.now ≡ poly1305_tag stream aad.now «data».old)) }
    ensures refused { result ≡ 1 ↔ (limit_of (modulus ietf) < 64 + length «data».old) }
    ensures wrong { let stream = xchacha_stream 10 key.now nonce.now in
        result ≡ 2 ↔ ((64 + length «data».old ≤ limit_of (modulus ietf))
        × (tag.now ≢ poly1305_tag stream aad.now «data».old)) }
    ensures opened { result ≡ 0 → «data».old ++ tag.now
        ≡ sealed_message (xchacha_stream 10 key.now nonce.now) aad.now «data».new }
    ensures kept { result ≢ 0 → «data».new ≡ «data».old }
{
    chacha20_aead_decrypt_in_place(&subkey::<R20>(key, nonce), &subnonce(nonce), aad, data, tag)
}

/// XChaCha20-Poly1305: `chacha20_aead_decrypt_between` with a nonce of 24 bytes.
#[unsafe(no_mangle)]
pub extern "C" fn xchacha20_aead_decrypt_between(
    key: &Key,
    nonce: &XNonce,
    aad: &[u8],
    output: &mut [u8],
    input: &[u8],
    tag: &Tag,
) -> u32
    ensures accepted { let stream = xchacha_stream 10 key.now nonce.now in
        result ≡ 0 ↔ ((length input.now ≡ length output.old)
        × (64 + length input.now ≤ limit_of (modulus ietf))
        × (tag.now ≡ poly1305_tag stream aad.now input.now)) }
    ensures refused { result ≡ 1 ↔ ((length input.now ≢ length output.old)
        ⊎ (limit_of (modulus ietf) < 64 + length input.now)) }
    ensures wrong { let stream = xchacha_stream 10 key.now nonce.now in
        result ≡ 2 ↔ ((length input.now ≡ length output.old)
        × (64 + length input.now ≤ limit_of (modulus ietf))
        × (tag.now ≢ poly1305_tag stream aad.now input.now)) }
    ensures opened { result ≡ 0 → input.now ++ tag.now
        ≡ sealed_message (xchacha_stream 10 key.now nonce.now) aad.now output.new }
    ensures kept { result ≢ 0 → output.new ≡ output.old }
{
    chacha20_aead_decrypt_between(
        &subkey::<R20>(key, nonce),
        &subnonce(nonce),
        aad,
        output,
        input,
        tag,
    )
}

/// Poly1305 (RFC 8439, section 2.5): writes the tag of `input` under a key for one message. `tag` overlaps no other
/// argument.
#[unsafe(no_mangle)]
pub extern "C" fn chacha20_onetime_poly1305(key: &Key, input: &[u8], tag: &mut Tag)
    ensures { tag.new ≡ poly1305 key.now input.now }
{
    *tag = authenticate(key, input);
}

/// Compares bytes: returns 0 where they are the same, and else 2. It reads all of them, wherever they differ, unless
/// the lengths do.
#[unsafe(no_mangle)]
pub extern "C" fn chacha20_verify(one: &[u8], other: &[u8]) -> u32
    ensures accepted { result ≡ 0 ↔ (one.now ≡ other.now) }
    ensures wrong { result ≡ 2 ↔ (one.now ≢ other.now) }
{
    if is_equal(one, other) { 0 } else { 2 }
}
