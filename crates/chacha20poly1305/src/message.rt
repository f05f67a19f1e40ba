//! One cipher for a message: one call makes block 0 and encrypts the message's front, another the rest.

ghost use Rattle.std.specs.Prelude.{◌≡◌, ◌≢◌, ◌↔◌, ◌≤◌, ◌<◌, ◌+◌, ◌%◌, length, take, IsOk, OnOk, IfErr, IsErrOf};
ghost use Rattle.chacha20.specs.ChaCha.{keystream};
ghost use Rattle.chacha20.specs.Cipher.{limit_of};
ghost use Rattle.chacha20poly1305.specs.Aead.{mac_key, encrypted, poly1305_tag};
ghost use Rattle.chacha20poly1305.specs.Front.{HasFront};

use crate::error::Error;
use crate::mac::tag_of;
use chacha20::cipher::StreamCipher;
use poly1305::{Tag, is_equal};

/// The most bytes of a front.
pub const FRONT: usize = 512;

/// The bytes of a message's front: those of block 0, and of all blocks of a short message. Of a longer one, of so many
/// that four or a multiple of eight whole blocks are left, since ciphers make four, eight or sixteen at once.
pub fn front_len(len: usize) -> usize
    ensures whole { result % 64 ≡ 0 }
    ensures bounds { (64 ≤ result) × (result ≤ 512) }
    ensures needed { result < 128 + len }
{
    let blocks = if len <= 448 {
        len.div_ceil(64)
    } else if len < 512 {
        3
    } else {
        len / 64 % 8
    };
    64 + 64 * blocks
}

/// Writes block 0 into `front`, and behind it the front of the text, encrypted. The cipher, which is new, moves behind
/// them. Fails if the text has more bytes than the keystream from block 1 on.
pub fn begin<C: StreamCipher>(cipher: &mut C, text: &[u8], front: &mut [u8]) -> Result<(), Error>
    requires start { C.position cipher.old ≡ 0 }
    requires whole { length front.old % 64 ≡ 0 }
    requires some { 64 ≤ length front.old }
    requires needed { length front.old < 128 + length text.now }
    ensures accepted { IsOk result ↔ (64 + length text.now ≤ limit_of C.modulus) }
    ensures too_long { IfErr result (λ e. e ≡ Error.TooLong) }
    ensures mac_key { let stream = keystream C.modulus (C.block_at (C.fixed cipher.old)) in
        OnOk result (take 32 front.new ≡ mac_key stream) }
    ensures front { let stream = keystream C.modulus (C.block_at (C.fixed cipher.old)) in
        OnOk result (HasFront stream text.now front.new) }
    ensures fixed { OnOk result (C.fixed cipher.new ≡ C.fixed cipher.old) }
    ensures position { OnOk result (C.position cipher.new ≡ length front.old) }
{
    if cipher.check_remaining(64 + text.len()).is_err() {
        return Err(Error::TooLong);
    }
    let (block_0, made) = front.split_at_mut(64);
    block_0.copy_from_slice(&[0; 64]);
    let (place, _) = made.split_at_mut(text.len().min(made.len()));
    place.copy_from_slice(&text[..place.len()]);
    cipher.apply_keystream(front);
    Ok(())
}

/// `begin` of a ciphertext. Also fails if the tag isn't that of `aad` and the ciphertext.
pub fn begin_verified<C: StreamCipher>(
    cipher: &mut C,
    aad: &[u8],
    ciphertext: &[u8],
    tag: &Tag,
    front: &mut [u8],
) -> Result<(), Error>
    requires start { C.position cipher.old ≡ 0 }
    requires whole { length front.old % 64 ≡ 0 }
    requires some { 64 ≤ length front.old }
    requires needed { length front.old < 128 + length ciphertext.now }
    ensures accepted { let stream = keystream C.modulus (C.block_at (C.fixed cipher.old)) in
        IsOk result ↔ ((64 + length ciphertext.now ≤ limit_of C.modulus)
        × (tag.now ≡ poly1305_tag stream aad.now ciphertext.now)) }
    ensures too_long { IsErrOf result Error.TooLong
        ↔ (limit_of C.modulus < 64 + length ciphertext.now) }
    ensures wrong_tag { let stream = keystream C.modulus (C.block_at (C.fixed cipher.old)) in
        IsErrOf result Error.WrongTag ↔ ((64 + length ciphertext.now ≤ limit_of C.modulus)
        × (tag.now ≢ poly1305_tag stream aad.now ciphertext.now)) }
    ensures front { let stream = keystream C.modulus (C.block_at (C.fixed cipher.old)) in
        OnOk result (HasFront stream ciphertext.now front.new) }
    ensures fixed { OnOk result (C.fixed cipher.new ≡ C.fixed cipher.old) }
    ensures position { OnOk result (C.position cipher.new ≡ length front.old) }
{
    begin(cipher, ciphertext, front)?;
    let expected = tag_of(&mac_key(front), aad, ciphertext);
    if !is_equal(&expected, tag) {
        return Err(Error::WrongTag);
    }
    Ok(())
}

/// The MAC's key (RFC 8439, section 2.6): the first half of block 0.
pub fn mac_key(front: &[u8]) -> [u8; 32]
    requires { 32 ≤ length front.now }
    ensures { result ≡ take 32 front.now }
{
    let mut key = [0; 32];
    key.copy_from_slice(&front[..32]);
    key
}

/// Encrypts or decrypts a message in place, whose front is made.
pub fn apply<C: StreamCipher>(cipher: &mut C, front: &[u8], message: &mut [u8])
    requires fits { 64 + length message.old ≤ limit_of C.modulus }
    requires some { 64 ≤ length front.now }
    requires front { HasFront
        (keystream C.modulus (C.block_at (C.fixed cipher.old))) message.old front.now }
    requires position { C.position cipher.old ≡ length front.now }
    ensures { message.new
        ≡ encrypted (keystream C.modulus (C.block_at (C.fixed cipher.old))) message.old }
{
    let (_, made) = front.split_at(64);
    let (first, rest) = message.split_at_mut(message.len().min(made.len()));
    first.copy_from_slice(&made[..first.len()]);
    if !rest.is_empty() {
        cipher.apply_keystream(rest);
    }
}

/// `apply` from an input into an output as long.
pub fn apply_between<C: StreamCipher>(cipher: &mut C, front: &[u8], input: &[u8], output: &mut [u8])
    requires same { length input.now ≡ length output.old }
    requires fits { 64 + length input.now ≤ limit_of C.modulus }
    requires some { 64 ≤ length front.now }
    requires front { HasFront
        (keystream C.modulus (C.block_at (C.fixed cipher.old))) input.now front.now }
    requires position { C.position cipher.old ≡ length front.now }
    ensures { output.new
        ≡ encrypted (keystream C.modulus (C.block_at (C.fixed cipher.old))) input.now }
{
    let (_, made) = front.split_at(64);
    let (first, rest) = input.split_at(input.len().min(made.len()));
    let (place, behind) = output.split_at_mut(first.len());
    place.copy_from_slice(&made[..first.len()]);
    if !rest.is_empty() {
        cipher.apply_keystream_b2b(rest, behind);
    }
}
