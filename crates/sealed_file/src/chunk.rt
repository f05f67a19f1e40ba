//! The parts of a sealed file.

ghost use Rattle.std.specs.Prelude.{◌≡◌, ◌<◌, ◌≤◌, ◌-◌, ◌^◌, ◌↔◌, ℕ, List, Bool, length, take, drop, IsTrue, IsFalse, Some, IsOk, IfOk, IfErr, bytes_eq};
ghost use Rattle.sealed_file.specs.Sealed.{header, header_damage, chunk_nonce, chunk, HasSalt, IsNoChunk};

use crate::error::Damage;
use chacha20::{Key, XNonce};
use chacha20poly1305::XChaCha20Poly1305;

/// 19 random bytes, which no other file under the key may have.
pub type Salt = [u8; 19];

/// The bytes of text in a chunk, but for the last.
pub const CHUNK: usize = 65536;

/// The bytes of a tag.
pub const TAG: usize = 16;

/// The most chunks that a file may have.
pub const CHUNKS: u64 = 1 << 32;

/// The bytes that a sealed file begins with, of which the last is its version.
pub const MAGIC: [u8; 13] = *b"chacha20seal1";

/// The header of a file.
pub fn header(salt: &Salt) -> [u8; 32]
    ensures { result ≡ header salt.now }
{
    let mut header = [0; 32];
    header[..13].copy_from_slice(&MAGIC);
    header[13..].copy_from_slice(salt);
    header
}

/// The salt of a file, from its header. Fails for a file that doesn't begin with a header.
pub fn salt_of(file: &[u8]) -> Result<Salt, Damage>
    ensures accepted { IsOk result ↔ ((salt : List ℕ) × HasSalt file.now salt) }
    ensures salt { IfOk result (λ salt. HasSalt file.now salt) }
    ensures damage { IfErr result (λ e. header_damage file.now ≡ Some e) }
{
    if !begins_with(file, &MAGIC[..12]) {
        return Err(Damage::NotSealed);
    }
    if file.len() < 32 {
        return Err(Damage::CutHeader);
    }
    if !begins_with(file, &MAGIC) {
        return Err(Damage::OtherVersion);
    }
    let mut salt = [0; 19];
    salt.copy_from_slice(&file[13..32]);
    Ok(salt)
}

fn begins_with(file: &[u8], word: &[u8]) -> bool
    ensures value { result ≡ bytes_eq word.now (take (length word.now) file.now) }
    ensures decides { IsTrue result ↔ (take (length word.now) file.now ≡ word.now) }
{
    file.starts_with(word)
}

/// The nonce of a chunk. No other chunk and no other salt has it.
pub fn chunk_nonce(salt: &Salt, number: u64, last: bool) -> XNonce
    requires { number < 2 ^ 32 }
    ensures value { result ≡ chunk_nonce salt.now number last }
    ensures distinct { (other : List ℕ) (i : ℕ) (is_last : Bool) → length other ≡ 19 → i < 2 ^ 32
        → chunk_nonce other i is_last ≡ result
        → (other ≡ salt.now) × (i ≡ number) × (is_last ≡ last) }
{
    let mut end = [last as u8; 5];
    end[..4].copy_from_slice(&(number as u32).to_be_bytes());
    let mut nonce = [0; 24];
    nonce[..19].copy_from_slice(salt);
    nonce[19..].copy_from_slice(&end);
    nonce
}

/// Makes a chunk in place: `bytes` has its text and, behind it, room for the tag.
pub fn seal_chunk(key: &Key, salt: &Salt, number: u64, last: bool, bytes: &mut [u8])
    requires number { number < 2 ^ 32 }
    requires size { (16 ≤ length bytes.old) × (length bytes.old ≤ 65552) }
    ensures { bytes.new
        ≡ chunk key.now salt.now number last (take (length bytes.old - 16) bytes.old) }
{
    let nonce = chunk_nonce(salt, number, last);
    let cipher = XChaCha20Poly1305::new(key);
    let (text, place) = bytes.split_at_mut(bytes.len() - TAG);
    let tag = cipher.encrypt_in_place_detached(&nonce, &[], text).unwrap();
    place.copy_from_slice(&tag);
}

/// Decrypts a chunk in place and returns true if its tag is right; the text is then all but the last 16 bytes, which
/// stay the tag. Otherwise, and for an empty text after chunk 0, returns false and changes nothing.
pub fn open_chunk(key: &Key, salt: &Salt, number: u64, last: bool, bytes: &mut [u8]) -> bool
    requires number { number < 2 ^ 32 }
    requires size { length bytes.old ≤ 65552 }
    ensures right { IsTrue result → bytes.old
        ≡ chunk key.now salt.now number last (take (length bytes.old - 16) bytes.new) }
    ensures long { IsTrue result → (16 ≤ length bytes.old) × (0 < number → 16 < length bytes.old) }
    ensures wrong { IsFalse result → IsNoChunk key.now salt.now number last bytes.old }
    ensures refused { IsFalse result → bytes.new ≡ bytes.old }
    ensures tag { let end = length bytes.old - 16 in drop end bytes.new ≡ drop end bytes.old }
{
    let least = if number == 0 { TAG } else { TAG + 1 };
    if bytes.len() < least {
        return false;
    }
    let end = bytes.len() - TAG;
    let mut tag = [0; 16];
    tag.copy_from_slice(&bytes[end..]);
    let nonce = chunk_nonce(salt, number, last);
    let cipher = XChaCha20Poly1305::new(key);
    cipher
        .decrypt_in_place_detached(&nonce, &[], &mut bytes[..end], &tag)
        .is_ok()
}
