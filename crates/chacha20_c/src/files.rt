//! Sealed files (`sealed_file`), without I/O: the header, and chunks of 64 KiB of text by their numbers.

ghost use Rattle.std.specs.Prelude.{◌≡◌, ◌≢◌, ◌↔◌, ◌≤◌, ◌+◌, ◌-◌, ℕ, List, Some, length, take, drop, IsTrue};
ghost use Rattle.sealed_file.specs.declared.error.Damage.{Damage};
ghost use Rattle.sealed_file.specs.Sealed.{header, header_damage, chunk, text_of, HasSalt};
ghost use Rattle.chacha20_c.specs.Files.{status_of, IsTextLength, IsChunk};

use crate::authenticated::{
    xchacha20_aead_decrypt_between, xchacha20_aead_decrypt_in_place,
    xchacha20_aead_encrypt_between, xchacha20_aead_encrypt_in_place,
};
use chacha20::Key;
use sealed_file::chunk::{chunk_nonce, header, salt_of};
use sealed_file::{CHUNK, Damage, Salt, TAG, text_len};

/// Writes the header of a file with this salt. No other file under the key has the salt. `output` overlaps no other
/// argument.
#[unsafe(no_mangle)]
pub extern "C" fn chacha20_file_header(salt: &Salt, output: &mut [u8; 32])
    ensures { output.new ≡ header salt.now }
{
    *output = header(salt);
}

/// Writes the salt of a file, from its first 32 bytes; more may follow. Returns 0. Where they aren't a header, it
/// returns 3 for one of another version, 4 for a file that ends in its header, and else 5, and writes nothing. `salt`
/// overlaps no other argument.
#[unsafe(no_mangle)]
pub extern "C" fn chacha20_file_salt(input: &[u8], salt: &mut Salt) -> u32
    ensures accepted { result ≡ 0 ↔ ((salt : List ℕ) × HasSalt (take 32 input.now) salt) }
    ensures salt { result ≡ 0 → HasSalt (take 32 input.now) salt.new }
    ensures damage { result ≢ 0 → (damage : Damage)
        × (header_damage (take 32 input.now) ≡ Some damage) × (result ≡ status_of damage) }
    ensures kept { result ≢ 0 → salt.new ≡ salt.old }
{
    match salt_of(front(input)) {
        Ok(read) => {
            *salt = read;
            0
        }
        Err(damage) => status_of(damage),
    }
}

// The first 32 bytes.
fn front(input: &[u8]) -> &[u8]
    ensures { result.now ≡ take 32 input.now }
{
    &input[..input.len().min(32)]
}

fn status_of(damage: Damage) -> u32
    ensures status { result ≡ status_of damage }
    ensures some { result ≢ 0 }
{
    match damage {
        Damage::NotSealed => 5,
        Damage::OtherVersion => 3,
        Damage::CutHeader => 4,
        _ => 1,
    }
}

/// How many bytes of text a file of so many bytes has, if it is one.
#[unsafe(no_mangle)]
pub extern "C" fn chacha20_file_text_len(file_len: u64) -> u64
    ensures { result ≡ text_of file_len }
{
    text_len(file_len)
}

/// Makes a chunk in place: `data` has its text and, behind it, room for the tag. Returns 0. Where the chunk may not
/// have so many bytes of text, it returns 1 and writes nothing. `data` overlaps no other argument.
#[unsafe(no_mangle)]
pub extern "C" fn chacha20_file_seal_chunk_in_place(
    key: &Key,
    salt: &Salt,
    number: u32,
    last: bool,
    data: &mut [u8],
) -> u32
    ensures accepted { result ≡ 0 ↔ ((16 ≤ length «data».old)
        × IsTextLength number last (length «data».old - 16)) }
    ensures sealed { result ≡ 0 → «data».new
        ≡ chunk key.now salt.now number last (take (length «data».old - 16) «data».old) }
    ensures refused { result ≢ 0 → (result ≡ 1) × («data».new ≡ «data».old) }
{
    if data.len() < TAG || !is_text_length(number, last, data.len() - TAG) {
        return 1;
    }
    let (text, place) = data.split_at_mut(data.len() - TAG);
    let nonce = chunk_nonce(salt, u64::from(number), last);
    let mut tag = [0; 16];
    let answer = xchacha20_aead_encrypt_in_place(key, &nonce, &[], text, &mut tag);
    place.copy_from_slice(&tag);
    answer
}

/// `chacha20_file_seal_chunk_in_place` of the text `input`, into `output`, which overlaps no other argument. Where that
/// hasn't 16 bytes more, it returns 1 and writes nothing.
#[unsafe(no_mangle)]
pub extern "C" fn chacha20_file_seal_chunk_between(
    key: &Key,
    salt: &Salt,
    number: u32,
    last: bool,
    output: &mut [u8],
    input: &[u8],
) -> u32
    ensures accepted { result ≡ 0 ↔ ((length output.old ≡ length input.now + 16)
        × IsTextLength number last (length input.now)) }
    ensures sealed { result ≡ 0
        → output.new ≡ chunk key.now salt.now number last input.now }
    ensures refused { result ≢ 0 → (result ≡ 1) × (output.new ≡ output.old) }
{
    if !is_text_length(number, last, input.len()) || output.len() != input.len() + TAG {
        return 1;
    }
    let (text, place) = output.split_at_mut(input.len());
    let nonce = chunk_nonce(salt, u64::from(number), last);
    let mut tag = [0; 16];
    let answer = xchacha20_aead_encrypt_between(key, &nonce, &[], text, input, &mut tag);
    place.copy_from_slice(&tag);
    answer
}

/// Decrypts a chunk in place; its text is then all but the last 16 bytes, which stay the tag. Returns 0. Where the
/// chunk may not have so many bytes of text, it returns 1, and where they aren't that chunk of any text, 2; then it
/// writes nothing. `data` overlaps no other argument.
#[unsafe(no_mangle)]
pub extern "C" fn chacha20_file_open_chunk_in_place(
    key: &Key,
    salt: &Salt,
    number: u32,
    last: bool,
    data: &mut [u8],
) -> u32
    ensures accepted { result ≡ 0 ↔ ((16 ≤ length «data».old)
        × IsTextLength number last (length «data».old - 16)
        × IsChunk key.now salt.now number last «data».old) }
    ensures refused { result ≡ 1 ↔ ¬ ((16 ≤ length «data».old)
        × IsTextLength number last (length «data».old - 16)) }
    ensures wrong { result ≡ 2 ↔ ((16 ≤ length «data».old)
        × IsTextLength number last (length «data».old - 16)
        × ¬ IsChunk key.now salt.now number last «data».old) }
    ensures opened { result ≡ 0 → «data».old
        ≡ chunk key.now salt.now number last (take (length «data».old - 16) «data».new) }
    ensures tag { let end = length «data».old - 16 in
        drop end «data».new ≡ drop end «data».old }
    ensures kept { result ≢ 0 → «data».new ≡ «data».old }
{
    if data.len() < TAG || !is_text_length(number, last, data.len() - TAG) {
        return 1;
    }
    let (text, place) = data.split_at_mut(data.len() - TAG);
    let nonce = chunk_nonce(salt, u64::from(number), last);
    let mut tag = [0; 16];
    tag.copy_from_slice(place);
    xchacha20_aead_decrypt_in_place(key, &nonce, &[], text, &tag)
}

/// `chacha20_file_open_chunk_in_place` of the chunk `input`, into `output`, which overlaps no other argument. Where
/// that hasn't 16 bytes less, it returns 1 and writes nothing.
#[unsafe(no_mangle)]
pub extern "C" fn chacha20_file_open_chunk_between(
    key: &Key,
    salt: &Salt,
    number: u32,
    last: bool,
    output: &mut [u8],
    input: &[u8],
) -> u32
    ensures accepted { result ≡ 0 ↔ ((length input.now ≡ length output.old + 16)
        × IsTextLength number last (length output.old)
        × IsChunk key.now salt.now number last input.now) }
    ensures refused { result ≡ 1 ↔ ¬ ((length input.now ≡ length output.old + 16)
        × IsTextLength number last (length output.old)) }
    ensures wrong { result ≡ 2 ↔ ((length input.now ≡ length output.old + 16)
        × IsTextLength number last (length output.old)
        × ¬ IsChunk key.now salt.now number last input.now) }
    ensures opened { result ≡ 0
        → input.now ≡ chunk key.now salt.now number last output.new }
    ensures kept { result ≢ 0 → output.new ≡ output.old }
{
    if !is_text_length(number, last, output.len()) || input.len() != output.len() + TAG {
        return 1;
    }
    let (ciphertext, end) = input.split_at(output.len());
    let nonce = chunk_nonce(salt, u64::from(number), last);
    let mut tag = [0; 16];
    tag.copy_from_slice(end);
    xchacha20_aead_decrypt_between(key, &nonce, &[], output, ciphertext, &tag)
}

// Whether a chunk may have so many bytes of text.
fn is_text_length(number: u32, last: bool, len: usize) -> bool
    ensures { IsTrue result ↔ IsTextLength number last len }
{
    len == CHUNK || last && len < CHUNK && (len > 0 || number == 0)
}
