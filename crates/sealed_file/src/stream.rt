//! From a reader to a writer.

ghost use Rattle.std.specs.Prelude.{◌≡◌, ◌≢◌, ◌<◌, ◌≤◌, ◌+◌, ◌*◌, ◌^◌, ◌++◌, ℕ, List, length, take, replicate, Some, Err, IfOk, OnOk, OnErr, IfSome, IsSome, IsNone, IsErrOf};
ghost use Rattle.std.specs.Io.KnownBytes.{Appends, Consumes, IsAtEnd};
ghost use Rattle.std.specs.declared.io.Error.{Error};
ghost use Rattle.sealed_file.specs.declared.error.Damage.{Damage};
ghost use Rattle.sealed_file.specs.declared.error.IoError.{IoError};
ghost use Rattle.sealed_file.specs.Opened.{opened};
ghost use Rattle.sealed_file.specs.Sealed.{header, header_damage, sealed, left, IsSealed};

use crate::chunk::{CHUNK, CHUNKS, Salt, TAG, header, open_chunk, salt_of, seal_chunk};
use crate::error::{Damage, DecryptError, EncryptError, IoError};
use chacha20::Key;
use std::io::{Read, Write};
use std::random::RandomSource;

/// The bytes of the scratch space that calls are lent: a chunk, and one byte of the next.
pub const BUFFER: usize = CHUNK + TAG + 1;

/// Writes a sealed file of all that the reader has left, with 19 bytes of a random source as its salt, such as a
/// program's `HostRuntime`. No clause says that they are random, or no secret: the trait promises nothing of what its
/// call writes. Fails where the source fails, before anything is written, and else as [`encrypt_with_salt`] does.
pub fn encrypt<G: RandomSource, R: Read, W: Write>(
    random: &G,
    key: &Key,
    reader: &mut R,
    writer: &mut W,
    buf: &mut [u8; BUFFER],
) -> Result<(), EncryptError>
    ensures written { OnOk result ((salt text file : List ℕ)
        × IfSome (R.remaining reader.old) (λ all. all ≡ text)
        × IsSealed key.now salt text file
        × Appends (W.contents writer.old) (W.contents writer.new) file) }
    ensures only_sealed { OnErr result ((salt text : List ℕ) × (n : ℕ) × (length salt ≡ 19)
        × IfSome (R.remaining reader.old) (λ all. all ≡ text)
        × (n < length (sealed key.now salt text))
        × Appends (W.contents writer.old) (W.contents writer.new)
        (take n (sealed key.now salt text))) }
    ensures too_long { IsErrOf result EncryptError.TooLong
        → IfSome (R.remaining reader.old) (λ text. 2 ^ 48 < length text) }
    ensures cleared { buf.new ≡ replicate 65553 0 }
{
    let mut salt = [0; 19];
    if let Err(e) = random.fill_bytes(&mut salt) {
        clear(buf);
        return Err(EncryptError::Random(e));
    }
    encrypt_with_salt(&salt, key, reader, writer, buf)
}

/// Writes the sealed file of all that the reader has left, with this salt, which no other file under the key may have:
/// two texts that are sealed with one salt can be read without the key, and files can be forged. So call [`encrypt`],
/// but for a salt that is random elsewhere, or to make a file again, byte by byte.
///
/// Fails for a text of more than 2^48 bytes, and where the reader or the writer fails, but never with `Random`. Then
/// the writer has a part of the file's start, and not all of it. At the end, `buf` is all zeros.
pub fn encrypt_with_salt<R: Read, W: Write>(
    salt: &Salt,
    key: &Key,
    reader: &mut R,
    writer: &mut W,
    buf: &mut [u8; BUFFER],
) -> Result<(), EncryptError>
    ensures written { OnOk result ((text file : List ℕ)
        × IfSome (R.remaining reader.old) (λ all. all ≡ text)
        × IsSealed key.now salt.now text file
        × Appends (W.contents writer.old) (W.contents writer.new) file) }
    ensures only_sealed { OnErr result ((text : List ℕ) × (n : ℕ)
        × IfSome (R.remaining reader.old) (λ all. all ≡ text)
        × (n < length (sealed key.now salt.now text))
        × Appends (W.contents writer.old) (W.contents writer.new)
        (take n (sealed key.now salt.now text))) }
    ensures too_long { IsErrOf result EncryptError.TooLong
        → IfSome (R.remaining reader.old) (λ text. 2 ^ 48 < length text) }
    ensures not_random { (e : Error) → result ≢ Err (EncryptError.Random e) }
    ensures cleared { buf.new ≡ replicate 65553 0 }
{
    if let Err(e) = write_whole(writer, &header(salt)) {
        clear(buf);
        return Err(EncryptError::Write(e));
    }
    let mut next = None;
    'chunks: for number in 0..CHUNKS {
        let (n, after) = match read_chunk(reader, next, buf, CHUNK) {
            Ok(read) => read,
            Err(e) => {
                clear(buf);
                return Err(EncryptError::Read(e));
            }
        };
        let last = after.is_none();
        let chunk = &mut buf[..n + TAG];
        seal_chunk(key, salt, number, last, chunk);
        if let Err(e) = write_whole(writer, chunk) {
            clear(buf);
            return Err(EncryptError::Write(e));
        }
        if last {
            clear(buf);
            return Ok(());
        }
        next = after;
    }
    clear(buf);
    Err(EncryptError::TooLong)
}

/// Reads a sealed file up to the reader's end, and writes the text of each chunk after its tag was found right. If it
/// fails, the writer has a part of the start of the text that `opened` finds in the file. Damage is that of the header,
/// or of the first chunk that isn't right, and then all text before it is written. At the end, `buf` is all zeros.
pub fn decrypt<R: Read, W: Write>(
    key: &Key,
    reader: &mut R,
    writer: &mut W,
    buf: &mut [u8; BUFFER],
) -> Result<(), DecryptError>
    ensures accepted { OnOk result ((salt text file : List ℕ)
        × IfSome (R.remaining reader.old) (λ all. all ≡ file)
        × IsSealed key.now salt text file
        × Appends (W.contents writer.old) (W.contents writer.new) text) }
    ensures text { (salt text file : List ℕ) → R.remaining reader.old ≡ Some file
        → IsSealed key.now salt text file
        → OnOk result (Appends (W.contents writer.old) (W.contents writer.new) text) }
    ensures damaged { (damage : Damage) → IsErrOf result (DecryptError.Damaged damage)
        → (file text : List ℕ) × IfSome (R.remaining reader.old) (λ all. all ≡ file)
        × (opened key.now file ≡ (text, Some damage))
        × Appends (W.contents writer.old) (W.contents writer.new) text }
    ensures only_right { OnErr result ((file : List ℕ) × (n : ℕ)
        × IfSome (R.remaining reader.old) (λ all. all ≡ file)
        × Appends (W.contents writer.old) (W.contents writer.new)
        (take n (opened key.now file).0)) }
    ensures cleared { buf.new ≡ replicate 65553 0 }
{
    let salt = match read_header(reader) {
        Ok(salt) => salt,
        Err(e) => {
            clear(buf);
            return Err(e);
        }
    };
    let mut next = None;
    'chunks: for number in 0..CHUNKS {
        let (n, after) = match read_chunk(reader, next, buf, CHUNK + TAG) {
            Ok(read) => read,
            Err(e) => {
                clear(buf);
                return Err(DecryptError::Read(e));
            }
        };
        let last = after.is_none();
        let chunk = &mut buf[..n];
        if !open_chunk(key, &salt, number, last, chunk) {
            clear(buf);
            return Err(DecryptError::Damaged(Damage::of_chunk(number, last)));
        }
        if let Err(e) = write_whole(writer, &chunk[..n - TAG]) {
            clear(buf);
            return Err(DecryptError::Write(e));
        }
        if last {
            clear(buf);
            return Ok(());
        }
        next = after;
    }
    clear(buf);
    Err(DecryptError::Damaged(Damage::TooLong))
}

// So that no text stays in the space that was lent.
fn clear(buf: &mut [u8; BUFFER])
    ensures { buf.new ≡ replicate 65553 0 }
{
    buf.fill(0);
}

// Reads the header, and returns its salt.
fn read_header<R: Read>(reader: &mut R) -> Result<Salt, DecryptError>
    ensures right { IfOk result (λ salt.
        Consumes (R.remaining reader.old) (R.remaining reader.new) (header salt)) }
    ensures size { IfOk result (λ salt. length salt ≡ 19) }
    ensures damaged { (damage : Damage) → IsErrOf result (DecryptError.Damaged damage)
        → (file : List ℕ) × IfSome (R.remaining reader.old) (λ all. all ≡ file)
        × (header_damage file ≡ Some damage) }
{
    let mut bytes = [0; 32];
    let n = match fill(reader, &mut bytes) {
        Ok(n) => n,
        Err(e) => return Err(DecryptError::Read(e)),
    };
    match salt_of(&bytes[..n]) {
        Ok(salt) => Ok(salt),
        Err(damage) => Err(DecryptError::Damaged(damage)),
    }
}

// Reads the next `size` bytes, or those that are left, into the buffer's start, and then one more: if there is one,
// another chunk follows. `next` is the one that was read so before.
fn read_chunk<R: Read>(
    reader: &mut R,
    next: Option<u8>,
    buf: &mut [u8],
    size: usize,
) -> Result<(usize, Option<u8>), IoError>
    requires { (0 < size) × (size < length buf.old) }
    ensures bytes { IfOk result (λ (n, after). Consumes (left next (R.remaining reader.old))
        (left after (R.remaining reader.new)) (take n buf.new)) }
    ensures size { IfOk result (λ (n, after). (n ≤ size) × (IsSome next → 0 < n)) }
    ensures whole { IfOk result (λ (n, after). IsSome after → n ≡ size) }
    ensures end { IfOk result (λ (n, after). IsNone after → IsAtEnd (R.remaining reader.new)) }
{
    let n = fill_behind(reader, next, &mut buf[..size + 1])?;
    if n <= size {
        return Ok((n, None));
    }
    Ok((size, Some(buf[size])))
}

// Fills the buffer, which begins with `next` if there is one.
fn fill_behind<R: Read>(reader: &mut R, next: Option<u8>, buf: &mut [u8]) -> Result<usize, IoError>
    requires { 0 < length buf.old }
    ensures bytes { IfOk result (λ n. Consumes (left next (R.remaining reader.old))
        (R.remaining reader.new) (take n buf.new)) }
    ensures size { IfOk result (λ n. (n ≤ length buf.old) × (IsSome next → 0 < n)) }
    ensures end { IfOk result (λ n. n < length buf.old → IsAtEnd (R.remaining reader.new)) }
{
    let Some(byte) = next else {
        return fill(reader, buf);
    };
    buf[0] = byte;
    Ok(1 + fill(reader, &mut buf[1..])?)
}

/// Reads until the buffer is full or the reader ends, and returns how many bytes came. A read that a signal interrupts
/// is repeated. After an error, the buffer has what was read.
pub fn fill<R: Read>(reader: &mut R, buf: &mut [u8]) -> Result<usize, IoError>
    ensures right { IfOk result (λ n.
        Consumes (R.remaining reader.old) (R.remaining reader.new) (take n buf.new)) }
    ensures bound { IfOk result (λ n. n ≤ length buf.old) }
    ensures end { IfOk result (λ n. n < length buf.old → IsAtEnd (R.remaining reader.new)) }
    ensures partly { OnErr result ((n : ℕ) × (n < length buf.old)
        × Consumes (R.remaining reader.old) (R.remaining reader.new) (take n buf.new)) }
{
    let mut at = 0;
    'reads: for _ in 0..u64::MAX {
        if at >= buf.len() {
            return Ok(at);
        }
        match reader.read(&mut buf[at..]) {
            Ok(0) => return Ok(at),
            Ok(n) => at += n,
            Err(e) => {
                if let Some(e) = IoError::new(e) {
                    return Err(e);
                }
            }
        }
    }
    if at >= buf.len() {
        return Ok(at);
    }
    Err(IoError::timed_out())
}

/// Writes all bytes, and repeats a write that a signal interrupts.
pub fn write_whole<W: Write>(writer: &mut W, bytes: &[u8]) -> Result<(), IoError>
    ensures written { OnOk result
        (Appends (W.contents writer.old) (W.contents writer.new) bytes.now) }
    ensures partly { OnErr result ((n : ℕ) × (n < length bytes.now)
        × Appends (W.contents writer.old) (W.contents writer.new) (take n bytes.now)) }
{
    let mut done = 0;
    'tries: for _ in 0..u64::MAX {
        if done >= bytes.len() {
            return Ok(());
        }
        match writer.write(&bytes[done..]) {
            Ok(0) => return Err(IoError::write_zero()),
            Ok(n) => done += n,
            Err(e) => {
                if let Some(e) = IoError::new(e) {
                    return Err(e);
                }
            }
        }
    }
    if done >= bytes.len() {
        return Ok(());
    }
    Err(IoError::timed_out())
}
