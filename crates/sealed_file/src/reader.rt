//! The text of a sealed file, read from any place.

ghost use Rattle.std.specs.Prelude.{◌≡◌, ◌≢◌, ◌<◌, ◌≤◌, ◌+◌, ◌-◌, ◌*◌, ◌/◌, ◌^◌, ◌↔◌, ◌++◌, ℕ, List, Bool, Some, None, length, take, drop, nat_eq, min, IsTrue, IsFalse, IsOk, IfOk, OnOk, IfErr, OnErr, IfSome, IsErrOf};
ghost use Rattle.std.specs.Option.{ForSome, IsSomeAnd};
ghost use Rattle.std.specs.List.{slice_range};
ghost use Rattle.std.specs.declared.io.Error.{Error};
ghost use Rattle.std.specs.Io.{ReadsAtMost};
ghost use Rattle.std.specs.Io.Cursor.{IsSeekResult, IsSeekFromEnd};
ghost use Rattle.std.specs.Io.KnownBytes.{Consumes, Keeps, ReadConsumes};
ghost use Rattle.std.specs.Io.Seek.{SeekMoves, MovesTo, MovesBy, StaysAt};
ghost use Rattle.std.specs.IoError.{error_kind};
ghost use Rattle.sealed_file.specs.declared.error.Damage.{Damage};
ghost use Rattle.sealed_file.specs.declared.error.IoError.{IoError};
ghost use Rattle.sealed_file.specs.Sealed.{header, last_of, text_of, sealed, IsSealed, IsFileDamage};
ghost use Rattle.sealed_file.specs.Ranges.{File, place, count, HasChunk, HasRange, EndsAt, IsWrong, IsRefused, StopsAt, IsZeroFrom, text_size, held_size};

use crate::chunk::{CHUNKS, Salt, TAG, open_chunk, salt_of};
use crate::error::{Damage, IoError, RangeError, ReadError};
use crate::file::{ReadAt, fill_at};
use crate::places::{last_chunk, text_len};
use crate::stream::BUFFER;
use chacha20::Key;
use std::io::{self, ErrorKind, Read, Seek, SeekFrom};

/// Reads the text of a sealed file, and of the file only the last chunk, by which a cut is noticed, and those that hold
/// what is read. The text of the chunk that it opened last stays in the buffer, which is lent.
#[derive(Drop)]
pub struct SealedReader<'b, R: ReadAt> {
    key: Key,
    salt: Salt,
    source: R,
    // As the file told it to `new`.
    len: u64,
    position: u64,
    // The chunk whose text the buffer begins with. Behind it the buffer is zero.
    held: Option<u64>,
    buf: &'b mut [u8; BUFFER],
    ghost fits: { len ≤ 32 + 65552 * 2 ^ 32 },
    ghost begins: { ForSome (R.bytes source) (λ bytes.
        (len ≡ length bytes) × (take 32 bytes ≡ header salt)) },
    ghost whole: { last_of len ≡ (text_of len - 1) / 65536 },
    ghost right: { ForSome held (λ i.
        HasChunk (record { key = key; salt = salt; bytes = R.bytes source }) i
        (take (text_size (text_of len) i) buf.now)) },
    ghost lent: { IsZeroFrom (held_size held (text_of len)) buf.now },
}

impl<'b, R: ReadAt> SealedReader<'b, R> {
    ghost use Rattle.sealed_file.specs.SealedReader.{may_fail, text_len, position, file, Reads, IsSame};

    /// Takes a file, reads its length and its header, and opens the last chunk, so that a cut is noticed. Fails if the
    /// file doesn't begin with a header, is longer than a sealed file can be, doesn't end with a right last chunk, or
    /// can't be read. Then don't read `buf`: no clause says what it holds.
    pub fn new(
        key: &Key,
        source: R,
        buf: &'b mut [u8; BUFFER],
    ) -> Result<SealedReader<'b, R>, ReadError>
    where
        R: Drop,
        ensures starts { IfOk result (λ r. ((file r).key ≡ key.now)
            × ((file r).bytes ≡ R.bytes source) × (may_fail r ≡ R.may_fail source)
            × (position r ≡ 0)) }
        ensures header { IfOk result (λ r.
            ForSome (R.bytes source) (λ all. take 32 all ≡ header (file r).salt)) }
        ensures end { IfOk result (λ r. EndsAt (file r) (text_len r)) }
        ensures reads { (salt text : List ℕ)
            → IsSomeAnd (R.bytes source) (λ all. IsSealed key.now salt text all)
            → IfOk result (λ r. Reads r text) }
        ensures opens { (salt text all : List ℕ) → R.bytes source ≡ Some all
            → IsSealed key.now salt text all → IsFalse (R.may_fail source) → IsOk result }
        ensures damaged { (damage : Damage) → IsErrOf result (ReadError.Damaged damage)
            → IsRefused key.now (R.bytes source) damage }
        ensures fails { (e : IoError) → IsErrOf result (ReadError.Read e)
            → IsTrue (R.may_fail source) }
    {
        let len = size_of(&source)?;
        let mut front = [0; 32];
        let n = fill_at(&source, &mut front, 0)?;
        let salt = salt_of(&front[..n])?;
        if len > 32 + 65552 * CHUNKS {
            return Err(ReadError::Damaged(Damage::TooLong));
        }
        let last = last_chunk(len);
        if let Err(e) = load(key, &salt, &source, len, last, buf) {
            if last == 0 {
                return Err(e);
            }
            if let ReadError::Read(_) = e {
                return Err(e);
            }
            // A wrong chunk 0 comes first: where the key is wrong, each chunk is.
            load(key, &salt, &source, len, 0, buf)?;
            buf.fill(0);
            return Err(e);
        }
        Ok(SealedReader {
            key: *key,
            salt,
            source,
            len,
            position: 0,
            held: Some(last),
            buf,
        })
    }

    /// How many bytes of text the file has; its last chunk is right.
    pub fn text_len(&self) -> u64
        ensures value { result ≡ text_len self.now }
        ensures exact { (text : List ℕ) → Reads self.now text → result ≡ length text }
    {
        text_len(self.len)
    }

    /// Reads text from byte `start` on into the window's start, up to the end of the window, of the chunk or of the
    /// text, and returns how many bytes that are: 0 at the end of the text and past it, or for an empty window.
    pub fn read_at(&mut self, start: u64, window: &mut [u8]) -> Result<usize, ReadError>
        ensures right { IfOk result (λ n. HasRange (file self.old) start (take n window.new)) }
        ensures count { IfOk result (λ n.
            n ≡ count (text_len self.old) start (length window.old)) }
        ensures rest { IfOk result (λ n. drop n window.new ≡ drop n window.old) }
        ensures text { (text : List ℕ) → Reads self.old text
            → IfOk result (λ n. take n window.new ≡ slice_range text start (start + n)) }
        ensures accepted { (text : List ℕ) → Reads self.old text
            → IsFalse (may_fail self.old) → IsOk result }
        ensures unchanged { OnErr result (window.new ≡ window.old) }
        ensures damaged { (damage : Damage) → IsErrOf result (ReadError.Damaged damage)
            → IsWrong (file self.old) (start / 65536) damage }
        ensures fails { (e : IoError) → IsErrOf result (ReadError.Read e)
            → IsTrue (may_fail self.old) }
        ensures same { IsSame self.old self.new × (position self.new ≡ position self.old) }
    {
        if start >= self.text_len() {
            return Ok(0);
        }
        let len = self.open(start / 65536)?;
        Ok(copy_text(&self.buf[..len], start % 65536, window))
    }

    /// Fills the window with text from byte `start` on. Fails with `PastEnd` if and only if the range ends past the end
    /// of the text; then nothing is changed. After another error, the window begins with the text of the chunks before
    /// the one that failed.
    pub fn read_exact_at(&mut self, start: u64, window: &mut [u8]) -> Result<(), RangeError>
        ensures past_end { IsErrOf result RangeError.PastEnd
            ↔ (text_len self.old < start + length window.old) }
        ensures unchanged { IsErrOf result RangeError.PastEnd → window.new ≡ window.old }
        ensures right { OnOk result (HasRange (file self.old) start window.new) }
        ensures text { (text : List ℕ) → Reads self.old text
            → OnOk result (window.new ≡ slice_range text start (start + length window.old)) }
        ensures accepted { (text : List ℕ) → Reads self.old text → IsFalse (may_fail self.old)
            → (IsOk result ↔ (start + length window.old ≤ length text)) }
        ensures damaged { (damage : Damage) → IsErrOf result (RangeError.Damaged damage)
            → (i : ℕ) × StopsAt (file self.old) start i window.old window.new
            × IsWrong (file self.old) i damage }
        ensures fails { (e : IoError) → IsErrOf result (RangeError.Read e)
            → IsTrue (may_fail self.old)
            × ((i : ℕ) × StopsAt (file self.old) start i window.old window.new) }
        ensures same { IsSame self.old self.new × (position self.new ≡ position self.old) }
    {
        if !is_within(start, window.len(), self.text_len()) {
            return Err(RangeError::PastEnd);
        }
        let mut done = 0;
        'chunks: while done < window.len() {
            match self.read_at(start + done as u64, &mut window[done..]) {
                Ok(n) => done += n,
                Err(ReadError::Read(e)) => return Err(RangeError::Read(e)),
                Err(ReadError::Damaged(damage)) => return Err(RangeError::Damaged(damage)),
            }
        }
        Ok(())
    }

    // Holds a chunk, and returns the length of its text.
    fn open(&mut self, number: u64) -> Result<usize, ReadError>
        requires { 65536 * number < text_len self.old }
        ensures size { IfOk result (λ n. n ≡ text_size (text_len self.old) number) }
        ensures right { IfOk result (λ n.
            HasChunk (file self.old) number (take n self.new.buf.now)) }
        ensures damaged { (damage : Damage) → IsErrOf result (ReadError.Damaged damage)
            → IsWrong (file self.old) number damage }
        ensures fails { (e : IoError) → IsErrOf result (ReadError.Read e)
            → IsTrue (may_fail self.old) }
        ensures same { IsSame self.old self.new × (position self.new ≡ position self.old) }
    {
        match self.held {
            Some(held) if held == number => {
                return Ok((self.text_len() - 65536 * number).min(65536) as usize);
            }
            _ => {}
        }
        self.held = None;
        let len = load(
            &self.key,
            &self.salt,
            &self.source,
            self.len,
            number,
            self.buf,
        )?;
        self.held = Some(number);
        Ok(len)
    }
}

// Opens a chunk of a file of so many bytes in the buffer, and returns the length of its text. Behind that the buffer is
// zero, and after an error all of it.
fn load<R: ReadAt>(
    key: &Key,
    salt: &Salt,
    source: &R,
    len: u64,
    number: u64,
    buf: &mut [u8; BUFFER],
) -> Result<usize, ReadError>
    requires number { number ≤ last_of len }
    requires fits { len ≤ 32 + 65552 * 2 ^ 32 }
    requires len { ForSome (R.bytes source.now) (λ all. len ≡ length all) }
    ensures size { IfOk result (λ n. n + 16 ≡ min 65552 (len - place number)) }
    ensures some { IfOk result (λ n. 0 < number → 0 < n) }
    ensures right { IfOk result (λ n.
        HasChunk (record { key = key.now; salt = salt.now; bytes = R.bytes source.now }) number
        (take n buf.new)) }
    ensures damaged { (damage : Damage) → IsErrOf result (ReadError.Damaged damage)
        → IsWrong (record { key = key.now; salt = salt.now; bytes = R.bytes source.now }) number
        damage }
    ensures fails { (e : IoError) → IsErrOf result (ReadError.Read e)
        → IsTrue (R.may_fail source.now) }
    ensures rest { IfOk result (λ n. IsZeroFrom n buf.new) }
    ensures cleared { OnErr result (IsZeroFrom 0 buf.new) }
{
    let last = number == last_chunk(len);
    let place = 32 + 65552 * number;
    let chunk = &mut buf[..len.saturating_sub(place).min(65552) as usize];
    let n = match fill_at(source, chunk, place) {
        Ok(n) => n,
        Err(e) => {
            buf.fill(0);
            return Err(ReadError::Read(e));
        }
    };
    if n < chunk.len() || !open_chunk(key, salt, number, last, chunk) {
        buf.fill(0);
        return Err(ReadError::Damaged(Damage::of_chunk(number, last)));
    }
    buf[n - TAG..].fill(0);
    Ok(n - TAG)
}

// The size of a file; a call that a signal interrupts is repeated.
fn size_of<R: ReadAt>(source: &R) -> Result<u64, IoError>
    ensures value { IfOk result (λ n. IfSome (R.bytes source.now) (λ all. n ≡ length all)) }
    ensures fails { IsFalse (R.may_fail source.now) → IsOk result }
{
    'tries: for tries in 0..u64::MAX {
        match source.size() {
            Ok(n) => return Ok(n),
            Err(e) => {
                if let Some(e) = IoError::new(e) {
                    return Err(e);
                }
            }
        }
    }
    Err(IoError::timed_out())
}

// Copies text from byte `from` on, which may be past its end, and returns how many bytes that are.
fn copy_text(text: &[u8], from: u64, window: &mut [u8]) -> usize
    ensures count { result ≡ min (length window.old) (length text.now - from) }
    ensures copied { window.new
        ≡ take result (drop from text.now) ++ drop result window.old }
{
    let from = from.min(text.len() as u64) as usize;
    let size = window.len().min(text.len() - from);
    window[..size].copy_from_slice(&text[from..from + size]);
    size
}

// Whether a range ends at the end of a text or before it.
fn is_within(start: u64, len: usize, text_len: u64) -> bool
    ensures { IsTrue result ↔ (start + len ≤ text_len) }
{
    start <= text_len && len as u64 <= text_len - start
}

impl<R: ReadAt> Read for SealedReader<'_, R> {
    ghost use Rattle.sealed_file.specs.SealedReader.{may_fail, text_len, position, file, IsSame};

    /// Reads text up to the end of the buffer, of the chunk or of the text, and returns how many bytes that are: 0 at
    /// the end of the text and past it. A wrong chunk is an error of the kind `InvalidData`, and an
    /// error of the file that has this kind comes out as one of the kind `Other`. After an error the buffer and the
    /// position are as they were, and a read may be tried again.
    fn read(&mut self, buf: &mut [u8]) -> io::Result<usize>
        ensures bound { ReadsAtMost result buf.new }
        ensures bytes { ReadConsumes None None result buf.new }
        ensures right { IfOk result (λ n. (position self.new ≡ position self.old + n)
            × (drop n buf.new ≡ drop n buf.old)
            × HasRange (file self.old) (position self.old) (take n buf.new)) }
        ensures count { IfOk result (λ n.
            n ≡ count (text_len self.old) (position self.old) (length buf.old)) }
        ensures unchanged { OnErr result
            ((buf.new ≡ buf.old) × (position self.new ≡ position self.old)) }
        ensures damaged { IfErr result (λ e. error_kind e ≡ ErrorKind.InvalidData
            → (damage : Damage) × IsWrong (file self.old) (position self.old / 65536) damage) }
        ensures fails { IfErr result (λ e. error_kind e ≢ ErrorKind.InvalidData
            → IsTrue (may_fail self.old)) }
        ensures retried { IfErr result (λ e. error_kind e ≢ ErrorKind.Interrupted) }
        ensures same { IsSame self.old self.new }
    {
        match self.read_at(self.position, buf) {
            Ok(n) => {
                self.position += n as u64;
                Ok(n)
            }
            Err(ReadError::Damaged(_)) => Err(damaged()),
            Err(ReadError::Read(e)) => Err(e.apart_from_damage()),
        }
    }

    /// Fills the buffer with text. Fails with the kind `UnexpectedEof` where the text ends before. After any error the
    /// position stays, and of the buffer at most the start has changed, to right text.
    fn read_exact(&mut self, buf: &mut [u8]) -> io::Result<()>
        ensures bytes { OnOk result (Consumes None None buf.new) }
        ensures right { OnOk result ((position self.new ≡ position self.old + length buf.old)
            × HasRange (file self.old) (position self.old) buf.new) }
        ensures end { text_len self.old < position self.old + length buf.old
            → IfErr result (λ e. error_kind e ≡ ErrorKind.UnexpectedEof) }
        ensures unchanged { OnErr result (position self.new ≡ position self.old) }
        ensures partly { OnErr result ((n : ℕ) × (drop n buf.new ≡ drop n buf.old)
            × HasRange (file self.old) (position self.old) (take n buf.new)) }
        ensures damaged { IfErr result (λ e. error_kind e ≡ ErrorKind.InvalidData
            → (i : ℕ) × (damage : Damage) × IsWrong (file self.old) i damage) }
        ensures fails { IfErr result (λ e. error_kind e ≢ ErrorKind.InvalidData
            → position self.old + length buf.old ≤ text_len self.old
            → IsTrue (may_fail self.old)) }
        ensures retried { IfErr result (λ e. error_kind e ≢ ErrorKind.Interrupted) }
        ensures same { IsSame self.old self.new }
    {
        match self.read_exact_at(self.position, buf) {
            Ok(()) => {
                self.position += buf.len() as u64;
                Ok(())
            }
            Err(RangeError::PastEnd) => Err(io::Error::from(ErrorKind::UnexpectedEof)),
            Err(RangeError::Damaged(_)) => Err(damaged()),
            Err(RangeError::Read(e)) => Err(e.apart_from_damage()),
        }
    }
}

impl<R: ReadAt> Seek for SealedReader<'_, R> {
    ghost use Rattle.sealed_file.specs.SealedReader.{text_len, position, IsSame};

    ghost stream_position = { λ r. Some (position r) };

    /// Sets the position in the text, which may be past its end, and reads nothing. The end is where `text_len` says.
    /// Fails with `InvalidInput` for a position before the start or from 2^64 on; then the position stays.
    fn seek(&mut self, to: SeekFrom) -> io::Result<u64>
        ensures moves { SeekMoves (Some (position self.old)) (Some (position self.new))
            None to result }
        ensures bytes { Keeps None None }
        ensures target { IsSeekResult to (position self.old) result }
        ensures from_end { IsSeekFromEnd to (text_len self.old) result }
        ensures negative { IfErr result (λ e. error_kind e ≡ ErrorKind.InvalidInput) }
        ensures same { IsSame self.old self.new }
    {
        let (base, offset) = match to {
            SeekFrom::Start(at) => (at, 0),
            SeekFrom::End(offset) => (text_len(self.len), offset),
            SeekFrom::Current(offset) => (self.position, offset),
        };
        match base.checked_add_signed(offset) {
            Some(at) => {
                self.position = at;
                Ok(at)
            }
            None => Err(io::Error::from(ErrorKind::InvalidInput)),
        }
    }

    /// Sets the position to the start of the text.
    fn rewind(&mut self) -> io::Result<()>
        ensures moves { MovesTo (Some (position self.old)) (Some (position self.new)) 0 result }
        ensures bytes { Keeps None None }
        ensures ok { IsOk result }
        ensures same { IsSame self.old self.new }
    {
        self.position = 0;
        Ok(())
    }

    /// The position in the text.
    fn stream_position(&mut self) -> io::Result<u64>
        ensures value { IfSome (Some (position self.old)) (λ at. IfOk result (λ n. n ≡ at)) }
        ensures stays { StaysAt (Some (position self.old)) (Some (position self.new)) }
        ensures bytes { Keeps None None }
        ensures ok { IsOk result }
        ensures same { IsSame self.old self.new }
    {
        Ok(self.position)
    }

    /// `seek` from the position.
    fn seek_relative(&mut self, offset: i64) -> io::Result<()>
        ensures moves { MovesBy (Some (position self.old)) (Some (position self.new))
            offset result }
        ensures bytes { Keeps None None }
        ensures negative { IfErr result (λ e. error_kind e ≡ ErrorKind.InvalidInput) }
        ensures same { IsSame self.old self.new }
    {
        self.seek(SeekFrom::Current(offset))?;
        Ok(())
    }
}

// The error of a wrong chunk, as one of `std::io`.
fn damaged() -> io::Error
    ensures { error_kind result ≡ ErrorKind.InvalidData }
{
    io::Error::new(ErrorKind::InvalidData, "damaged sealed file")
}
