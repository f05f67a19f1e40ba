//! Parts of sealed files: in memory, behind a source that fails, and in a `File`.

ghost use Rattle.std.specs.Prelude.{◌≡◌, ◌+◌, ℕ, List, length, OnOk};
ghost use Rattle.std.specs.List.{slice_range};
ghost use Rattle.sealed_file.specs.Sealed.{IsSealed};

use super::sealed_files::Change::{Cut, Turned};
use super::sealed_files::Said::{Damaged, Done, PastEnd};
use super::sealed_files::{Change, FILE, Said, TEXT, changed, first, of_range, two_files};
use super::unsteady::Unsteady;
use chacha20::Key;
use known_answers::published::COUNTING as KEY;
use sealed_file::Damage::{NotSealed, TooLong, WrongChunk, WrongEnd};
use sealed_file::{BUFFER, CHUNK, Damage, RangeError, ReadAt, SealedReader};
use std::fs::{File, OpenOptions, remove_file};
use std::io::{self, ErrorKind, Read, Seek, SeekFrom, Write};
use std::test::Fail;

// The bytes of a sealed file's text from `start` to `end`.
fn between(
    key: &Key,
    file: &[u8],
    start: u64,
    end: u64,
    window: &mut [u8],
) -> Result<(), RangeError>
    requires { start + length window.old ≡ end }
    ensures { (salt text : List ℕ) → IsSealed key.now salt text file.now
        → OnOk result (window.new ≡ slice_range text start end) }
{
    let mut buf = [0; BUFFER];
    let mut reader = SealedReader::new(key, file, &mut buf)?;
    reader.read_exact_at(start, window)
}

// A hundred bytes, which stand in two chunks.
fn hundred(key: &Key, file: &[u8], window: &mut [u8; 100]) -> Result<(), RangeError>
    ensures { (salt text : List ℕ) → IsSealed key.now salt text file.now
        → OnOk result (window.new ≡ slice_range text 65500 65600) }
{
    between(key, file, 65500, 65600, window)
}

// Whether a read at a place gave what the text has there, up to the end of the window or of the chunk.
fn is_part(text: &[u8], place: usize, n: usize, window: &[u8]) -> bool {
    let from = place.min(text.len());
    let end = (place / CHUNK).saturating_add(1).saturating_mul(CHUNK);
    let size = window.len().min(end.min(text.len()).saturating_sub(from));
    (n == size) & (window.get(..n) == text.get(from..from.saturating_add(n)))
}

// The first place near the end of a chunk from which another text is read, or the greatest number.
fn wrong_place<R: Read + Seek>(text: &[u8], reader: &mut R) -> io::Result<usize> {
    for border in [0, 65536, 131072, 196608, 200000usize] {
        for step in 0..40usize {
            let place = (border + step).saturating_sub(20);
            let mut window = [0; 30];
            reader.seek(SeekFrom::Start(place as u64))?;
            let n = reader.read(&mut window)?;
            if !is_part(text, place, n, &window) {
                return Ok(place);
            }
        }
    }
    Ok(usize::MAX)
}

// Whether the end is read, and the moves from there come to the right places.
fn moves<R: Read + Seek>(text: &[u8], reader: &mut R) -> io::Result<bool> {
    let mut four = [0; 4];
    let end = reader.seek(SeekFrom::End(-3))?;
    let too_long = reader.read_exact(&mut four).map_err(|e| e.kind());
    let n = reader.read(&mut four)?;
    let is_end = (end == 199997) & (n == 3) & text.ends_with(&four[..3]);
    reader.seek_relative(-100)?;
    reader.read_exact(&mut four)?;
    let at = reader.stream_position()?;
    let too_far = reader
        .seek(SeekFrom::Current(-199905))
        .map_err(|e| e.kind());
    reader.rewind()?;
    Ok(
        is_end
            & (too_long == Err(ErrorKind::UnexpectedEof))
            & (text.get(199900..199904) == Some(&four[..]))
            & (at == 199904)
            & (too_far == Err(ErrorKind::InvalidInput))
            & (reader.stream_position()? == 0),
    )
}

// Whether all of this is so of a source.
fn is_read<S: ReadAt + Drop>(text: &[u8], source: S) -> Result<bool, Fail> {
    let mut buf = [0; BUFFER];
    let mut reader = SealedReader::new(&KEY, source, &mut buf)?;
    let are_parts = wrong_place(text, &mut reader)? == usize::MAX;
    Ok(are_parts & moves(text, &mut reader)? & (reader.text_len() == TEXT as u64))
}

// The bytes of the text of a sealed file on disk from `start` on.
fn from_disk(key: &Key, file: File, start: u64, window: &mut [u8]) -> Result<(), RangeError> {
    let mut buf = [0; BUFFER];
    let mut reader = SealedReader::new(key, file, &mut buf)?;
    reader.read_exact_at(start, window)
}

// A file that has these bytes, and whose name is removed.
pub fn unnamed(rt: &HostRuntime, path: &str, bytes: &[u8]) -> io::Result<File> {
    let mut options = OpenOptions::new();
    options.read(true).write(true).create(true).truncate(true);
    let mut file = options.open(rt, path)?;
    remove_file(rt, path)?;
    file.write_all(bytes)?;
    Ok(file)
}

#[test]
fn parts(rt: HostRuntime) -> Result<(), Fail> {
    let (text, files) = two_files(rt.alloc())?;
    let (text, file) = (text.as_slice(), first(files.as_slice()));
    let mut window = [0; 100];
    hundred(&KEY, file, &mut window)?;
    assert!(rt; text.get(65500..65600) == Some(&window[..]));
    assert!(rt; is_read(text, file)?);
    assert!(rt; is_read(text, &Unsteady::new(file, 1000, 0))?);
    from_disk(&KEY, unnamed(&rt, "parts.tmp", file)?, 70000, &mut window)?;
    assert!(rt; text.get(70000..70100) == Some(&window[..]));
    assert!(rt; is_read(text, unnamed(&rt, "parts.tmp", file)?)?);
    Ok(())
}

// Reads text by 32 bytes to its end, with `read_exact` or with `read`, and returns how many reads fail with this kind.
fn failed_reads<R: Read>(
    reader: &mut R,
    is_exact: bool,
    text: &mut Vec<u8>,
    kind: ErrorKind,
) -> io::Result<u32> {
    let mut failed = 0u32;
    for _ in 0..10000 {
        let mut piece = [0; 32];
        let done = if is_exact {
            reader.read_exact(&mut piece).map(|()| 32)
        } else {
            reader.read(&mut piece)
        };
        match done {
            Ok(0) => break,
            Ok(n) => text.extend_from_slice(piece.get(..n).unwrap_or(&[]))?,
            Err(e) if e.kind() == kind => failed = failed.saturating_add(1),
            Err(e) if e.kind() == ErrorKind::UnexpectedEof => break,
            Err(e) => return Err(e),
        }
    }
    Ok(failed)
}

// Whether reads are by `read_exact`, a call in which the source fails, and with which kind; which kind comes out of how
// many reads, and how many calls there are. `new` opens the last chunk; then each is opened once, and again after a
// failure.
static KEPT: [(bool, u32, ErrorKind, ErrorKind, u32, u32); 5] = [
    (false, 0, ErrorKind::Other, ErrorKind::Other, 0, 11),
    (
        false,
        8,
        ErrorKind::BrokenPipe,
        ErrorKind::BrokenPipe,
        1,
        12,
    ),
    (false, 8, ErrorKind::InvalidData, ErrorKind::Other, 1, 12),
    (true, 8, ErrorKind::BrokenPipe, ErrorKind::BrokenPipe, 1, 12),
    (true, 8, ErrorKind::InvalidData, ErrorKind::Other, 1, 12),
];

#[test]
fn a_chunk_is_kept(rt: HostRuntime) -> Result<(), Fail> {
    let (text, files) = two_files(rt.alloc())?;
    for (is_exact, fails, kind, told, failed, calls) in &KEPT {
        let mut source = Unsteady::new(first(files.as_slice()), BUFFER, *fails);
        source.kind = *kind;
        let mut buf = [0; BUFFER];
        let mut reader = SealedReader::new(&KEY, &source, &mut buf)?;
        let mut back = Vec::new(rt.alloc());
        let n = failed_reads(&mut reader, *is_exact, &mut back, *told)?;
        assert!(rt; (n == *failed) & (back == text) & (source.calls.get() == *calls));
    }
    Ok(())
}

// What is said of a range.
pub fn range<S: ReadAt + Drop>(source: S, start: u64, window: &mut [u8]) -> Result<(), RangeError> {
    let mut buf = [0; BUFFER];
    let mut reader = SealedReader::new(&KEY, source, &mut buf)?;
    reader.read_exact_at(start, window)
}

// A file, the start and the length of a range, what is said of it, and how much of it is read.
static RANGES: [(Change, u64, usize, Said, usize); 22] = [
    (Cut(FILE), 65500, 100, Done, 100),
    (Cut(FILE), 0, TEXT, Done, TEXT),
    (Cut(FILE), 199999, 1, Done, 1),
    (Cut(FILE), 199999, 2, PastEnd, 0),
    (Cut(FILE), 200000, 0, Done, 0),
    (Cut(FILE), 200001, 0, PastEnd, 0),
    (Cut(FILE), u64::MAX, 1, PastEnd, 0),
    (Turned(32), 0, 30, Damaged(WrongChunk(0)), 0),
    (Turned(32), 65536, 30, Done, 30),
    (Turned(65584), 65500, 100, Damaged(WrongChunk(1)), 36),
    (Turned(65584), 0, TEXT, Damaged(WrongChunk(1)), 65536),
    (Turned(65584), 65436, 100, Done, 100),
    (Turned(65584), 70000, 0, Done, 0),
    (Turned(65584), 131072, 68928, Done, 68928),
    (Turned(131135), 65535, 1, Done, 1),
    (Turned(131135), 70000, 100, Damaged(WrongChunk(1)), 0),
    (Turned(200095), 0, 0, Damaged(WrongEnd(3)), 0),
    (Turned(200095), 196607, 1, Damaged(WrongEnd(3)), 0),
    (Turned(200095), 200000, 1, Damaged(WrongEnd(3)), 0),
    (Turned(0), 0, 1, Damaged(NotSealed), 0),
    (Turned(13), 196608, 1, Damaged(WrongChunk(0)), 0),
    (Cut(196688), 131071, 1, Damaged(WrongEnd(2)), 0),
];

// Whether a window has n bytes of text from a place on, and behind them what it had.
fn holds(window: &[u8], text: &[u8], start: u64, n: usize) -> bool {
    let start = start.min(text.len() as u64) as usize;
    let rest = window.get(n..).unwrap_or(&[]);
    (window.get(..n) == text.get(start..start.saturating_add(n)))
        & rest.iter().all(|byte| *byte == 255)
}

#[test]
fn ranges(rt: HostRuntime) -> Result<(), Fail> {
    let (text, files) = two_files(rt.alloc())?;
    for (change, start, size, said, n) in &RANGES {
        let file = changed(rt.alloc(), files.as_slice(), *change)?;
        let mut window = vec![in rt.alloc(); 255; *size]?;
        let source = Unsteady::new(file.as_slice(), 1000, 0);
        let done = range(&source, *start, window.as_mut_slice());
        assert!(rt; of_range(done) == *said, "{change:?} {start}");
        assert!(rt;
            holds(window.as_slice(), text.as_slice(), *start, *n),
            "{change:?} {start}"
        );
    }
    Ok(())
}

// How much of the whole text is read before the source fails in each of its calls. The first and each third after it
// are interrupted where they don't fail.
static READ: [usize; 11] = [0, 0, 0, 0, 0, 0, 65536, 65536, 131072, 196608, 196608];

#[test]
fn failures_are_told(rt: HostRuntime) -> Result<(), Fail> {
    let (text, files) = two_files(rt.alloc())?;
    for (i, n) in READ.iter().enumerate() {
        let mut window = vec![in rt.alloc(); 255; TEXT]?;
        let source = Unsteady::new(first(files.as_slice()), BUFFER, i as u32 + 1);
        let done = range(&source, 0, window.as_mut_slice());
        assert!(rt; of_range(done) == Said::Read, "{i}");
        assert!(rt; holds(window.as_slice(), text.as_slice(), 0, *n), "{i}");
    }
    Ok(())
}

// A file, and the size that it says it has.
#[derive(Drop)]
struct OfSize<'f>(&'f [u8], u64);

impl ReadAt for OfSize<'_> {
    fn size(&self) -> io::Result<u64> {
        Ok(self.1)
    }

    fn read_at(&self, buf: &mut [u8], place: u64) -> io::Result<usize> {
        self.0.read_at(buf, place)
    }
}

// Sizes of a file that is shorter, a byte of its text, and what is said there: a file has at most 2^32 chunks.
static SIZES: [(u64, u64, Damage); 3] = [
    (200097, 200000, WrongEnd(3)),
    (32 + (65552 << 32), (1 << 48) - 1, WrongEnd(4294967295)),
    (33 + (65552 << 32), 0, TooLong),
];

#[test]
fn sizes_are_not_trusted(rt: HostRuntime) -> Result<(), Fail> {
    let (_, files) = two_files(rt.alloc())?;
    for (size, start, damage) in &SIZES {
        let done = range(OfSize(first(files.as_slice()), *size), *start, &mut [0]);
        assert!(rt; of_range(done) == Damaged(*damage), "{size}");
    }
    Ok(())
}
