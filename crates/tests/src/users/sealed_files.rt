//! Sealed files: as libsodium makes them, there and back, damaged, and behind readers and writers that fail.

use super::unsteady::Unsteady;
use Change::{Cut, Has, Turned};
use known_answers::published::COUNTING as KEY;
use sealed_file::Damage::{CutHeader, NotSealed, OtherVersion, WrongChunk, WrongEnd};
use sealed_file::chunk::salt_of;
use sealed_file::{
    BUFFER, CHUNK, Damage, DecryptError, EncryptError, RangeError, Salt, SealedReader, decrypt,
    encrypt, encrypt_with_salt,
};
use std::alloc::{AllocError, Global};
use std::io::{self, ErrorKind, Read, Write};
use std::random::RandomSource;
use std::test::Fail;

// What a call says.
#[derive(Clone, Copy, Debug, PartialEq)]
pub enum Said {
    Done,
    Random,
    Read,
    Write,
    TooLong,
    PastEnd,
    Damaged(Damage),
}

fn of_encrypt(done: Result<(), EncryptError>) -> Said {
    match done {
        Ok(()) => Said::Done,
        Err(EncryptError::Random(_)) => Said::Random,
        Err(EncryptError::Read(_)) => Said::Read,
        Err(EncryptError::Write(_)) => Said::Write,
        Err(EncryptError::TooLong) => Said::TooLong,
    }
}

fn of_decrypt(done: Result<(), DecryptError>) -> Said {
    match done {
        Ok(()) => Said::Done,
        Err(DecryptError::Read(_)) => Said::Read,
        Err(DecryptError::Write(_)) => Said::Write,
        Err(DecryptError::Damaged(damage)) => Said::Damaged(damage),
    }
}

pub fn of_range(done: Result<(), RangeError>) -> Said {
    match done {
        Ok(()) => Said::Done,
        Err(RangeError::PastEnd) => Said::PastEnd,
        Err(RangeError::Read(_)) => Said::Read,
        Err(RangeError::Damaged(damage)) => Said::Damaged(damage),
    }
}

// Gives these bytes in each call, and fails where they are too few.
#[derive(Drop)]
struct Given<'s>(&'s [u8]);

impl RandomSource for Given<'_> {
    fn fill_bytes(&self, buf: &mut [u8]) -> io::Result<()> {
        let mut bytes = self.0;
        bytes.read_exact(buf)
    }
}

pub static SALT: Salt = *b"defghijklmnopqrstuv";

// What is said of a file, whose text goes to `text`, where reader and writer fail in these calls, or never.
fn opened(file: &[u8], text: &mut Vec<u8>, read: u32, write: u32) -> Said {
    let mut reader = Unsteady::new(file, 1000, read);
    let mut writer = Unsteady::new(text, 1000, write);
    of_decrypt(decrypt(&KEY, &mut reader, &mut writer, &mut [0; BUFFER]))
}

// The same of a text, whose file goes to `file`.
pub fn made(salt: &[u8], text: &[u8], file: &mut Vec<u8>, read: u32, write: u32) -> Said {
    let mut reader = Unsteady::new(text, 1000, read);
    let mut writer = Unsteady::new(file, 1000, write);
    let mut buf = [0; BUFFER];
    of_encrypt(encrypt(&Given(salt), &KEY, &mut reader, &mut writer, &mut buf))
}

// Whether a text's file ends so, and comes back.
fn comes_back(alloc: Global, text: &[u8], end: &[u8]) -> bool {
    let (mut file, mut back) = (Vec::new(alloc), Vec::new(alloc));
    (made(&SALT, text, &mut file, 0, 0) == Said::Done)
        & file.as_slice().ends_with(end)
        & (opened(file.as_slice(), &mut back, 0, 0) == Said::Done)
        & (back.as_slice() == text)
}

// The numbers from 0 to 250, again and again.
pub fn counted(alloc: Global, size: usize) -> Result<Vec<u8>, AllocError> {
    (0..size).map(|i| (i % 251) as u8).collect(alloc)
}

// The files of the texts "text" and "", and the last 33 bytes of that of 65537 counted bytes: the tag of chunk 0, and
// chunk 1. The chunks are as libsodium seals them.
static MADE: [&[u8]; 3] = [
    b"chacha20seal1defghijklmnopqrstuv\
    \xd0\x7a\x14\xe6\xfb\x9e\x2e\xba\x3c\x2e\x8e\x5c\x9c\x8b\xe5\x09\x34\xb5\xaa\xc9",
    b"chacha20seal1defghijklmnopqrstuv\
    \xb1\x9e\x0e\x30\xa2\x41\x70\x56\x90\xb5\x3d\x1d\xda\x48\xd7\x8a",
    b"\x7d\x87\x89\x8f\x9d\x45\xfb\xed\xc2\xe5\x6e\xf8\x4d\x12\x37\x26\
    \x7d\xa8\xfa\xf2\x24\x4b\xda\x1f\x52\x51\x91\xdd\x6e\x04\xf6\x28\x30",
];

#[test]
fn files_of_another_implementation(rt: HostRuntime) -> Result<(), Fail> {
    let long = counted(rt.alloc(), CHUNK + 1)?;
    assert!(rt; comes_back(rt.alloc(), b"text", MADE[0]));
    assert!(rt; comes_back(rt.alloc(), b"", MADE[1]));
    assert!(rt; comes_back(rt.alloc(), long.as_slice(), MADE[2]));
    Ok(())
}

#[test]
fn round_trips(rt: HostRuntime) -> Result<(), Fail> {
    for size in [0, 1, 65535, 65536, 65537, 400000] {
        let text = counted(rt.alloc(), size)?;
        assert!(rt; comes_back(rt.alloc(), text.as_slice(), b""), "{size}");
    }
    Ok(())
}

// A text whose file has four chunks, and the length of that file.
pub const TEXT: usize = 200000;

pub const FILE: usize = 200096;

// A damaged file.
#[derive(Clone, Copy, Debug)]
pub enum Change {
    // Only so many bytes are left.
    Cut(usize),
    // A bit of this byte is turned.
    Turned(usize),
    // It has these parts: the header `h`, chunks `0` to `3`, and chunk 1 of the other file, `x`.
    Has(&'static str),
}

// From where to where a part stands in two files, one behind the other.
fn place(part: u8) -> (usize, usize) {
    match part {
        b'h' => (0, 32),
        b'0' => (32, 65584),
        b'1' => (65584, 131136),
        b'2' => (131136, 196688),
        b'3' => (196688, FILE),
        _ => (FILE + 65584, FILE + 131136),
    }
}

// Makes the damaged file.
pub fn changed(alloc: Global, files: &[u8], change: Change) -> Result<Vec<u8>, AllocError> {
    let mut file = first(files).to_vec(alloc)?;
    match change {
        Cut(len) => file.truncate(len),
        Turned(place) => {
            if let Some(byte) = file.get_mut(place) {
                *byte ^= 1;
            }
        }
        Has(parts) => {
            file.clear();
            for part in parts.as_bytes() {
                let (from, to) = place(*part);
                file.extend_from_slice(files.get(from..to).unwrap_or(&[]))?;
            }
        }
    }
    Ok(file)
}

// A text, and its files under two salts, one behind the other.
pub fn two_files(alloc: Global) -> Result<(Vec<u8>, Vec<u8>), AllocError> {
    let text = counted(alloc, TEXT)?;
    let mut files = Vec::new(alloc);
    made(&SALT, text.as_slice(), &mut files, 0, 0);
    made(&[7; 19], text.as_slice(), &mut files, 0, 0);
    Ok((text, files))
}

// The first of two files.
pub fn first(files: &[u8]) -> &[u8] {
    files.get(..FILE).unwrap_or(&[])
}

// What is wrong with a damaged file, and how much text comes before it.
static DAMAGED: [(Change, Damage, usize); 27] = [
    (Cut(0), NotSealed, 0),
    (Cut(1), NotSealed, 0),
    (Cut(12), CutHeader, 0),
    (Cut(31), CutHeader, 0),
    (Cut(32), WrongEnd(0), 0),
    (Cut(33), WrongEnd(0), 0),
    (Cut(48), WrongEnd(0), 0),
    (Cut(65583), WrongEnd(0), 0),
    (Cut(65584), WrongEnd(0), 0),
    (Cut(65585), WrongEnd(1), 65536),
    (Cut(196688), WrongEnd(2), 131072),
    (Cut(200095), WrongEnd(3), 196608),
    (Turned(0), NotSealed, 0),
    (Turned(11), NotSealed, 0),
    (Turned(12), OtherVersion, 0),
    (Turned(13), WrongChunk(0), 0),
    (Turned(32), WrongChunk(0), 0),
    (Turned(65583), WrongChunk(0), 0),
    (Turned(65584), WrongChunk(1), 65536),
    (Turned(196688), WrongEnd(3), 196608),
    (Turned(200095), WrongEnd(3), 196608),
    (Has("h1023"), WrongChunk(0), 0),
    (Has("h023"), WrongChunk(1), 65536),
    (Has("h00123"), WrongChunk(1), 65536),
    (Has("h0x23"), WrongChunk(1), 65536),
    (Has("h01233"), WrongEnd(3), 196608),
    (Has("h0123h0123"), WrongChunk(3), 196608),
];

// Reads up to the end or the first damage, and then what is there.
fn read_all(file: &[u8], text: &mut Vec<u8>) -> Result<(), RangeError> {
    let mut buf = [0; BUFFER];
    let mut reader = SealedReader::new(&KEY, file, &mut buf)?;
    let kind = reader.read_to_end(text).map_err(|e| e.kind());
    if kind == Err(ErrorKind::InvalidData) {
        reader.read_at(text.len() as u64, &mut [0])?;
    }
    Ok(())
}

// Whether `decrypt` finds this damage behind this text, and a reader the same or, at once, a wrong end.
fn is_found(alloc: Global, file: &[u8], damage: Damage, front: &[u8]) -> bool {
    let (mut written, mut read) = (Vec::new(alloc), Vec::new(alloc));
    let end = WrongEnd(file.len().saturating_sub(33) as u64 / 65552);
    let said = of_range(read_all(file, &mut read));
    (opened(file, &mut written, 0, 0) == Said::Damaged(damage))
        & (written.as_slice() == front)
        & (((said == Said::Damaged(damage)) & (read.as_slice() == front))
            | ((said == Said::Damaged(end)) & read.is_empty()))
}

#[test]
fn damaged_files_are_refused(rt: HostRuntime) -> Result<(), Fail> {
    let (text, files) = two_files(rt.alloc())?;
    for (change, damage, written) in &DAMAGED {
        let file = changed(rt.alloc(), files.as_slice(), *change)?;
        let front = text.get(..*written).unwrap_or(&[]);
        let found = is_found(rt.alloc(), file.as_slice(), *damage, front);
        assert!(rt; found, "{change:?}");
    }
    Ok(())
}

// Calls in which a reader and a writer fail, and what is said.
static FAILURES: [(u32, u32, Said); 7] = [
    (0, 0, Said::Done),
    (1, 0, Said::Read),
    (40, 0, Said::Read),
    (100, 0, Said::Read),
    (0, 1, Said::Write),
    (0, 40, Said::Write),
    (0, 100, Said::Write),
];

// Whether `encrypt` and `decrypt` say this, and write a front of the file and of the text.
fn tell(alloc: Global, text: &[u8], file: &[u8], read: u32, write: u32, said: Said) -> bool {
    let (mut sealed, mut back) = (Vec::new(alloc), Vec::new(alloc));
    (made(&SALT, text, &mut sealed, read, write) == said)
        & (opened(file, &mut back, read, write) == said)
        & file.starts_with(sealed.as_slice())
        & text.starts_with(back.as_slice())
}

#[test]
fn failures_are_told(rt: HostRuntime) -> Result<(), Fail> {
    let (text, files) = two_files(rt.alloc())?;
    let (text, file) = (text.as_slice(), first(files.as_slice()));
    for (read, write, said) in &FAILURES {
        let right = tell(rt.alloc(), text, file, *read, *write, *said);
        assert!(rt; right, "{read} {write}");
    }
    Ok(())
}

// Salts differ, and neither file has 8 bytes of the key that stand together in it.
#[test]
fn salts_are_random(rt: HostRuntime) -> Result<(), Fail> {
    let mut buf = [1; BUFFER];
    let (mut one, mut two) = (Vec::new(rt.alloc()), Vec::new(rt.alloc()));
    encrypt(&rt, &KEY, &mut &b"text"[..], &mut one, &mut buf)?;
    encrypt(&rt, &KEY, &mut &b"text"[..], &mut two, &mut buf)?;
    let (one, two) = (one.as_slice(), two.as_slice());
    let salt = salt_of(one)?;
    let mut again = Vec::new(rt.alloc());
    encrypt_with_salt(&salt, &KEY, &mut &b"text"[..], &mut again, &mut buf)?;
    assert!(rt; (one.len() == 52) & (salt != salt_of(two)?) & (again.as_slice() == one));
    assert!(rt; buf.iter().all(|byte| *byte == 0));
    for part in KEY.windows(8) {
        let is_there = [one, two]
            .iter()
            .any(|file| file.windows(8).any(|it| it == part));
        assert!(rt; !is_there);
    }
    Ok(())
}

fn copied(file: &[u8], text: &mut Vec<u8>) -> io::Result<()> {
    decrypt(&KEY, &mut &file[..], text, &mut [0; BUFFER])?;
    Ok(())
}

// By `?`, in a program that returns an `io::Error`.
#[test]
fn errors_are_printed(rt: HostRuntime) -> Result<(), Fail> {
    let mut text = Vec::new(rt.alloc());
    let Err(e) = copied(MADE[2], &mut text) else {
        return Err(Fail::from("no damage"));
    };
    let said = format!(in rt.alloc(); "{e}")?;
    assert!(rt; (e.kind() == ErrorKind::InvalidData) & (said.as_str() == "not a sealed file"));
    for damage in [
        WrongChunk(1),
        WrongChunk(u64::MAX >> 16),
        WrongEnd(2),
        CutHeader,
    ] {
        let same = format!(in rt.alloc(); "{}", io::Error::from(damage))?;
        let said = format!(in rt.alloc(); "{damage}")?;
        assert!(rt; same == said);
        assert!(rt; format!(in rt.alloc(); "{}", DecryptError::Damaged(damage))? == said);
    }
    Ok(())
}

#[test]
fn a_salt_is_needed(rt: HostRuntime) {
    let mut file = Vec::new(rt.alloc());
    let said = made(b"eighteen bytes are", b"text", &mut file, 0, 0);
    assert!(rt; (said == Said::Random) & file.is_empty());
}
