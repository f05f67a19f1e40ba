//! Files that are read from any place.

ghost use Rattle.std.specs.Prelude.{◌≡◌, ◌<◌, ◌≤◌, ◌+◌, ◌^◌, ℕ, List, Bool, true, false, Some, None, length, take, drop, IsFalse, IsOk, IfOk, IfSome};
ghost use Rattle.std.specs.declared.option.Option.{Option};
ghost use Rattle.std.specs.Io.{ReadsAtMost};

use crate::error::IoError;
use std::fs::File;
use std::io::{self, ErrorKind, Seek, SeekFrom};
use std::os::unix::fs::FileExt;

/// Bytes that are read from any place, and stay as they are: a slice, a `File`, or a type of your own.
pub trait ReadAt {
    /// All the bytes, where they are known.
    ghost bytes: { Self → Option (List ℕ) } = { λ _. None };

    /// Whether a call may fail.
    ghost may_fail: { Self → Bool } = { λ _. true };

    /// How many bytes there are.
    fn size(&self) -> io::Result<u64>
        ensures value { IfOk result (λ n. IfSome (bytes self.now) (λ all. n ≡ length all)) }
        ensures fails { IsFalse (may_fail self.now) → IsOk result };

    /// Reads from byte `place` on into the start of `buf`, and returns how many bytes came: 0 only at the end, or for
    /// an empty `buf`.
    fn read_at(&self, buf: &mut [u8], place: u64) -> io::Result<usize>
        ensures bound { ReadsAtMost result buf.new }
        ensures read { IfOk result (λ n. IfSome (bytes self.now) (λ all.
            take n buf.new ≡ take n (drop place all))) }
        ensures end { IfOk result (λ n. n ≡ 0 → 0 < length buf.old →
            IfSome (bytes self.now) (λ all. length all ≤ place)) }
        ensures fails { IsFalse (may_fail self.now) → IsOk result };
}

impl ReadAt for &[u8] {
    ghost bytes = { λ file. Some file.now };

    ghost may_fail = { λ _. false };

    fn size(&self) -> io::Result<u64> {
        Ok(self.len() as u64)
    }

    fn read_at(&self, buf: &mut [u8], place: u64) -> io::Result<usize> {
        let from = place.min(self.len() as u64) as usize;
        let size = buf.len().min(self.len() - from);
        buf[..size].copy_from_slice(&self[from..from + size]);
        Ok(size)
    }
}

impl ReadAt for File {
    fn size(&self) -> io::Result<u64> {
        let mut file = self;
        file.seek(SeekFrom::End(0))
    }

    fn read_at(&self, buf: &mut [u8], place: u64) -> io::Result<usize> {
        FileExt::read_at(self, buf, place)
    }
}

/// Reads from byte `place` on until the buffer is full or the file ends, and returns how many bytes came. A read that a
/// signal interrupts is repeated.
pub(crate) fn fill_at<R: ReadAt>(file: &R, buf: &mut [u8], place: u64) -> Result<usize, IoError>
    requires { place + length buf.old < 2 ^ 64 }
    ensures bound { IfOk result (λ n. n ≤ length buf.old) }
    ensures read { IfOk result (λ n. IfSome (R.bytes file.now) (λ all.
        take n buf.new ≡ take (length buf.old) (drop place all))) }
    ensures fails { IsFalse (R.may_fail file.now) → IsOk result }
{
    let mut at = 0;
    'reads: for tries in 0..u64::MAX {
        if at >= buf.len() {
            return Ok(at);
        }
        match file.read_at(&mut buf[at..], place + at as u64) {
            Ok(0) => return Ok(at),
            Ok(n) => at += n,
            Err(e) => {
                if let Some(e) = IoError::new(e) {
                    return Err(e);
                }
            }
        }
    }
    if at >= buf.len() {
        return Ok(at);
    }
    Err(IoError::timed_out())
}
