//! Says on standard error why the program stops, in a sentence.

use sealed_file::{DecryptError, EncryptError, RangeError};
use std::fmt::Display;
use std::io;

/// The call failed, and the program has said why.
#[derive(Clone, Copy)]
pub struct Failed;

/// Says a sentence about a word of the call, mostly the name of a file.
pub fn fail(rt: &HostRuntime, before: &str, word: &str, after: &str) -> Failed {
    let _ = eprintln!(rt; "seal: {before}{word}{after}");
    Failed
}

/// Says what the call couldn't do with a file, and the cause.
pub fn fail_at<E: Display>(rt: &HostRuntime, what: &str, path: &str, cause: &E) -> Failed {
    let _ = eprintln!(rt; "seal: {what}{path}: {cause}");
    Failed
}

/// What a read of a file gave.
pub fn read<T, E: Display + Drop>(
    rt: &HostRuntime,
    path: &str,
    done: Result<T, E>,
) -> Result<T, Failed> {
    match done {
        Ok(it) => Ok(it),
        Err(e) => Err(fail_at(rt, "cannot read ", path, &e)),
    }
}

/// What a write of a file gave.
pub fn written<T, E: Display + Drop>(
    rt: &HostRuntime,
    path: &str,
    done: Result<T, E>,
) -> Result<T, Failed> {
    match done {
        Ok(it) => Ok(it),
        Err(e) => Err(fail_at(rt, "cannot write ", path, &e)),
    }
}

/// The system has no random bytes.
pub fn not_random<T>(rt: &HostRuntime, done: io::Result<T>) -> Result<T, Failed> {
    match done {
        Ok(it) => Ok(it),
        Err(e) => Err(fail_at(rt, "the system gives no random bytes", "", &e)),
    }
}

/// What encrypting a file gave.
pub fn encrypted(
    rt: &HostRuntime,
    from: &str,
    to: &str,
    done: Result<(), EncryptError>,
) -> Result<(), Failed> {
    match done {
        Ok(()) => Ok(()),
        Err(EncryptError::Random(e)) => not_random(rt, Err(e)),
        Err(EncryptError::Read(e)) => read(rt, from, Err(e)),
        Err(EncryptError::Write(e)) => written(rt, to, Err(e)),
        Err(e) => Err(fail_at(rt, "", from, &e)),
    }
}

/// What decrypting a file gave.
pub fn decrypted(
    rt: &HostRuntime,
    from: &str,
    to: &str,
    done: Result<(), DecryptError>,
) -> Result<(), Failed> {
    match done {
        Ok(()) => Ok(()),
        Err(DecryptError::Read(e)) => read(rt, from, Err(e)),
        Err(DecryptError::Write(e)) => written(rt, to, Err(e)),
        Err(e) => Err(fail_at(rt, "", from, &e)),
    }
}

/// What a read of a part gave.
pub fn part<T>(rt: &HostRuntime, from: &str, done: Result<T, RangeError>) -> Result<T, Failed> {
    match done {
        Ok(it) => Ok(it),
        Err(RangeError::Read(e)) => read(rt, from, Err(e)),
        Err(e) => Err(fail_at(rt, "", from, &e)),
    }
}
