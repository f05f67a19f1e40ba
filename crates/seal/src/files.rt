//! Keys and files of the program.

use crate::failure::{Failed, fail, not_random, read, written};
use chacha20::Key;
use key_file::{LINE, key_of, line_of};
use sealed_file::stream;
use std::fs::{File, Metadata, OpenOptions, Permissions};
use std::io::{ErrorKind, Write};
use std::os::unix::fs::{MetadataExt, OpenOptionsExt, PermissionsExt};
use std::random::RandomSource;
use std::{fs, io};

/// IN or OUT of a call that is standard input or output.
pub const STANDARD: &str = "-";

/// What a sentence calls standard input.
pub const INPUT: &str = "standard input";

/// What a sentence calls standard output.
pub const OUTPUT: &str = "standard output";

/// What a sentence calls IN or OUT, with the name of the standard stream that it may be.
pub fn name_of<'a>(path: &'a str, stream: &'a str) -> &'a str {
    if path == STANDARD { stream } else { path }
}

/// Random bytes.
pub fn random<const N: usize>(rt: &HostRuntime) -> Result<[u8; N], Failed> {
    let mut bytes = [0; N];
    not_random(rt, rt.fill_bytes(&mut bytes))?;
    Ok(bytes)
}

/// Writes a new key of 32 random bytes as text, to a file which its owner alone may read, or to standard output.
/// Fails if the file is there.
pub fn new_key(rt: &HostRuntime, path: &str) -> Result<(), Failed> {
    let line = line_of(&random(rt)?);
    if path == STANDARD {
        return written(rt, OUTPUT, rt.stdout().write_all(&line));
    }
    written(rt, path, write_new(rt, path, &line))
}

fn write_new(rt: &HostRuntime, path: &str, bytes: &[u8]) -> io::Result<()> {
    let mut options = OpenOptions::new();
    options.write(true).create_new(true).mode(0o600);
    let mut file = options.open(rt, path)?;
    let done = write_synced(&mut file, bytes);
    if done.is_err() {
        let _ = fs::remove_file(rt, path);
    }
    done
}

fn write_synced(file: &mut File, bytes: &[u8]) -> io::Result<()> {
    file.write_all(bytes)?;
    file.sync_all()
}

/// Reads a key, and warns if others may read it too. Fails if the file isn't a key.
pub fn read_key(rt: &HostRuntime, path: &str) -> Result<Key, Failed> {
    // One byte more than a line that ends with `\r\n`, so that a longer file is noticed.
    let mut bytes = [0; LINE + 2];
    let mut file = open(rt, path)?;
    let len = read(rt, path, stream::fill(&mut file, &mut bytes))?;
    let Some(key) = key_of(&bytes[..len.min(LINE + 2)]) else {
        let after = " holds no key: a key file has exactly 32 bytes, or one line of \
                     seal-key-v1: and 44 characters of base64";
        return Err(fail(rt, "KEYFILE ", path, after));
    };
    let it = read(rt, path, file.metadata())?;
    if it.is_file() && it.mode() & 0o077 != 0 {
        let _ = eprintln!(rt; "seal: warning: others may read or change the key: chmod 600 {path}");
    }
    Ok(key)
}

/// Opens a file to read it.
pub fn open(rt: &HostRuntime, path: &str) -> Result<File, Failed> {
    if path == STANDARD {
        return Err(fail(rt, "", INPUT, " can't be KEYFILE, or the IN of cat"));
    }
    read(rt, path, fs::open(rt, path))
}

/// Fails if `to` exists and is IN or KEYFILE, or not a regular file. Returns its permissions, if it exists.
pub fn check_target(
    rt: &HostRuntime,
    key: &str,
    from: &str,
    to: &str,
) -> Result<Option<u32>, Failed> {
    let there = match fs::metadata(rt, to) {
        Ok(there) => there,
        Err(e) if e.kind() == ErrorKind::NotFound => return Ok(None),
        Err(e) => return written(rt, to, Err(e)),
    };
    if there.is_dir() {
        return Err(fail(rt, "", to, " is a directory"));
    }
    // Links in /dev may lead to a regular file, and a file in their place would be in the way of other programs.
    if !there.is_file() || to.starts_with("/dev/std") || to.starts_with("/dev/fd/") {
        let after = " isn't a regular file; for standard output, give -";
        return Err(fail(rt, "", to, after));
    }
    if is_same(rt, key, &there)? || (from != STANDARD && is_same(rt, from, &there)?) {
        return Err(fail(rt, "OUT ", to, " is the same file as IN or KEYFILE"));
    }
    Ok(Some(there.mode() & 0o777))
}

// Whether a path leads to this file.
fn is_same(rt: &HostRuntime, path: &str, there: &Metadata) -> Result<bool, Failed> {
    let it = read(rt, path, fs::metadata(rt, path))?;
    Ok(it.dev() == there.dev() && it.ino() == there.ino())
}

/// The name of a new file beside `to`: that of `to`, and 16 random digits.
pub fn beside(rt: &HostRuntime, to: &str) -> Result<String, Failed> {
    let number = u64::from_le_bytes(random(rt)?);
    match format!(in rt.alloc(); "{to}.{number:016x}") {
        Ok(path) => Ok(path),
        Err(_) => Err(fail(rt, "out of memory", "", "")),
    }
}

/// Makes a new file with at most these permissions, or with the default ones.
pub fn create(rt: &HostRuntime, path: &str, mode: Option<u32>) -> io::Result<File> {
    let mut options = OpenOptions::new();
    options.write(true).create_new(true);
    options.mode(mode.unwrap_or(0o666)).open(rt, path)
}

/// Puts a finished file in the place of `to`, with its permissions.
pub fn rename(
    rt: &HostRuntime,
    file: &File,
    path: &str,
    to: &str,
    mode: Option<u32>,
) -> Result<(), Failed> {
    if let Some(mode) = mode {
        // The process's mask may have taken some away. Where this fails, they stay away.
        let _ = file.set_permissions(Permissions::from_mode(mode));
    }
    written(rt, to, file.sync_all())?;
    written(rt, to, fs::rename(rt, path, to))
}
