//! Encrypts files so that a change within one is noticed. README.md has the calls and the format.
#![tactic(auto)]

mod calls;
mod failure;
mod files;
mod progress;

use calls::text;
use chacha20::Key;
use clap::ArgMatches;
use failure::{Failed, decrypted, encrypted, fail, part, read, written};
use files::{INPUT, OUTPUT, STANDARD, name_of};
use progress::Progress;
use sealed_file::{BUFFER, RangeError, SealedReader, stream, text_len};
use std::fs::File;
use std::io::{IsTerminal, Read, Write};
use std::process::ExitCode;
use std::{env, fs, io};

// What a sentence calls the words of the call.
const CALL: &str = "the call";

fn main(rt: HostRuntime) -> io::Result<ExitCode> {
    match answer(&rt) {
        Ok(status) => Ok(ExitCode::from(status)),
        Err(Failed) => Ok(ExitCode::FAILURE),
    }
}

// Does what the words of the call ask for, and returns the status.
fn answer(rt: &HostRuntime) -> Result<u8, Failed> {
    let words = read(rt, CALL, words_of(rt))?;
    let command = read(rt, CALL, calls::command(rt.alloc()))?;
    match command.try_get_matches_from(words.as_slice()) {
        Ok(matches) => {
            run(rt, &matches)?;
            Ok(0)
        }
        Err(told) => {
            written(rt, OUTPUT, told.print(rt))?;
            Ok(told.exit_code() as u8)
        }
    }
}

fn words_of(rt: &HostRuntime) -> io::Result<Vec<String>> {
    Ok(env::args(rt)?.collect(rt.alloc())?)
}

fn run(rt: &HostRuntime, matches: &ArgMatches<'_>) -> Result<(), Failed> {
    // There is one: the command demands it.
    let Some((name, call)) = matches.subcommand() else {
        return Ok(());
    };
    let (key, from, to) = (text(call, "KEYFILE"), text(call, "IN"), text(call, "OUT"));
    match name {
        "key" => files::new_key(rt, key),
        "encrypt" => transform(rt, true, key, from, to),
        "decrypt" => transform(rt, false, key, from, to),
        "verify" => verify(rt, key, from),
        _ => {
            let start = call.get_one::<u64>("START").unwrap_or(0);
            cat(rt, key, from, start, call.get_one::<u64>("LEN"))
        }
    }
}

// Reads the key of a call, and fails before if IN is standard input and that is closed: the file that is opened next
// would take its place.
fn secret_of(rt: &HostRuntime, key: &str, from: &str) -> Result<Key, Failed> {
    if from == STANDARD {
        read(rt, INPUT, rt.stdin().read(&mut []))?;
    }
    files::read_key(rt, key)
}

// Encrypts or decrypts IN to standard output, or into a new file beside OUT that it then renames to OUT.
fn transform(
    rt: &HostRuntime,
    encrypts: bool,
    key: &str,
    from: &str,
    to: &str,
) -> Result<(), Failed> {
    if encrypts && to == STANDARD && rt.stdout().is_terminal() {
        let after = " is a terminal, which can't show a sealed file: name a file, or use a pipe";
        return Err(fail(rt, "", OUTPUT, after));
    }
    // Before a file is made, which would take the place of a standard error that is closed.
    let secret = secret_of(rt, key, from)?;
    if to == STANDARD {
        return write(rt, encrypts, &secret, from, to, &mut rt.stdout());
    }
    let mode = files::check_target(rt, key, from, to)?;
    replace(rt, encrypts, &secret, from, to, mode)
}

// Writes the new file and renames it to OUT. After a failure, removes it.
fn replace(
    rt: &HostRuntime,
    encrypts: bool,
    secret: &Key,
    from: &str,
    to: &str,
    mode: Option<u32>,
) -> Result<(), Failed> {
    let path = files::beside(rt, to)?;
    let path = path.as_str();
    let mut file = written(rt, to, files::create(rt, path, mode))?;
    let mut done = write(rt, encrypts, secret, from, to, &mut file);
    if done.is_ok() {
        done = files::rename(rt, &file, path, to, mode);
    }
    if done.is_err() {
        let _ = fs::remove_file(rt, path);
    }
    done
}

fn write<W: Write>(
    rt: &HostRuntime,
    encrypts: bool,
    secret: &Key,
    from: &str,
    to: &str,
    writer: &mut W,
) -> Result<(), Failed> {
    let mut reader = Progress::open(rt, from, to != STANDARD)?;
    let (from, to) = (name_of(from, INPUT), name_of(to, OUTPUT));
    let mut buf = [0; BUFFER];
    if encrypts {
        let done = stream::encrypt(rt, secret, &mut reader, writer, &mut buf);
        encrypted(rt, from, to, done)
    } else {
        let done = stream::decrypt(secret, &mut reader, writer, &mut buf);
        decrypted(rt, from, to, done)
    }
}

// Decrypts all of IN, keeps nothing of it, and prints the length of its text.
fn verify(rt: &HostRuntime, key: &str, from: &str) -> Result<(), Failed> {
    let secret = secret_of(rt, key, from)?;
    let mut reader = Progress::open(rt, from, true)?;
    let mut buf = [0; BUFFER];
    let done = stream::decrypt(&secret, &mut reader, &mut io::sink(), &mut buf);
    decrypted(rt, name_of(from, INPUT), "", done)?;
    let len = text_len(reader.taken());
    written(rt, OUTPUT, println!(rt; "{len}"))
}

// Prints a part of a file's text, up to its end if there is no length.
fn cat(
    rt: &HostRuntime,
    key: &str,
    from: &str,
    start: u64,
    len: Option<u64>,
) -> Result<(), Failed> {
    let secret = files::read_key(rt, key)?;
    let mut buf = [0; BUFFER];
    let file = files::open(rt, from)?;
    let mut reader = match SealedReader::new(&secret, file, &mut buf) {
        Ok(reader) => reader,
        Err(e) => return part(rt, from, Err(RangeError::from(e))),
    };
    let left = reader.text_len().saturating_sub(start);
    print_part(rt, &mut reader, from, start, len.unwrap_or(left))
}

fn print_part(
    rt: &HostRuntime,
    reader: &mut SealedReader<'_, File>,
    from: &str,
    start: u64,
    len: u64,
) -> Result<(), Failed> {
    check_end(rt, from, reader.text_len(), start, len)?;
    let mut writer = io::writer(rt);
    let (mut at, mut left) = (start, len);
    for _ in 0..len {
        if left == 0 {
            break;
        }
        let n = print_piece(rt, reader, from, at, left, &mut writer)?;
        at = at.saturating_add(n);
        left = left.saturating_sub(n);
    }
    written(rt, OUTPUT, writer.flush())
}

// Fails if a part is past the end of a text.
fn check_end(
    rt: &HostRuntime,
    from: &str,
    text_len: u64,
    start: u64,
    len: u64,
) -> Result<(), Failed> {
    if start <= text_len && len <= text_len - start {
        return Ok(());
    }
    let what = "the part ends past the end: by its length, ";
    let _ = eprintln!(rt; "seal: {what}{from} has {text_len} bytes of text");
    Err(Failed)
}

// Prints at most so many bytes of text from a place on, and returns how many.
fn print_piece<W: Write>(
    rt: &HostRuntime,
    reader: &mut SealedReader<'_, File>,
    from: &str,
    at: u64,
    most: u64,
    writer: &mut W,
) -> Result<u64, Failed> {
    let mut piece = [0; 8192];
    let window = &mut piece[..most.min(8192) as usize];
    part(rt, from, reader.read_exact_at(at, window))?;
    written(rt, OUTPUT, stream::write_whole(writer, window))?;
    Ok(window.len() as u64)
}
