//! The calls of the command line, with their help.

use clap::{Arg, ArgMatches, Command, value_parser};
use std::alloc::{AllocError, Global};

// With what `clap` adds, at most 24 lines of 80 columns.
const MORE: &str = "\
IN and OUT may be -, standard input or output, but not the IN of cat. OUT is
replaced at the end. After an error it is as it was, and standard output has
the start of the right text. Status 1 tells of an error, 2 of a wrong call.

  seal key my.key
  seal encrypt my.key notes.txt notes.sealed
  tar c photos | seal encrypt my.key - photos.sealed
  seal decrypt my.key photos.sealed - | tar x";

const KEY: &str = "\
Writes a line of text, seal-key-v1: and 32 random bytes as base64. The owner of
the file alone may read it. Fails if KEYFILE exists. KEYFILE - prints the key.
Who has the key can read and forge all that it encrypted.

  seal key my.key";

const ENCRYPT: &str = "\
OUT has 32 bytes more than IN, and 16 for each 65536 bytes, rounded up. It can't
be a terminal.

  seal encrypt my.key notes.txt notes.sealed
  tar c photos | seal encrypt my.key - photos.sealed";

const DECRYPT: &str = "\
Fails if a byte of IN was changed, added or cut. OUT is then as it was; but with
OUT -, the right text before the damage is printed, so wait for the status, 1,
before you use it. In a pipe a shell drops it, unless it has set -o pipefail.

  seal decrypt my.key notes.sealed notes.txt
  seal decrypt my.key photos.sealed - | tar x";

const VERIFY: &str = "\
Fails if a byte of IN was changed, added or cut. Writes no file.

  seal verify my.key photos.sealed";

const CAT: &str = "\
Reads and checks only the chunks of 65536 bytes around the part. Fails if the
text ends before. IN is a file that can be read at any place, so not a pipe.

  seal cat my.key notes.sealed 1000 80";

const INPUT: &str = "The file to read, or - for standard input";

/// The command line.
pub fn command<'a>(alloc: Global) -> Result<Command<'a>, AllocError> {
    let seal = Command::new(alloc, "seal")
        .version("1.0.0")
        .about("Encrypts files, and notices each change when it decrypts them.")
        .after_help(MORE)
        .subcommand_required(true)
        .arg_required_else_help(true);
    let verifies = "Checks all of IN, and prints the length of its text";
    seal.subcommand(key(alloc)?)?
        .subcommand(writes(alloc, "encrypt", "Encrypts IN to OUT", ENCRYPT)?)?
        .subcommand(writes(alloc, "decrypt", "Decrypts IN to OUT", DECRYPT)?)?
        .subcommand(reads(alloc, "verify", verifies, VERIFY, INPUT)?)?
        .subcommand(cat(alloc)?)
}

fn key<'a>(alloc: Global) -> Result<Command<'a>, AllocError> {
    let call = Command::new(alloc, "key").about("Writes a new key to a new file");
    call.after_help(KEY)
        .arg(word(alloc, "KEYFILE", "The new file"))
}

fn cat<'a>(alloc: Global) -> Result<Command<'a>, AllocError> {
    let about = "Prints a part of the text of IN";
    let start = word(
        alloc,
        "START",
        "The first byte of the part; that of the text is 0",
    );
    let len = Arg::new(alloc, "LEN").help("How many bytes; if left out, all to the end");
    reads(alloc, "cat", about, CAT, "The file to read")?
        .arg(start.value_parser(value_parser!(u64)))?
        .arg(len.value_parser(value_parser!(u64)))
}

fn writes<'a>(
    alloc: Global,
    name: &'a str,
    about: &'a str,
    more: &'a str,
) -> Result<Command<'a>, AllocError> {
    let output = "The file to write, or - for standard output";
    reads(alloc, name, about, more, INPUT)?.arg(word(alloc, "OUT", output))
}

// A call that reads IN by a key.
fn reads<'a>(
    alloc: Global,
    name: &'a str,
    about: &'a str,
    more: &'a str,
    input: &'a str,
) -> Result<Command<'a>, AllocError> {
    let key = "What seal key wrote, or a file of exactly 32 bytes";
    let call = Command::new(alloc, name).about(about).after_help(more);
    call.arg(word(alloc, "KEYFILE", key))?
        .arg(word(alloc, "IN", input))
}

// A word that the call must have.
fn word<'a>(alloc: Global, name: &'a str, help: &'a str) -> Arg<'a> {
    Arg::new(alloc, name).required(true).help(help)
}

/// A word of the call, or nothing where it has no such word.
pub fn text<'a>(call: &ArgMatches<'a>, name: &str) -> &'a str {
    call.get_str(name).unwrap_or("")
}
