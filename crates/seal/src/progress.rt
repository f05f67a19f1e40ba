//! A reader that says on a terminal how far it is.

use crate::failure::{Failed, read};
use crate::files::{self, STANDARD};
use std::fs::File;
use std::io::{IsTerminal, Read};
use std::{fs, io};

const STEP: u64 = 1 << 26;

/// Prints a line on standard error, where that is a terminal and the file has a length, after each 64 MiB.
#[derive(Drop)]
pub struct Progress<'a> {
    rt: &'a HostRuntime,
    // IN, or nothing for standard input.
    file: Option<File>,
    // The length of the file, which is 0 for a pipe.
    len: u64,
    read: u64,
    // The next line is due after so many bytes.
    next: u64,
    shows: bool,
}

impl<'a> Progress<'a> {
    /// Opens IN. Where the text goes to standard output, `shows` is false, since both may be the same terminal.
    pub fn open(rt: &'a HostRuntime, from: &str, shows: bool) -> Result<Progress<'a>, Failed> {
        if from == STANDARD {
            return Ok(Progress::new(rt, None, 0, false));
        }
        let len = read(rt, from, fs::metadata(rt, from))?.len();
        let file = files::open(rt, from)?;
        let shows = shows && len > 0 && rt.stderr().is_terminal();
        Ok(Progress::new(rt, Some(file), len, shows))
    }

    fn new(rt: &'a HostRuntime, file: Option<File>, len: u64, shows: bool) -> Progress<'a> {
        Progress {
            rt,
            file,
            len,
            read: 0,
            next: STEP,
            shows,
        }
    }

    /// How many bytes were read.
    pub fn taken(&self) -> u64 {
        self.read
    }

    fn count(&mut self, n: u64) {
        self.read = self.read.saturating_add(n);
        if self.shows && self.read >= self.next {
            self.next = self.next.saturating_add(STEP);
            let last = self.next > self.len;
            show(self.rt, self.read >> 20, self.len >> 20, last);
        }
    }
}

impl Read for Progress<'_> {
    fn read(&mut self, buf: &mut [u8]) -> io::Result<usize> {
        let n = match &mut self.file {
            Some(file) => file.read(buf)?,
            None => self.rt.stdin().read(buf)?,
        };
        self.count(n as u64);
        Ok(n)
    }
}

fn show(rt: &HostRuntime, read_mib: u64, len_mib: u64, last: bool) {
    // `\r`: the next line overwrites this one.
    let _ = eprint!(rt; "{read_mib} of {len_mib} MiB\r");
    if last {
        let _ = eprintln!(rt; "");
    }
}
