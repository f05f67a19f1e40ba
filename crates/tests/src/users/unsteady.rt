//! A reader, writer or file that takes few bytes in a call, is interrupted and fails.

use sealed_file::ReadAt;
use std::cell::Cell;
use std::io::{self, ErrorKind, Read, Write};

// It takes at most `most` bytes in a call, is interrupted in the first call and each third after it, and fails in the
// call with the number `fails`, where the first is 1. A reader gives one more byte after its end.
#[derive(Drop)]
pub struct Unsteady<T> {
    pub inner: T,
    most: usize,
    fails: u32,
    pub kind: ErrorKind,
    pub calls: Cell<u32>,
    ended: bool,
}

impl<T> Unsteady<T> {
    pub fn new(inner: T, most: usize, fails: u32) -> Unsteady<T> {
        Unsteady {
            inner,
            most,
            fails,
            kind: ErrorKind::BrokenPipe,
            calls: Cell::new(0),
            ended: false,
        }
    }

    fn step(&self) -> io::Result<()> {
        let call = self.calls.get().saturating_add(1);
        self.calls.set(call);
        if call == self.fails {
            Err(io::Error::from(self.kind))
        } else if call % 3 == 1 {
            Err(io::Error::from(ErrorKind::Interrupted))
        } else {
            Ok(())
        }
    }
}

impl<R: Read> Read for Unsteady<R> {
    fn read(&mut self, buf: &mut [u8]) -> io::Result<usize> {
        self.step()?;
        let len = buf.len().min(self.most);
        if self.ended {
            return Ok(len.min(1));
        }
        let n = self.inner.read(&mut buf[..len])?;
        self.ended = n < len.min(1);
        Ok(n)
    }
}

impl<W: Write> Write for Unsteady<W> {
    fn write(&mut self, buf: &[u8]) -> io::Result<usize> {
        self.step()?;
        let len = buf.len().min(self.most);
        self.inner.write(&buf[..len])
    }

    fn flush(&mut self) -> io::Result<()> {
        self.inner.flush()
    }
}

impl<F: ReadAt> ReadAt for &Unsteady<F> {
    fn size(&self) -> io::Result<u64> {
        self.step()?;
        self.inner.size()
    }

    fn read_at(&self, buf: &mut [u8], place: u64) -> io::Result<usize> {
        self.step()?;
        let len = buf.len().min(self.most);
        self.inner.read_at(&mut buf[..len], place)
    }
}
