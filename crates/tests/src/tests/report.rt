//! What the program prints, and its status: 0 only if all cases are right and the lines could be printed.

use known_answers::check::{ANSWER, Failure};
use known_answers::report::report;
use std::alloc::Global;
use std::cell::Cell;
use std::fmt::Display;
use std::io;
use std::process::ExitCode;

// In the place of the standard output: the lines that are still to be printed. It takes no other line.
#[derive(Drop)]
struct Page {
    alloc: Global,
    expected: Cell<&'static str>,
}

impl Print for Page {
    fn print<D: Display + Drop>(&self, _: D) -> io::Result<()> {
        Err(io::ErrorKind::StorageFull.into())
    }

    fn println<D: Display + Drop>(&self, value: D) -> io::Result<()> {
        let line = format!(in self.alloc; "{value}")?;
        match self.expected.get().split_once('\n') {
            Some((first, rest)) if line.as_str() == first => self.expected.set(rest),
            _ => return Err(io::ErrorKind::StorageFull.into()),
        }
        Ok(())
    }

    fn write_all(&self, _: &[u8]) -> io::Result<()> {
        Ok(())
    }
}

fn page_of(alloc: Global, expected: &'static str) -> Page {
    Page {
        alloc,
        expected: Cell::new(expected),
    }
}

// Whether this status follows from three verdicts, of which the first and the last are as found.
fn ends(page: &Page, found: bool, status: ExitCode) -> bool {
    let outcome = match found {
        true => Ok(()),
        false => Err(Failure {
            title: "",
            line: "",
            fault: ANSWER,
        }),
    };
    let mut verdicts = [None; 32];
    verdicts[1] = Some(outcome);
    verdicts[12] = Some(Ok(()));
    verdicts[23] = Some(outcome);
    let mut ciphertext = [0; 16];
    ciphertext[0] = 0xe4;
    ciphertext[15] = 0x0e;
    let ends_so = report(page, &ciphertext, &verdicts) == status;
    ends_so & page.expected.get().is_empty()
}

const BAD_ROWS: &str = "e400000000000000000000000000000e\nrow 1 bad\nrow 12 ok\nrow 23 bad\n";

const RIGHT_ROWS: &str = "e400000000000000000000000000000e\nrow 1 ok\nrow 12 ok\nrow 23 ok\n";

#[test]
fn lines_and_status(rt: HostRuntime) {
    let found = [
        ends(&page_of(rt.alloc(), BAD_ROWS), false, ExitCode::FAILURE),
        ends(&page_of(rt.alloc(), RIGHT_ROWS), true, ExitCode::SUCCESS),
        ends(&page_of(rt.alloc(), ""), true, ExitCode::FAILURE),
    ];
    assert!(rt; found == [true; 3]);
}
