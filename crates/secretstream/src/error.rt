//! Why a message is refused.

use std::error;
use std::fmt::{self, Display, Formatter};

/// Why a text isn't pushed, or a message isn't pulled. Nothing has changed then.
#[derive(Clone, Copy, Debug, Drop, PartialEq, Eq)]
pub enum Error {
    /// The text has more than 2^38 - 128 bytes: the keystream has no more from block 2 on.
    TooLong,
    /// The bytes are not the next message of any text.
    Forged,
}

impl Display for Error {
    ghost use Rattle.std.specs.Prelude.{Some};
    ghost use Rattle.secretstream.specs.ErrorText.{error_text};

    ghost output = { λ e. Some (error_text e) };

    fn fmt<W: fmt::Write>(&self, f: &mut Formatter<W>) -> fmt::Result {
        match self {
            Error::TooLong => f.write_str("the message is too long"),
            Error::Forged => f.write_str("not the next message of this stream"),
        }
    }
}

impl error::Error for Error {}
