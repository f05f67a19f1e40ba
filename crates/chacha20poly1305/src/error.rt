//! Why a message is refused.

use std::error;
use std::fmt::{self, Display, Formatter};

/// Why a message isn't encrypted or decrypted.
#[derive(Clone, Copy, Debug, Drop, PartialEq, Eq)]
pub enum Error {
    /// The message has more bytes than the keystream from block 1 on.
    TooLong,
    /// The tag isn't that of the associated data and the ciphertext.
    WrongTag,
}

impl Display for Error {
    ghost use Rattle.std.specs.Prelude.{Some};
    ghost use Rattle.chacha20poly1305.specs.ErrorText.{error_text};

    ghost output = { λ e. Some (error_text e) };

    fn fmt<W: fmt::Write>(&self, f: &mut Formatter<W>) -> fmt::Result {
        match self {
            Error::TooLong => f.write_str("the message is too long"),
            Error::WrongTag => f.write_str("the tag is wrong"),
        }
    }
}

impl error::Error for Error {}
