//! Why a text isn't sent, or a packet isn't received. Nothing has changed then.

use std::error::Error;
use std::fmt::{self, Display, Formatter};

/// Why a text isn't sent. Nothing has changed.
#[derive(Clone, Copy, Debug, Drop, PartialEq, Eq)]
pub enum SendError {
    /// All counters below 2^64 - 1 are used: take another key.
    CountersUsedUp,
    /// The text has more than 2^38 - 64 bytes, the most for one nonce.
    TooLong,
}

/// Why a packet isn't received. Nothing has changed.
#[derive(Clone, Copy, Debug, Drop, PartialEq, Eq)]
pub enum ReceiveError {
    /// It has fewer than 32 bytes.
    TooShort,
    /// The output is shorter than the text.
    OutputTooShort,
    /// Its counter was taken before.
    Replayed,
    /// Its counter is 64 or more behind one that was taken, too far to tell whether it was taken itself; or it is
    /// 2^64 - 1, which no sender uses.
    TooOld,
    /// It isn't the packet of any text under this key.
    Forged,
}

impl Display for SendError {
    ghost use Rattle.std.specs.Prelude.{Some};
    ghost use Rattle.packets.specs.ErrorText.{send_error_text};

    ghost output = { λ e. Some (send_error_text e) };

    fn fmt<W: fmt::Write>(&self, f: &mut Formatter<W>) -> fmt::Result {
        match self {
            SendError::CountersUsedUp => f.write_str("all counters are used"),
            SendError::TooLong => f.write_str("the text is too long"),
        }
    }
}

impl Error for SendError {}

impl Display for ReceiveError {
    ghost use Rattle.std.specs.Prelude.{Some};
    ghost use Rattle.packets.specs.ErrorText.{receive_error_text};

    ghost output = { λ e. Some (receive_error_text e) };

    fn fmt<W: fmt::Write>(&self, f: &mut Formatter<W>) -> fmt::Result {
        match self {
            ReceiveError::TooShort => f.write_str("the packet is too short"),
            ReceiveError::OutputTooShort => f.write_str("the output is too short"),
            ReceiveError::Replayed => f.write_str("the packet comes again"),
            ReceiveError::TooOld => f.write_str("the packet is too old"),
            ReceiveError::Forged => f.write_str("not a packet under this key"),
        }
    }
}

impl Error for ReceiveError {}
