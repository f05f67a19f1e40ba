//! Why a call fails.

ghost use Rattle.std.specs.Prelude.{◌≡◌, ◌≢◌, ◌↔◌, codes, Some, None, IsSome, IfSome};
ghost use Rattle.std.specs.IoError.{error_kind};
ghost use Rattle.std.specs.declared.io.ErrorKind.{ErrorKind};
ghost use Rattle.sealed_file.specs.DamageText.{damage_text};
ghost use Rattle.sealed_file.specs.Sealed.{damage_at};
ghost use Rattle.sealed_file.specs.declared.error.Damage.{Damage};

use std::error::Error;
use std::fmt::{Display, Formatter};
use std::io::{ErrorKind, Write};
use std::{fmt, io};

/// What is wrong with a file that isn't a sealed one under the key.
#[derive(Clone, Copy, Debug, PartialEq, Eq)]
pub enum Damage {
    /// It doesn't begin with the magic word, apart from the version.
    NotSealed,
    /// It has another version of the format.
    OtherVersion,
    /// It ends in its header.
    CutHeader,
    /// It is longer than a file of 2^32 chunks.
    TooLong,
    /// The chunk with this number, which others follow, has a wrong tag.
    WrongChunk(u64),
    /// The file ends in or after the chunk with this number, and that isn't a last chunk with a right tag.
    WrongEnd(u64),
}

impl Damage {
    // That of a chunk that isn't right.
    pub(crate) fn of_chunk(number: u64, last: bool) -> Damage
        ensures { result ≡ damage_at number last }
    {
        if last {
            Damage::WrongEnd(number)
        } else {
            Damage::WrongChunk(number)
        }
    }
}

/// The error of a reader, a writer or a file. Its kind isn't `Interrupted`, after which callers would repeat their
/// call: what a signal interrupts is repeated here.
#[derive(Debug, Drop)]
pub struct IoError {
    error: io::Error,
    ghost repeated: { error_kind error ≢ ErrorKind.Interrupted },
}

impl IoError {
    // `None` for a call that is to be repeated.
    pub(crate) fn new(error: io::Error) -> Option<IoError>
        ensures own { IfSome result (λ e. e.error ≡ error) }
        ensures other { error_kind error ≢ ErrorKind.Interrupted → IsSome result }
    {
        if error.kind() == ErrorKind::Interrupted {
            return None;
        }
        Some(IoError { error })
    }

    // As an error that isn't taken for damage.
    pub(crate) fn apart_from_damage(self) -> io::Error
        ensures kind { error_kind result ≢ ErrorKind.InvalidData }
        ensures repeated { error_kind result ≢ ErrorKind.Interrupted }
        ensures own { error_kind self.error ≢ ErrorKind.InvalidData → result ≡ self.error }
    {
        let IoError { error } = self;
        if error.kind() == ErrorKind::InvalidData {
            return io::Error::new(ErrorKind::Other, "the file cannot be read");
        }
        error
    }

    // Of a writer that takes nothing.
    pub(crate) fn write_zero() -> IoError {
        IoError {
            error: io::Error::from(ErrorKind::WriteZero),
        }
    }

    // After 2^64 - 1 calls, at which the loops over calls stop.
    pub(crate) fn timed_out() -> IoError {
        IoError {
            error: io::Error::from(ErrorKind::TimedOut),
        }
    }
}

impl From<IoError> for io::Error {
    ghost from_gives = { λ error result. result ≡ error.error };

    /// The error that the reader, the writer or the file gave.
    fn from(error: IoError) -> io::Error {
        let IoError { error } = error;
        error
    }
}

impl Display for IoError {
    fn fmt<W: fmt::Write>(&self, f: &mut Formatter<W>) -> fmt::Result {
        self.error.fmt(f)
    }
}

impl Display for Damage {
    ghost output = { λ damage. Some (damage_text damage) };

    fn fmt<W: fmt::Write>(&self, f: &mut Formatter<W>) -> fmt::Result {
        match self {
            Damage::NotSealed => f.write_str("not a sealed file"),
            Damage::OtherVersion => f.write_str("sealed in another version of the format"),
            Damage::CutHeader => f.write_str("the file ends in its header"),
            Damage::TooLong => f.write_str("longer than a sealed file can be"),
            Damage::WrongChunk(0) => {
                f.write_str("the key is wrong, or bytes 0 to 65535 of the text are damaged")
            }
            Damage::WrongChunk(number) => {
                let start = u128::from(*number) * 65536;
                let end = start + 65535;
                write!(f, "bytes {start} to {end} of the text are damaged")
            }
            Damage::WrongEnd(0) => {
                f.write_str("the key is wrong, or the text is damaged or cut")
            }
            Damage::WrongEnd(number) => {
                let start = u128::from(*number) * 65536;
                write!(f, "the text from byte {start} on is damaged or cut")
            }
        }
    }
}

impl From<Damage> for io::Error {
    ghost from_gives = { λ _ result. error_kind result ≡ ErrorKind.InvalidData };

    /// An error of the kind `InvalidData`, with the same text.
    fn from(damage: Damage) -> io::Error {
        let mut text = [0; 80];
        let mut rest = &mut text[..];
        let _ = write!(rest, "{damage}");
        let len = 80 - rest.len().min(80);
        let text = str::from_utf8(&text[..len]).unwrap_or("damaged sealed file");
        io::Error::new(ErrorKind::InvalidData, text)
    }
}

/// Why `encrypt` stopped.
#[derive(Debug, Drop)]
pub enum EncryptError {
    /// There are no random bytes.
    Random(io::Error),
    /// The input can't be read, or a chunk takes 2^64 - 1 reads.
    Read(IoError),
    /// The output can't be written, or a chunk takes 2^64 - 1 writes.
    Write(IoError),
    /// The input has more than 2^48 bytes.
    TooLong,
}

/// Why `decrypt` stopped.
#[derive(Debug, Drop)]
pub enum DecryptError {
    /// The input can't be read, or a chunk takes 2^64 - 1 reads.
    Read(IoError),
    /// The output can't be written, or a chunk takes 2^64 - 1 writes.
    Write(IoError),
    /// The input isn't a sealed file under this key.
    Damaged(Damage),
}

/// Why a `SealedReader` didn't read.
#[derive(Debug, Drop)]
pub enum ReadError {
    /// The file can't be read, or a chunk takes 2^64 - 1 reads.
    Read(IoError),
    /// The header or the chunk isn't right.
    Damaged(Damage),
}

/// Why a `SealedReader` didn't read a range.
#[derive(Debug, Drop)]
pub enum RangeError {
    /// The range ends past the end of the text.
    PastEnd,
    /// The file can't be read, or a chunk takes 2^64 - 1 reads.
    Read(IoError),
    /// The header or a chunk of the range isn't right.
    Damaged(Damage),
}

impl Display for EncryptError {
    ghost use Rattle.sealed_file.specs.declared.error.EncryptError.TheVariants.{TooLong};

    ghost output = { λ error. elim error [
      | TooLong ↦ Some (codes
          "the text has more than 2^48 bytes, which no sealed file may have")
      | _ ↦ None
    ] };

    fn fmt<W: fmt::Write>(&self, f: &mut Formatter<W>) -> fmt::Result {
        match self {
            EncryptError::Random(e) => write!(f, "the system gives no random bytes: {e}"),
            EncryptError::Read(e) => write!(f, "cannot read the text: {e}"),
            EncryptError::Write(e) => write!(f, "cannot write the sealed file: {e}"),
            EncryptError::TooLong => {
                f.write_str("the text has more than 2^48 bytes, which no sealed file may have")
            }
        }
    }
}

impl Display for DecryptError {
    ghost use Rattle.sealed_file.specs.declared.error.DecryptError.TheVariants.{Damaged};

    ghost output = { λ error. elim error [
      | Damaged damage ↦ Some (damage_text damage)
      | _ ↦ None
    ] };

    fn fmt<W: fmt::Write>(&self, f: &mut Formatter<W>) -> fmt::Result {
        match self {
            DecryptError::Read(e) => write!(f, "cannot read the sealed file: {e}"),
            DecryptError::Write(e) => write!(f, "cannot write the text: {e}"),
            DecryptError::Damaged(damage) => damage.fmt(f),
        }
    }
}

impl Display for ReadError {
    ghost use Rattle.sealed_file.specs.declared.error.ReadError.TheVariants.{Damaged};

    ghost output = { λ error. elim error [
      | Damaged damage ↦ Some (damage_text damage)
      | _ ↦ None
    ] };

    fn fmt<W: fmt::Write>(&self, f: &mut Formatter<W>) -> fmt::Result {
        match self {
            ReadError::Read(e) => write!(f, "cannot read the sealed file: {e}"),
            ReadError::Damaged(damage) => damage.fmt(f),
        }
    }
}

impl Display for RangeError {
    ghost use Rattle.sealed_file.specs.declared.error.RangeError.TheVariants.{PastEnd, Damaged};

    ghost output = { λ error. elim error [
      | PastEnd ↦ Some (codes "the part ends past the end of the text")
      | Damaged damage ↦ Some (damage_text damage)
      | _ ↦ None
    ] };

    fn fmt<W: fmt::Write>(&self, f: &mut Formatter<W>) -> fmt::Result {
        match self {
            RangeError::PastEnd => f.write_str("the part ends past the end of the text"),
            RangeError::Read(e) => write!(f, "cannot read the sealed file: {e}"),
            RangeError::Damaged(damage) => damage.fmt(f),
        }
    }
}

impl Error for IoError {}

impl Error for Damage {}

impl Error for EncryptError {}

impl Error for DecryptError {}

impl Error for ReadError {}

impl Error for RangeError {}

impl From<EncryptError> for io::Error {
    /// The error that the source, the reader or the writer gave; for a text that is too long, one of the kind
    /// `FileTooLarge`.
    fn from(error: EncryptError) -> io::Error {
        match error {
            EncryptError::Random(e) => e,
            EncryptError::Read(e) | EncryptError::Write(e) => e.into(),
            EncryptError::TooLong => io::Error::from(ErrorKind::FileTooLarge),
        }
    }
}

impl From<DecryptError> for io::Error {
    ghost use Rattle.sealed_file.specs.declared.error.DecryptError.TheVariants.{Damaged};

    ghost from_gives = { λ error result. error_kind result ≡ ErrorKind.InvalidData
        ↔ ((damage : Damage) × (error ≡ Damaged damage)) };

    /// The error that the reader or the writer gave, or one of the kind `InvalidData` with the text of the damage. An
    /// error of a reader or writer that has this kind comes as one of the kind `Other`.
    fn from(error: DecryptError) -> io::Error {
        match error {
            DecryptError::Read(e) | DecryptError::Write(e) => e.apart_from_damage(),
            DecryptError::Damaged(damage) => damage.into(),
        }
    }
}

impl From<ReadError> for io::Error {
    ghost use Rattle.sealed_file.specs.declared.error.ReadError.TheVariants.{Damaged};

    ghost from_gives = { λ error result. error_kind result ≡ ErrorKind.InvalidData
        ↔ ((damage : Damage) × (error ≡ Damaged damage)) };

    /// As that of a [`DecryptError`].
    fn from(error: ReadError) -> io::Error {
        RangeError::from(error).into()
    }
}

impl From<RangeError> for io::Error {
    ghost use Rattle.sealed_file.specs.declared.error.RangeError.TheVariants.{Damaged};

    ghost from_gives = { λ error result. error_kind result ≡ ErrorKind.InvalidData
        ↔ ((damage : Damage) × (error ≡ Damaged damage)) };

    /// As that of a [`DecryptError`]; past the end, one of the kind `UnexpectedEof`.
    fn from(error: RangeError) -> io::Error {
        match error {
            RangeError::PastEnd => io::Error::from(ErrorKind::UnexpectedEof),
            RangeError::Read(e) => e.apart_from_damage(),
            RangeError::Damaged(damage) => damage.into(),
        }
    }
}

impl From<IoError> for ReadError {
    ghost use Rattle.sealed_file.specs.declared.error.ReadError.TheVariants.{Read};

    ghost from_gives = { λ error result. result ≡ Read error };

    fn from(error: IoError) -> ReadError {
        ReadError::Read(error)
    }
}

impl From<Damage> for ReadError {
    ghost use Rattle.sealed_file.specs.declared.error.ReadError.TheVariants.{Damaged};

    ghost from_gives = { λ damage result. result ≡ Damaged damage };

    fn from(damage: Damage) -> ReadError {
        ReadError::Damaged(damage)
    }
}

impl From<ReadError> for RangeError {
    ghost use Rattle.sealed_file.specs.Ranges.{as_range_error};

    ghost from_gives = { λ error result. result ≡ as_range_error error };

    fn from(error: ReadError) -> RangeError {
        match error {
            ReadError::Read(e) => RangeError::Read(e),
            ReadError::Damaged(damage) => RangeError::Damaged(damage),
        }
    }
}
