//! Sealed files, in which a change is noticed: the STREAM construction over XChaCha20-Poly1305, by chunks of 64 KiB, as
//! `aead::stream` of RustCrypto writes them. [`encrypt`] and [`decrypt`] take any reader and any writer; the program
//! `seal` calls them. `SealedReader` reads any part of the text. `specs/Sealed.antt` has the format, and
//! `specs/Opened.antt` what any bytes open to.
//!
//! `R.remaining reader` is `Some` of the bytes that the reader has left, `W.contents writer` of those that the writer
//! holds, and `R.bytes file` of all those of a file. They are known for slices and `Vec`s; for a `File` they are
//! `None`, and then clauses say nothing of them. `Consumes a b text`: a reader with `a` left gave the text and has `b`
//! left. `Appends a b bytes`: a writer that held `a` took the bytes and holds `b`.
//!
//! The functions are generic, and what they do with a file depends only on what its calls give. Those of a `File` are
//! under no clause; tests show them. A reader, a writer or a file may fail at
//! any time, so no clause says when a call succeeds, but where `may_fail` is false. As for messages, no contract says
//! how hard a tag is to forge.
//!
//! All proofs use only the public contracts, definitions and lemmas of `chacha20poly1305` and `chacha20`.
#![tactic(auto)]

pub mod chunk;
pub mod error;
pub mod file;
pub mod places;
pub mod reader;
pub mod stream;

pub use chunk::{CHUNK, Salt, TAG};
pub use error::{Damage, DecryptError, EncryptError, IoError, RangeError, ReadError};
pub use file::ReadAt;
pub use places::text_len;
pub use reader::SealedReader;
pub use stream::{BUFFER, decrypt, encrypt, encrypt_with_salt};
