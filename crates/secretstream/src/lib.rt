//! libsodium's `crypto_secretstream_xchacha20poly1305`: a stream of messages that are read in the order in which they
//! were written, and an end that can't be cut off unnoticed.
//!
//! ```text
//! use secretstream::{PullStream, PushStream, Tag};
//!
//! let (header, mut sender) = PushStream::init(&rt, &key)?;
//! sender.push(aad, text, Tag::Message, &mut message)?;
//! sender.push(aad, text, Tag::Final, &mut message)?;
//!
//! let mut receiver = PullStream::init(&header, &key);
//! let tag = receiver.pull(aad, &message, &mut text)?;
//! ```
//!
//! Send the header first, 24 random bytes, and then the messages. A message has 17 bytes more than its text: the
//! encrypted tag byte, and 16 bytes of MAC. The receiver accepts only what is the next message of some text, and else
//! moves nowhere. That no one else can make one, by a change, a repetition or a message from further on, is what the
//! MAC is for: contracts don't say how hard that is. A sender ends its stream by `Tag::Final`, once; then the stream is
//! complete exactly if the last message that the receiver accepted had that tag. As in libsodium, neither side stops
//! there by itself.
//!
//! Contracts say which bytes a message is, that a receiver accepts exactly the next message, and which state each
//! call leaves.
//!
//! All proofs use only the public contracts, definitions and lemmas of `chacha20poly1305`, `chacha20` and `poly1305`.
#![tactic(auto)]

mod bytes;
mod error;
mod facts;
mod mac;
mod state;
mod stream;
mod tag;

pub use bytes::{StateBytes, pull_bytes, push_bytes, rekey_bytes, start_bytes};
pub use chacha20poly1305::Key;
pub use error::Error;
pub use state::Header;
pub use stream::{PullStream, PushStream};
pub use tag::Tag;
