//! The traits of backends, cores and ciphers, and their errors.

mod backends;
mod ciphers;
mod cores;
mod errors;
mod keystream;
mod seek_num;
mod sizes;

pub use crate::variants::StreamCipherCounter;
pub use crate::wrapper::StreamCipherCoreWrapper;
pub use backends::{RngBackend, StreamCipherBackend};
pub use ciphers::{StreamCipher, StreamCipherSeek};
pub use cores::{StreamCipherCore, StreamCipherSeekCore};
pub use errors::{OverflowError, StreamCipherError};
pub use keystream::{KeyIvInit, Keystream};
pub use seek_num::SeekNum;
pub use sizes::{BlockSizeUser, IvSizeUser, KeySizeUser, ParBlocksSizeUser};
