//! The ChaCha stream ciphers, and seekable generators of random words over the same block function.
//!
//! ```text
//! use chacha20::ChaCha20;
//! use chacha20::cipher::{KeyIvInit, StreamCipher};
//!
//! let mut message = *b"attack at dawn";
//! let mut cipher = ChaCha20::new(&key, &nonce);
//! cipher.try_apply_keystream(&mut message)?;
//! ```
//!
//! Decryption is the same call. No two messages under one key may have the same nonce, and nothing here authenticates a
//! message. Keys and seeds have 32 bytes, blocks 64; the first block has counter 0.
//!
//! | type | rounds | nonce | a stream has |
//! |---|---|---|---|
//! | `ChaCha20` (RFC 8439), `ChaCha12`, `ChaCha8` | 20, 12, 8 | 12 bytes | 64 * 2^32 bytes |
//! | `XChaCha20` (draft-irtf-cfrg-xchacha), `XChaCha12`, `XChaCha8` | 20, 12, 8 | 24 bytes | 64 * 2^32 bytes |
//! | `ChaCha20Legacy` | 20 | 8 bytes | 64 * 2^64 bytes |
//! | `ChaCha20Rng`, `ChaCha12Rng`, `ChaCha8Rng` | 20, 12, 8 | a number of 64 bits | 2^68 words, then it repeats |
//!
//! The clauses of a call say what it does. Those of ciphers are in `cipher::StreamCipher` and
//! `cipher::StreamCipherSeek`, those of generators at the calls of `ChaChaRng`. The tests are in the crate
//! `tests`, since a crate that has tests is proved twice.
#![tactic(auto)]

mod chacha;
mod chacha_core;
mod facts;
mod legacy;
mod rng;
pub mod runs;
pub mod state_bytes;
mod xchacha;

pub use chacha::{ChaCha8, ChaCha12, ChaCha20, Key, Nonce};
pub use chacha_base::backends::{Columns8, Lanes4, Lanes8, Lanes16, Rows8, Soft};
pub use chacha_base::cipher::{
    BlockSizeUser, IvSizeUser, KeyIvInit, KeySizeUser, Keystream, OverflowError, ParBlocksSizeUser,
    RngBackend, SeekNum, StreamCipher, StreamCipherBackend, StreamCipherCore, StreamCipherError,
    StreamCipherSeek, StreamCipherSeekCore,
};
pub use chacha_base::rounds::{R8, R12, R20, Rounds, Steps};
pub use chacha_base::variants::{Ietf, Legacy, StreamCipherCounter, Variant};
pub use chacha_base::wrapper::StreamCipherCoreWrapper;
pub use chacha_base::{backends, cipher, variants};
pub use chacha_core::{ChaChaCore, Generator};
pub use legacy::{ChaCha20Legacy, ChaCha20LegacyCore, LegacyNonce};
pub use rand_core;
pub use rng::{ChaCha8Rng, ChaCha12Rng, ChaCha20Rng, ChaChaRng, Seed, SerializedRngState};
pub use runs::{CipherAnswer, CipherCall, RngAnswer, RngCall, run_cipher, run_rng};
pub use xchacha::{XChaCha8, XChaCha12, XChaCha20, XChaChaCore, XNonce, hchacha, subkey, subnonce};
