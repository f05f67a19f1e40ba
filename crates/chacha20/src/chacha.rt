//! The ciphers in the layout of RFC 8439, which defines only ChaCha20.

use crate::chacha_core::ChaChaCore;
use chacha_base::backends::Lanes16;
use chacha_base::rounds::{R8, R12, R20};
use chacha_base::variants::Ietf;
use chacha_base::wrapper::StreamCipherCoreWrapper;

/// A key of 32 bytes (RFC 8439, section 2.3).
pub type Key = [u8; 32];

/// A nonce of 12 bytes (RFC 8439, section 2.3). No two messages under one key may have the same one.
pub type Nonce = [u8; 12];

/// ChaCha with four double rounds (this crate), from block 0 on. It takes 2^38 bytes for one key and nonce: 64
/// from each of 2^32 blocks.
pub type ChaCha8 = StreamCipherCoreWrapper<ChaChaCore<R8, Ietf, Lanes16>>;

/// ChaCha with six double rounds (this crate), from block 0 on. It takes 2^38 bytes for one key and nonce: 64
/// from each of 2^32 blocks.
pub type ChaCha12 = StreamCipherCoreWrapper<ChaChaCore<R12, Ietf, Lanes16>>;

/// ChaCha20, with ten double rounds (RFC 8439, section 2.4), from block 0 on. It takes 2^38 bytes for one key
/// and nonce: 64 from each of 2^32 blocks.
pub type ChaCha20 = StreamCipherCoreWrapper<ChaChaCore<R20, Ietf, Lanes16>>;
