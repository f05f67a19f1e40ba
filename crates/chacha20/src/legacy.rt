//! The cipher in the legacy layout, older than RFC 8439: a counter of 64 bits.

use crate::chacha_core::ChaChaCore;
use chacha_base::backends::Lanes16;
use chacha_base::rounds::R20;
use chacha_base::variants::Legacy;
use chacha_base::wrapper::StreamCipherCoreWrapper;

/// A nonce of 8 bytes. No two messages under one key may have the same one.
pub type LegacyNonce = [u8; 8];

/// The core of `ChaCha20Legacy`: ten double rounds, and a counter of 64 bits in words 12 and 13.
pub type ChaCha20LegacyCore = ChaChaCore<R20, Legacy, Lanes16>;

/// ChaCha20 in the legacy layout, from block 0 on. It takes 1180591620717411303424 bytes for one key and nonce: 64
/// from each of 2^64 blocks.
pub type ChaCha20Legacy = StreamCipherCoreWrapper<ChaCha20LegacyCore>;
