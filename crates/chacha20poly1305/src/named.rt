//! The AEADs.

use crate::chacha_poly1305::ChaChaPoly1305;
use chacha20::{ChaCha8, ChaCha12, ChaCha20, XChaCha8, XChaCha12, XChaCha20};

/// ChaCha20-Poly1305 (RFC 8439, section 2.8), with a nonce of 12 bytes. A message has at most 2^38 - 64 bytes.
pub type ChaCha20Poly1305 = ChaChaPoly1305<ChaCha20>;

/// XChaCha20-Poly1305 (draft-irtf-cfrg-xchacha, section 2), with a nonce of 24 bytes, long enough to be random. A
/// message has at most 2^38 - 64 bytes.
pub type XChaCha20Poly1305 = ChaChaPoly1305<XChaCha20>;

/// ChaCha20-Poly1305 with 8 rounds (this crate).
pub type ChaCha8Poly1305 = ChaChaPoly1305<ChaCha8>;

/// ChaCha20-Poly1305 with 12 rounds (this crate).
pub type ChaCha12Poly1305 = ChaChaPoly1305<ChaCha12>;

/// XChaCha20-Poly1305 with 8 rounds (this crate).
pub type XChaCha8Poly1305 = ChaChaPoly1305<XChaCha8>;

/// XChaCha20-Poly1305 with 12 rounds (this crate).
pub type XChaCha12Poly1305 = ChaChaPoly1305<XChaCha12>;
