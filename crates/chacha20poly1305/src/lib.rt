//! Authenticated encryption: ChaCha20-Poly1305 (RFC 8439, section 2.8) and XChaCha20-Poly1305
//! (draft-irtf-cfrg-xchacha, section 2).
//!
//! ```text
//! use chacha20poly1305::XChaCha20Poly1305;
//!
//! let key = XChaCha20Poly1305::generate_key(&rt)?;
//! let nonce = XChaCha20Poly1305::generate_nonce(&rt)?;
//! let cipher = XChaCha20Poly1305::new(&key);
//! let tag = cipher.encrypt_in_place_detached(&nonce, aad, &mut message)?;
//! cipher.decrypt_in_place_detached(&nonce, aad, &mut message, &tag)?;
//! ```
//!
//! The message is encrypted from block 1 on. The tag covers the associated data, which isn't encrypted, and the
//! ciphertext; its key is the first half of block 0. Send or store nonce, ciphertext and tag. `encrypt` and `decrypt`
//! write from one slice into another, with the tag behind the ciphertext.
//!
//! Contracts say which bytes and which tag encryption makes, and that decryption accepts exactly the right tag,
//! restores the message, and otherwise changes nothing. They don't say how hard a tag is to forge. Never use a nonce
//! twice under one key: the two messages reveal the XOR of their texts, and tags can be forged.
//!
//! The crate `sealed_file` does this for files, chunk by chunk.
//! All proofs use only the public contracts, definitions and lemmas of `chacha20` and `poly1305`.
#![tactic(auto)]

mod chacha_poly1305;
mod error;
mod facts;
mod generate;
mod mac;
mod message;
mod named;

pub use chacha_poly1305::ChaChaPoly1305;
pub use chacha20::{Key, Nonce, XNonce};
pub use error::Error;
pub use named::{
    ChaCha8Poly1305, ChaCha12Poly1305, ChaCha20Poly1305, XChaCha8Poly1305, XChaCha12Poly1305,
    XChaCha20Poly1305,
};
pub use poly1305::Tag;
