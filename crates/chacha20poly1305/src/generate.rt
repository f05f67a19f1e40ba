//! Random keys and nonces.

use crate::chacha_poly1305::ChaChaPoly1305;
use chacha20::cipher::KeyIvInit;
use chacha20::{Key, XNonce};
use std::io;
use std::random::RandomSource;

// No clause says what the bytes are: the trait `RandomSource` promises nothing of what its call writes.
impl<C> ChaChaPoly1305<C> {
    /// A key of 32 bytes from a source of random bytes, such as the system's, a program's `HostRuntime`. Fails where
    /// the source does, with its error.
    ///
    /// ```rust
    /// let key = XChaCha20Poly1305::generate_key(&rt)?;
    /// let nonce = XChaCha20Poly1305::generate_nonce(&rt)?;
    /// ```
    pub fn generate_key<R: RandomSource>(source: &R) -> io::Result<Key> {
        let mut key = [0; 32];
        source.fill_bytes(&mut key)?;
        Ok(key)
    }
}

impl<C: KeyIvInit<Iv = XNonce>> ChaChaPoly1305<C> {
    /// A nonce of 24 bytes from a source of random bytes. Fails where the source does, with its error. AEADs with
    /// nonces of 12 bytes don't have this call: these are too short to be random.
    pub fn generate_nonce<R: RandomSource>(source: &R) -> io::Result<XNonce> {
        let mut nonce = [0; 24];
        source.fill_bytes(&mut nonce)?;
        Ok(nonce)
    }
}
