//! The AEAD of RFC 8439, section 2.8, over any cipher.

ghost use Rattle.std.specs.Prelude.{◌≡◌, ◌≢◌, ◌<◌, ◌≤◌, ◌+◌, ◌↔◌, ℕ, List, ◌%◌, length, take, drop, IsOk, IfOk, OnOk, OnErr, IsErrOf};
ghost use Rattle.chacha20.specs.ChaCha.{keystream};
ghost use Rattle.chacha20.specs.Cipher.{limit_of};
ghost use Rattle.chacha20poly1305.specs.Aead.{encrypted, poly1305_tag, sealed_message};

use crate::error::Error;
use crate::mac::tag_of;
use crate::message::{FRONT, apply, apply_between, begin, begin_verified, front_len, mac_key};
use chacha20::Key;
use chacha20::cipher::{KeyIvInit, StreamCipher};
use poly1305::Tag;
use std::marker::{Model, PhantomData};

/// The AEAD over a cipher `C`, with a key of 32 bytes (RFC 8439, section 2.8). Clauses see it as its key.
pub struct ChaChaPoly1305<C> {
    key: Key,
    cipher: PhantomData<C>,
}

// By hand, since a derive would demand `Drop` of `C`.
impl<C> Drop for ChaChaPoly1305<C> {
    fn drop(self) {
        let ChaChaPoly1305 { key: _, cipher: _ } = self;
    }
}

impl<C> Model for ChaChaPoly1305<C> {
    ghost use Rattle.std.specs.Prelude.{ℕ, List};

    ghost Value = { List ℕ };

    ghost view = { λ a. a.key };
}

/// What clauses name of an AEAD.
pub trait KeyedStream {
    /// A nonce.
    type Nonce;

    // The keystream of a key and a nonce.
    ghost stream: { List ℕ → Self.Nonce → ℕ → ℕ };
}

impl<C: KeyIvInit<Key = Key>> KeyedStream for ChaChaPoly1305<C> {
    type Nonce = C::Iv;

    ghost stream = { λ key nonce. keystream C.modulus (C.blocks_of key nonce) };
}

impl<C> ChaChaPoly1305<C> {
    /// The AEAD with this key.
    pub fn new(key: &Key) -> Self
        ensures { result ≡ key.now }
    {
        ChaChaPoly1305 {
            key: *key,
            cipher: PhantomData,
        }
    }
}

impl<C: KeyIvInit<Key = Key> + StreamCipher + Drop> ChaChaPoly1305<C> {
    /// Encrypts a message in place, and returns the tag of the associated data `aad` and the ciphertext. Fails if the
    /// message has more bytes than the keystream from block 1 on, and then leaves it as it was.
    pub fn encrypt_in_place_detached(
        &self,
        nonce: &C::Iv,
        aad: &[u8],
        message: &mut [u8],
    ) -> Result<Tag, Error>
        ensures accepted { IsOk result ↔ (64 + length message.old ≤ limit_of C.modulus) }
        ensures too_long { IsErrOf result Error.TooLong
            ↔ (limit_of C.modulus < 64 + length message.old) }
        ensures ciphertext { let stream = ⟦<Self as KeyedStream>⟧.stream self.now nonce.now in
            OnOk result (message.new ≡ encrypted stream message.old) }
        ensures tag { let stream = ⟦<Self as KeyedStream>⟧.stream self.now nonce.now in
            IfOk result (λ tag. tag ≡ poly1305_tag stream aad.now message.new) }
        ensures refused { OnErr result (message.new ≡ message.old) }
    {
        let mut space = [0; FRONT];
        let front = &mut space[..front_len(message.len())];
        let mut cipher = C::new(&self.key, nonce);
        begin(&mut cipher, message, front)?;
        apply(&mut cipher, front, message);
        Ok(tag_of(&mac_key(front), aad, message))
    }

    /// Checks the tag, and decrypts the message in place. Fails if the message is too long or the tag isn't that of
    /// `aad` and the message, and then leaves the message as it was.
    pub fn decrypt_in_place_detached(
        &self,
        nonce: &C::Iv,
        aad: &[u8],
        message: &mut [u8],
        tag: &Tag,
    ) -> Result<(), Error>
        ensures accepted { let stream = ⟦<Self as KeyedStream>⟧.stream self.now nonce.now in
            IsOk result ↔ ((64 + length message.old ≤ limit_of C.modulus)
            × (tag.now ≡ poly1305_tag stream aad.now message.old)) }
        ensures too_long { IsErrOf result Error.TooLong
            ↔ (limit_of C.modulus < 64 + length message.old) }
        ensures wrong_tag { let stream = ⟦<Self as KeyedStream>⟧.stream self.now nonce.now in
            IsErrOf result Error.WrongTag ↔ ((64 + length message.old ≤ limit_of C.modulus)
            × (tag.now ≢ poly1305_tag stream aad.now message.old)) }
        ensures text { let stream = ⟦<Self as KeyedStream>⟧.stream self.now nonce.now in
            OnOk result (message.new ≡ encrypted stream message.old) }
        ensures decrypted { let stream = ⟦<Self as KeyedStream>⟧.stream self.now nonce.now in
            (plaintext : List ℕ) → message.old ≡ encrypted stream plaintext
            → OnOk result (message.new ≡ plaintext) }
        ensures refused { OnErr result (message.new ≡ message.old) }
    {
        let mut space = [0; FRONT];
        let front = &mut space[..front_len(message.len())];
        let mut cipher = C::new(&self.key, nonce);
        begin_verified(&mut cipher, aad, message, tag, front)?;
        apply(&mut cipher, front, message);
        Ok(())
    }

    /// `encrypt_in_place_detached` from a text into an output as long.
    pub fn encrypt_detached(
        &self,
        nonce: &C::Iv,
        aad: &[u8],
        text: &[u8],
        output: &mut [u8],
    ) -> Result<Tag, Error>
        requires { length output.old ≡ length text.now }
        ensures accepted { IsOk result ↔ (64 + length text.now ≤ limit_of C.modulus) }
        ensures too_long { IsErrOf result Error.TooLong
            ↔ (limit_of C.modulus < 64 + length text.now) }
        ensures ciphertext { let stream = ⟦<Self as KeyedStream>⟧.stream self.now nonce.now in
            OnOk result (output.new ≡ encrypted stream text.now) }
        ensures tag { let stream = ⟦<Self as KeyedStream>⟧.stream self.now nonce.now in
            IfOk result (λ tag. tag ≡ poly1305_tag stream aad.now output.new) }
        ensures refused { OnErr result (output.new ≡ output.old) }
    {
        let mut space = [0; FRONT];
        let front = &mut space[..front_len(text.len())];
        let mut cipher = C::new(&self.key, nonce);
        begin(&mut cipher, text, front)?;
        apply_between(&mut cipher, front, text, output);
        Ok(tag_of(&mac_key(front), aad, output))
    }

    /// `decrypt_in_place_detached` from a ciphertext into an output as long.
    pub fn decrypt_detached(
        &self,
        nonce: &C::Iv,
        aad: &[u8],
        ciphertext: &[u8],
        output: &mut [u8],
        tag: &Tag,
    ) -> Result<(), Error>
        requires { length output.old ≡ length ciphertext.now }
        ensures accepted { let stream = ⟦<Self as KeyedStream>⟧.stream self.now nonce.now in
            IsOk result ↔ ((64 + length ciphertext.now ≤ limit_of C.modulus)
            × (tag.now ≡ poly1305_tag stream aad.now ciphertext.now)) }
        ensures too_long { IsErrOf result Error.TooLong
            ↔ (limit_of C.modulus < 64 + length ciphertext.now) }
        ensures wrong_tag { let stream = ⟦<Self as KeyedStream>⟧.stream self.now nonce.now in
            IsErrOf result Error.WrongTag ↔ ((64 + length ciphertext.now ≤ limit_of C.modulus)
            × (tag.now ≢ poly1305_tag stream aad.now ciphertext.now)) }
        ensures text { let stream = ⟦<Self as KeyedStream>⟧.stream self.now nonce.now in
            OnOk result (output.new ≡ encrypted stream ciphertext.now) }
        ensures decrypted { let stream = ⟦<Self as KeyedStream>⟧.stream self.now nonce.now in
            (plaintext : List ℕ) → ciphertext.now ≡ encrypted stream plaintext
            → OnOk result (output.new ≡ plaintext) }
        ensures refused { OnErr result (output.new ≡ output.old) }
    {
        let mut space = [0; FRONT];
        let front = &mut space[..front_len(ciphertext.len())];
        let mut cipher = C::new(&self.key, nonce);
        begin_verified(&mut cipher, aad, ciphertext, tag, front)?;
        apply_between(&mut cipher, front, ciphertext, output);
        Ok(())
    }

    /// Writes the sealed message of a text: the ciphertext, and behind it the tag, 16 bytes. Fails if the text has more
    /// bytes than the keystream from block 1 on, and then leaves the output as it was.
    ///
    /// ```rust
    /// let cipher = ChaCha20Poly1305::new(key);
    /// let mut sealed = [0; 14 + 16];
    /// cipher.encrypt(nonce, b"header", b"attack at dawn", &mut sealed)?;
    /// ```
    pub fn encrypt(
        &self,
        nonce: &C::Iv,
        aad: &[u8],
        text: &[u8],
        output: &mut [u8],
    ) -> Result<(), Error>
        requires { length output.old ≡ length text.now + 16 }
        ensures accepted { IsOk result ↔ (64 + length text.now ≤ limit_of C.modulus) }
        ensures too_long { IsErrOf result Error.TooLong
            ↔ (limit_of C.modulus < 64 + length text.now) }
        ensures sealed { let stream = ⟦<Self as KeyedStream>⟧.stream self.now nonce.now in
            OnOk result (output.new ≡ sealed_message stream aad.now text.now) }
        ensures refused { OnErr result (output.new ≡ output.old) }
    {
        let (ciphertext, place) = output.split_at_mut(text.len());
        let tag = self.encrypt_detached(nonce, aad, text, ciphertext)?;
        place.copy_from_slice(&tag);
        Ok(())
    }

    /// Checks the tag, the last 16 bytes of a sealed message, and writes its text. Fails if the text is too long or the
    /// tag is wrong, and then leaves the output as it was.
    ///
    /// ```rust
    /// let mut text = [0; 14];
    /// cipher.decrypt(nonce, b"header", &sealed, &mut text)?;
    /// ```
    pub fn decrypt(
        &self,
        nonce: &C::Iv,
        aad: &[u8],
        input: &[u8],
        output: &mut [u8],
    ) -> Result<(), Error>
        requires { length input.now ≡ length output.old + 16 }
        ensures accepted { let stream = ⟦<Self as KeyedStream>⟧.stream self.now nonce.now in
            let n = length output.old in
            IsOk result ↔ ((64 + n ≤ limit_of C.modulus)
            × (drop n input.now ≡ poly1305_tag stream aad.now (take n input.now))) }
        ensures too_long { IsErrOf result Error.TooLong
            ↔ (limit_of C.modulus < 64 + length output.old) }
        ensures wrong_tag { let stream = ⟦<Self as KeyedStream>⟧.stream self.now nonce.now in
            let n = length output.old in
            IsErrOf result Error.WrongTag ↔ ((64 + n ≤ limit_of C.modulus)
            × (drop n input.now ≢ poly1305_tag stream aad.now (take n input.now))) }
        ensures text { let stream = ⟦<Self as KeyedStream>⟧.stream self.now nonce.now in
            OnOk result (output.new ≡ encrypted stream (take (length output.old) input.now)) }
        ensures opens { let stream = ⟦<Self as KeyedStream>⟧.stream self.now nonce.now in
            (text : List ℕ) → input.now ≡ sealed_message stream aad.now text
            → IsOk result ↔ (64 + length text ≤ limit_of C.modulus) }
        ensures decrypted { let stream = ⟦<Self as KeyedStream>⟧.stream self.now nonce.now in
            (text : List ℕ) → input.now ≡ sealed_message stream aad.now text
            → OnOk result (output.new ≡ text) }
        ensures refused { OnErr result (output.new ≡ output.old) }
    {
        let (ciphertext, end) = input.split_at(output.len());
        let mut tag = [0; 16];
        tag.copy_from_slice(end);
        self.decrypt_detached(nonce, aad, ciphertext, output, &tag)
    }
}
