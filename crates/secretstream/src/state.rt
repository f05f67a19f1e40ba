//! The state of a stream, which both sides have.

ghost use Rattle.std.specs.Prelude.{◌≡◌, ◌↔◌, ◌≤◌, ◌<◌, ◌+◌, ◌++◌, ◌∷◌, ◌^◌, ℕ, List, length, replicate, slice_index, IsOk, IfOk, OnOk, OnErr, IsErrOf};
ghost use Rattle.std.specs.Int.{w32, to_le_bytes};
ghost use Rattle.chacha20.specs.ChaCha.{ietf, modulus, keystream, xor_stream};
ghost use Rattle.chacha20.specs.State.{state_block};
ghost use Rattle.chacha20poly1305.specs.Aead.{mac_key};
ghost use Rattle.secretstream.specs.Stream.{start, stream_of, message_of, mac_of, IsMessage, after, rekeyed, moved};
ghost use Rattle.secretstream.specs.StateBytes.{state_of};

use crate::error::Error;
use crate::mac::mac_of;
use chacha20::cipher::{KeyIvInit, StreamCipher, StreamCipherBackend};
use chacha20::{ChaChaCore, Ietf, Key, Nonce, R20, StreamCipherCoreWrapper, hchacha};
use poly1305::{Tag, is_equal};
use std::marker::Model;

/// The first 24 bytes of a stream. No other stream under the key may have them; random bytes are enough for that.
pub type Header = [u8; 24];

/// What the next message is made from.
#[derive(Drop)]
pub struct State {
    key: Key,
    counter: u32,
    inner: [u8; 8],
}

impl Model for State {
    ghost use Rattle.secretstream.specs.Stream.{State};

    ghost Value = { State };

    ghost view = { λ s. record { key = s.key; counter = s.counter; inner = s.inner } };
}

impl State {
    /// The first state.
    pub fn start(key: &Key, header: &Header) -> Self
        ensures { result ≡ start key.now header.now }
    {
        let mut input = [0; 16];
        input.copy_from_slice(&header[..16]);
        let mut inner = [0; 8];
        inner.copy_from_slice(&header[16..]);
        State {
            key: hchacha::<R20>(key, &input),
            counter: 1,
            inner,
        }
    }

    /// The state of 44 bytes: the key, the counter, little-endian, and the inner nonce. libsodium's state begins so.
    pub fn from_bytes(bytes: &[u8; 44]) -> Self
        ensures { result ≡ state_of bytes.now }
    {
        let mut key = [0; 32];
        key.copy_from_slice(&bytes[..32]);
        let mut counter = [0; 4];
        counter.copy_from_slice(&bytes[32..36]);
        let mut inner = [0; 8];
        inner.copy_from_slice(&bytes[36..]);
        State {
            key,
            counter: u32::from_le_bytes(counter),
            inner,
        }
    }

    /// The bytes of the state.
    pub fn bytes(&self) -> [u8; 44]
        ensures { state_of result ≡ self.now }
    {
        written(&self.key, self.counter, &self.inner)
    }

    // The cipher of the next message, at block 0.
    fn cipher<B: StreamCipherBackend<R20, Ietf>>(
        &self,
    ) -> StreamCipherCoreWrapper<ChaChaCore<R20, Ietf, B>>
        ensures stream { keystream (modulus ietf) (state_block 10 ietf result.fixed)
            ≡ stream_of self.now }
        ensures start { result.position ≡ 0 }
    {
        StreamCipherCoreWrapper::<ChaChaCore<R20, Ietf, B>>::new(
            &self.key,
            &nonce(self.counter, &self.inner),
        )
    }

    // The cipher of the next message, behind block 1; the MAC's key; and block 1, of which the first byte is combined
    // with this one.
    fn begin<B: StreamCipherBackend<R20, Ietf>>(
        &self,
        byte: u8,
    ) -> (
        StreamCipherCoreWrapper<ChaChaCore<R20, Ietf, B>>,
        [u8; 32],
        [u8; 64],
    )
        ensures stream { keystream (modulus ietf) (state_block 10 ietf result.0.fixed)
            ≡ stream_of self.now }
        ensures position { result.0.position ≡ 128 }
        ensures key { result.1 ≡ mac_key (stream_of self.now) }
        ensures block { result.2 ≡ xor_stream (stream_of self.now) 64 (byte ∷ replicate 63 0) }
    {
        let mut cipher = self.cipher::<B>();
        let mut front = [0; 128];
        front[64] = byte;
        cipher.apply_keystream(&mut front);
        let mut key = [0; 32];
        key.copy_from_slice(&front[..32]);
        let mut block = [0; 64];
        block.copy_from_slice(&front[64..]);
        (cipher, key, block)
    }

    /// Writes the next message of a text, and moves behind it.
    pub fn push<B: StreamCipherBackend<R20, Ietf>>(
        &mut self,
        aad: &[u8],
        tag: u8,
        text: &[u8],
        output: &mut [u8],
    ) -> Result<(), Error>
        requires { length output.old ≡ length text.now + 17 }
        ensures accepted { IsOk result ↔ (128 + length text.now ≤ 2 ^ 38) }
        ensures too_long { IsErrOf result Error.TooLong ↔ (2 ^ 38 < 128 + length text.now) }
        ensures message { OnOk result (output.new ≡ message_of self.old aad.now tag text.now) }
        ensures next { OnOk result (self.new ≡ after self.old aad.now tag text.now) }
        ensures refused { OnErr result ((self.new ≡ self.old) × (output.new ≡ output.old)) }
    {
        let mac = self.seal::<B>(aad, tag, text, output)?;
        self.advance::<B>(&mac, tag);
        Ok(())
    }

    /// Checks a message, writes its text, moves behind it, and returns its tag byte.
    pub fn pull<B: StreamCipherBackend<R20, Ietf>>(
        &mut self,
        aad: &[u8],
        bytes: &[u8],
        output: &mut [u8],
    ) -> Result<u8, Error>
        requires { length bytes.now ≡ length output.old + 17 }
        ensures accepted { IsOk result ↔ IsMessage self.old aad.now bytes.now }
        ensures too_long { IsErrOf result Error.TooLong ↔ (2 ^ 38 < 128 + length output.old) }
        ensures forged { IsErrOf result Error.Forged
            ↔ ((128 + length output.old ≤ 2 ^ 38) × ¬ IsMessage self.old aad.now bytes.now) }
        ensures message { IfOk result (λ tag. bytes.now
            ≡ message_of self.old aad.now tag output.new) }
        ensures next { IfOk result (λ tag. self.new ≡ after self.old aad.now tag output.new) }
        ensures refused { OnErr result ((self.new ≡ self.old) × (output.new ≡ output.old)) }
    {
        match self.open::<B>(aad, bytes, output) {
            Ok(opened) => {
                let (tag, mac) = opened;
                self.advance::<B>(&mac, tag);
                Ok(tag)
            }
            Err(refusal) => Err(refusal),
        }
    }

    // Writes the next message of a text, and returns the MAC's tag.
    fn seal<B: StreamCipherBackend<R20, Ietf>>(
        &self,
        aad: &[u8],
        tag: u8,
        text: &[u8],
        output: &mut [u8],
    ) -> Result<Tag, Error>
        requires { length output.old ≡ length text.now + 17 }
        ensures accepted { IsOk result ↔ (128 + length text.now ≤ 2 ^ 38) }
        ensures too_long { IsErrOf result Error.TooLong ↔ (2 ^ 38 < 128 + length text.now) }
        ensures message { OnOk result (output.new ≡ message_of self.now aad.now tag text.now) }
        ensures mac { IfOk result (λ mac. mac ≡ mac_of self.now aad.now tag text.now) }
        ensures refused { OnErr result (output.new ≡ output.old) }
    {
        let (mut cipher, key, block) = self.begin::<B>(tag);
        if cipher.check_remaining(text.len()).is_err() {
            return Err(Error::TooLong);
        }
        let (first, rest) = output.split_at_mut(1);
        let (ciphertext, end) = rest.split_at_mut(text.len());
        first.copy_from_slice(&block[..1]);
        cipher.apply_keystream_b2b(text, ciphertext);
        let mac = mac_of(&key, aad, &block, ciphertext);
        end.copy_from_slice(&mac);
        Ok(mac)
    }

    // Checks a message, writes its text, and returns its tag byte and the MAC's tag.
    fn open<B: StreamCipherBackend<R20, Ietf>>(
        &self,
        aad: &[u8],
        bytes: &[u8],
        output: &mut [u8],
    ) -> Result<(u8, Tag), Error>
        requires { length bytes.now ≡ length output.old + 17 }
        ensures accepted { IsOk result ↔ IsMessage self.now aad.now bytes.now }
        ensures too_long { IsErrOf result Error.TooLong ↔ (2 ^ 38 < 128 + length output.old) }
        ensures forged { IsErrOf result Error.Forged
            ↔ ((128 + length output.old ≤ 2 ^ 38) × ¬ IsMessage self.now aad.now bytes.now) }
        ensures message { IfOk result (λ r. bytes.now
            ≡ message_of self.now aad.now r.0 output.new) }
        ensures mac { IfOk result (λ r. r.1 ≡ mac_of self.now aad.now r.0 output.new) }
        ensures refused { OnErr result (output.new ≡ output.old) }
    {
        let (first, rest) = bytes.split_at(1);
        let (ciphertext, end) = rest.split_at(output.len());
        let (mut cipher, key, mut block) = self.begin::<B>(first[0]);
        if cipher.check_remaining(ciphertext.len()).is_err() {
            return Err(Error::TooLong);
        }
        let tag = block[0];
        block[0] = first[0];
        let mac = mac_of(&key, aad, &block, ciphertext);
        let mut given = [0; 16];
        given.copy_from_slice(end);
        if !is_equal(&mac, &given) {
            return Err(Error::Forged);
        }
        cipher.apply_keystream_b2b(ciphertext, output);
        Ok((tag, mac))
    }

    // Moves behind a message with this tag byte, from its MAC's tag.
    fn advance<B: StreamCipherBackend<R20, Ietf>>(&mut self, mac: &Tag, tag: u8)
        ensures { self.new ≡ moved self.old mac.now tag }
    {
        self.inner = combined(&self.inner, mac);
        self.counter = self.counter.wrapping_add(1);
        if tag & 2 != 0 || self.counter == 0 {
            self.rekey::<B>();
        }
    }

    /// Takes another key.
    pub fn rekey<B: StreamCipherBackend<R20, Ietf>>(&mut self)
        ensures { self.new ≡ rekeyed self.old }
    {
        let mut bytes = joined(&self.key, &self.inner);
        self.cipher::<B>().apply_keystream(&mut bytes);
        let mut key = [0; 32];
        key.copy_from_slice(&bytes[..32]);
        let mut inner = [0; 8];
        inner.copy_from_slice(&bytes[32..]);
        *self = State {
            key,
            counter: 1,
            inner,
        };
    }
}

// The bytes of a state of these parts. As an argument, the counter is known to have 32 bits.
fn written(key: &Key, counter: u32, inner: &[u8; 8]) -> [u8; 44]
    ensures { state_of result
        ≡ record { key = key.now; counter = counter; inner = inner.now } }
{
    let mut bytes = [0; 44];
    bytes[..32].copy_from_slice(key);
    bytes[32..].copy_from_slice(&nonce(counter, inner));
    bytes
}

// The nonce of the next message.
fn nonce(counter: u32, inner: &[u8; 8]) -> Nonce
    ensures { result ≡ to_le_bytes w32 counter ++ inner.now }
{
    let mut nonce = [0; 12];
    nonce[..4].copy_from_slice(&counter.to_le_bytes());
    nonce[4..].copy_from_slice(inner);
    nonce
}

// The inner nonce, combined with the MAC's tag.
fn combined(inner: &[u8; 8], mac: &Tag) -> [u8; 8]
    ensures { result ≡ xor_stream (slice_index mac.now) 0 inner.now }
{
    let mut bytes = *inner;
    for i in 0..8usize {
        bytes[i] ^= mac[i];
    }
    bytes
}

// What is combined with the keystream.
fn joined(key: &Key, inner: &[u8; 8]) -> [u8; 40]
    ensures bytes { result ≡ key.now ++ inner.now }
    ensures long { length result ≡ 40 }
{
    let mut bytes = [0; 40];
    bytes[..32].copy_from_slice(key);
    bytes[32..].copy_from_slice(inner);
    bytes
}
