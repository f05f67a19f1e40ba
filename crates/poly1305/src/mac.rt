//! Poly1305 over a text in pieces.

ghost use Rattle.std.specs.Prelude.{◌≡◌, ◌≤◌, ◌+◌, ◌%◌, ◌++◌, [], ℕ, List, length};
ghost use Rattle.poly1305.specs.Poly1305.{prime, padding, poly1305, after};
ghost use Rattle.poly1305.specs.Limbs.{value_of};
ghost use Rattle.poly1305.specs.Absorbed.{Absorbed};

use crate::accumulator::{Accumulator, absorb, absorb_last, tag};
use crate::bytes::{clamp, copy_behind, padded, read_half, with_zeros};
use crate::groups::absorb_all;
use crate::multiplier::Multiplier;
use crate::tag::Tag;
use std::marker::Model;

/// Poly1305 with a key for one message (RFC 8439, section 2.5). It takes the text in pieces of any lengths.
///
/// Clauses see it as `after key text`: the state of this key after this text.
#[derive(Drop)]
pub struct Poly1305 {
    r: Multiplier,
    s: u128,
    accumulator: Accumulator,
    // The bytes behind the last whole block are the first `filled` of these.
    buffer: [u8; 16],
    filled: usize,
}

impl Model for Poly1305 {
    ghost use Rattle.std.specs.Prelude.{◌≤◌, ◌<◌, ◌%◌, take};
    ghost use Rattle.poly1305.specs.Poly1305.{prime, State};
    ghost use Rattle.poly1305.specs.Limbs.{value_of, r_value};

    ghost Value = { State };

    ghost view = { λ m. record {
      r = r_value m.r;
      s = m.s;
      accumulator = value_of m.accumulator % prime;
      rest = take m.filled m.buffer;
    } };

    ghost invariant = { λ m. (m.accumulator.h2 ≤ 4) × (m.filled < 16) };
}

impl Poly1305 {
    /// Starts with a key of 32 bytes, before any text. No two messages may have the same key.
    #[inline(always)]
    pub fn new(key: &[u8; 32]) -> Self
        ensures { result ≡ after key.now [] }
    {
        Poly1305 {
            r: clamp(read_half(&key[..16])),
            s: read_half(&key[16..]),
            accumulator: Accumulator {
                h0: 0,
                h1: 0,
                h2: 0,
            },
            buffer: [0; 16],
            filled: 0,
        }
    }

    /// Takes the next piece of the text, of any number of bytes.
    pub fn update(&mut self, piece: &[u8])
        ensures { (key text : List ℕ) → self.old ≡ after key text
            → self.new ≡ after key (text ++ piece.now) }
    {
        let mut buffer = self.buffer;
        if piece.len() < 16 - self.filled {
            copy_behind(&mut buffer, self.filled, piece);
            self.buffer = buffer;
            self.filled += piece.len();
            return;
        }
        let (h, rest) = self.absorb_begun(piece);
        self.accumulator = absorb_all(h, self.r, rest);
        let (_, tail) = rest.split_at(rest.len() / 16 * 16);
        copy_behind(&mut buffer, 0, tail);
        self.buffer = buffer;
        self.filled = tail.len();
    }

    /// Takes the next piece of a text that so far has whole blocks of 16 bytes, and then zeros up to a multiple of 16,
    /// as an AEAD pads each of its two parts (RFC 8439, section 2.8).
    #[inline(always)]
    pub fn update_padded(&mut self, piece: &[u8])
        requires { self.old.rest ≡ [] }
        ensures value { (key text : List ℕ) → self.old ≡ after key text
            → self.new ≡ after key (text ++ piece.now ++ padding (length piece.now)) }
        ensures whole { self.new.rest ≡ [] }
    {
        let (_, tail) = piece.split_at(piece.len() / 16 * 16);
        self.accumulator = absorb_all(self.accumulator, self.r, piece);
        if !tail.is_empty() {
            self.accumulator = absorb(self.accumulator, self.r, &with_zeros(tail));
        }
    }

    // The accumulator after the block that the buffer has begun, if any, and the rest of the piece.
    #[inline(always)]
    fn absorb_begun<'p>(&self, piece: &'p [u8]) -> (Accumulator, &'p [u8])
        requires { 16 ≤ length self.now.rest + length piece.now }
        ensures value { (key text : List ℕ) → self.now ≡ after key text
            → Absorbed key (text ++ piece.now) (value_of result.0 % prime) result.1.now }
        ensures small { result.0.h2 ≤ 4 }
    {
        if self.filled == 0 {
            return (self.accumulator, piece);
        }
        let (front, rest) = piece.split_at(16 - self.filled);
        let mut block = self.buffer;
        copy_behind(&mut block, self.filled, front);
        (absorb(self.accumulator, self.r, &block), rest)
    }

    /// The tag of the text.
    #[inline(always)]
    pub fn finish(self) -> Tag
        ensures { (key text : List ℕ) → self ≡ after key text → result ≡ poly1305 key text }
    {
        if self.filled == 0 {
            return tag(self.accumulator, self.s);
        }
        let last = padded(&self.buffer[..self.filled]);
        tag(absorb_last(self.accumulator, self.r, &last), self.s)
    }
}

/// The tag of a whole text, of any number of bytes, under a key of 32 bytes.
pub fn authenticate(key: &[u8; 32], text: &[u8]) -> Tag
    ensures { result ≡ poly1305 key.now text.now }
{
    let mut mac = Poly1305::new(key);
    mac.update(text);
    mac.finish()
}
