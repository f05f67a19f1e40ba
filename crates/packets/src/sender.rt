//! The side that encrypts.

ghost use Rattle.std.specs.Prelude.{◌≡◌, ◌<◌, ◌≤◌, ◌+◌, ◌↔◌, ◌^◌, length, IsOk, IsErrOf, OnOk, OnErr};
ghost use Rattle.packets.specs.Packets.{packet_of, counter_of};

use crate::error::SendError;
use crate::header::{header_of, nonce_of};
use chacha20poly1305::{ChaCha20Poly1305, Key};
use std::marker::Model;

/// Encrypts texts, each as the packet with the next counter.
#[derive(Drop)]
pub struct Sender {
    key: Key,
    index: u32,
    next: u64,
}

impl Model for Sender {
    ghost use Rattle.packets.specs.Packets.{Outbox};

    ghost Value = { Outbox };

    ghost view = { λ s. record { key = s.key; index = s.index; next = s.next } };
}

impl Sender {
    /// A sender that has sent nothing. The index is what the receiver's program has for the receiver. No other sender
    /// may have this key: the other direction has another one, and so has a program that was restarted.
    pub fn new(key: &Key, index: u32) -> Self
        ensures { result ≡ record { key = key.now; index = index; next = 0 } }
    {
        Sender {
            key: *key,
            index,
            next: 0,
        }
    }

    /// The counter of the next packet, and so the number of packets before it.
    pub fn next(&self) -> u64
        ensures { result ≡ self.now.next }
    {
        self.next
    }

    /// Encrypts a text: writes its packet, which has 32 bytes more. Fails where the counters are used up or the text
    /// has more than 2^38 - 64 bytes, and then leaves all as it was.
    pub fn send(&mut self, text: &[u8], packet: &mut [u8]) -> Result<(), SendError>
        requires { length packet.old ≡ length text.now + 32 }
        ensures accepted { IsOk result
            ↔ ((self.old.next + 1 < 2 ^ 64) × (64 + length text.now ≤ 2 ^ 38)) }
        ensures used_up { IsErrOf result SendError.CountersUsedUp ↔ (self.old.next + 1 ≡ 2 ^ 64) }
        ensures too_long { IsErrOf result SendError.TooLong
            ↔ ((self.old.next + 1 < 2 ^ 64) × (2 ^ 38 < 64 + length text.now)) }
        ensures packet { let s = self.old in
            OnOk result (packet.new ≡ packet_of s.key s.index s.next text.now) }
        ensures counter { OnOk result (counter_of packet.new ≡ self.old.next) }
        ensures next { let s = self.old in
            OnOk result (self.new ≡ record s { next = s.next + 1 }) }
        ensures refused { OnErr result ((self.new ≡ self.old) × (packet.new ≡ packet.old)) }
    {
        let after = self.next.checked_add(1).ok_or(SendError::CountersUsedUp)?;
        let (header, sealed) = packet.split_at_mut(16);
        match ChaCha20Poly1305::new(&self.key).encrypt(&nonce_of(self.next), b"", text, sealed) {
            Ok(()) => {
                header.copy_from_slice(&header_of(self.index, self.next));
                self.next = after;
                Ok(())
            }
            Err(_) => Err(SendError::TooLong),
        }
    }
}
