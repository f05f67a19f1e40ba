//! The side that decrypts, in any order.

ghost use Rattle.std.specs.Prelude.{◌≡◌, ◌≢◌, ◌<◌, ◌≤◌, ◌+◌, ◌↔◌, ◌^◌, ℕ, List, length, take, drop, replicate, IsOk, IfOk, IsErrOf, OnOk, OnErr};
ghost use Rattle.packets.specs.Packets.{packet_of, counter_of, IsPacket, Fits, IsOpen, IsLast, taken};

use crate::error::ReceiveError;
use crate::header::{counter_of, index_of, nonce_of};
use chacha20poly1305::{ChaCha20Poly1305, Error, Key};
use std::marker::Model;

/// Decrypts the packets of a sender, in any order and each once.
#[derive(Drop)]
pub struct Receiver {
    key: Key,
    // The greatest counter that each slot has taken plus 1, or 0.
    slots: [u64; 64],
}

impl Model for Receiver {
    ghost use Rattle.packets.specs.Packets.{Inbox};

    ghost Value = { Inbox };

    ghost view = { λ r. record { key = r.key; slots = r.slots } };
}

impl Receiver {
    /// A receiver that has taken no packet. After a restart take a new key: a new receiver accepts once more what an
    /// earlier one has taken.
    pub fn new(key: &Key) -> Self
        ensures { result ≡ record { key = key.now; slots = replicate 64 0 } }
    {
        Receiver {
            key: *key,
            slots: [0; 64],
        }
    }

    /// Decrypts a packet whose counter is open: writes its text to the start of the output, and returns the text's
    /// length, 32 bytes less than the packet's. Any bytes may come, and any number of them. Fails exactly where they
    /// have fewer than 32 bytes, the output is shorter than the text, the counter isn't open or the bytes are not the
    /// packet of any text, and then leaves all as it was.
    pub fn receive(&mut self, packet: &[u8], output: &mut [u8]) -> Result<usize, ReceiveError>
        ensures accepted { IsOk result ↔ (Fits packet.now output.old
            × IsOpen self.old (counter_of packet.now) × IsPacket self.old.key packet.now) }
        // The sender's packet is accepted.
        ensures opens { (index n : ℕ) (text : List ℕ)
            → packet.now ≡ packet_of self.old.key index n text → 64 + length text ≤ 2 ^ 38
            → Fits packet.now output.old → IsOpen self.old (counter_of packet.now) → IsOk result }
        ensures too_short { IsErrOf result ReceiveError.TooShort ↔ (length packet.now < 32) }
        ensures output_too_short { IsErrOf result ReceiveError.OutputTooShort
            ↔ (length output.old + 32 < length packet.now) }
        ensures replayed { IsErrOf result ReceiveError.Replayed
            ↔ (Fits packet.now output.old × IsLast self.old (counter_of packet.now)) }
        ensures too_old { IsErrOf result ReceiveError.TooOld ↔ (Fits packet.now output.old
            × ¬ IsOpen self.old (counter_of packet.now) × ¬ IsLast self.old (counter_of packet.now)) }
        ensures forged { IsErrOf result ReceiveError.Forged ↔ (Fits packet.now output.old
            × IsOpen self.old (counter_of packet.now) × ¬ IsPacket self.old.key packet.now) }
        ensures length { IfOk result (λ len. length packet.now ≡ len + 32) }
        // It is the text that the sender took.
        ensures text { (index n : ℕ) (text : List ℕ)
            → packet.now ≡ packet_of self.old.key index n text
            → IfOk result (λ len. take len output.new ≡ text) }
        ensures rest { IfOk result (λ len. drop len output.new ≡ drop len output.old) }
        // This counter is closed from now on, and no closed one opens.
        ensures replay { OnOk result (¬ IsOpen self.new (counter_of packet.now)) }
        ensures stays { OnOk result ((n : ℕ) → IsOpen self.new n → IsOpen self.old n) }
        // Any other counter that is less than 64 behind this one is as open as before.
        ensures window { OnOk result ((n : ℕ) → n ≢ counter_of packet.now
            → counter_of packet.now < n + 64 → IsOpen self.old n → IsOpen self.new n) }
        ensures taken { OnOk result (self.new ≡ taken self.old (counter_of packet.now)) }
        ensures refused { OnErr result ((self.new ≡ self.old) × (output.new ≡ output.old)) }
    {
        if packet.len() < 32 {
            return Err(ReceiveError::TooShort);
        }
        let len = packet.len() - 32;
        if output.len() < len {
            return Err(ReceiveError::OutputTooShort);
        }
        let counter = counter_of(packet);
        let slot = (counter % 64) as usize;
        let after_last = self.slots[slot];
        if counter < after_last {
            if counter + 1 == after_last {
                return Err(ReceiveError::Replayed);
            }
            return Err(ReceiveError::TooOld);
        }
        if counter == u64::MAX {
            return Err(ReceiveError::TooOld);
        }
        match self.open(packet, &mut output[..len]) {
            Ok(()) => {
                self.slots[slot] = counter + 1;
                Ok(len)
            }
            Err(_) => Err(ReceiveError::Forged),
        }
    }

    // Decrypts a packet, whatever its counter. Fails where the bytes are not the packet of any text: another type
    // counts as a wrong tag.
    fn open(&self, packet: &[u8], output: &mut [u8]) -> Result<(), Error>
        requires { length packet.now ≡ length output.old + 32 }
        ensures accepted { IsOk result ↔ IsPacket self.now.key packet.now }
        ensures opens { (index n : ℕ) (text : List ℕ)
            → packet.now ≡ packet_of self.now.key index n text
            → IsOk result ↔ (64 + length text ≤ 2 ^ 38) }
        ensures text { (index n : ℕ) (text : List ℕ)
            → packet.now ≡ packet_of self.now.key index n text → OnOk result (output.new ≡ text) }
        ensures refused { OnErr result (output.new ≡ output.old) }
    {
        if index_of(packet).is_none() {
            return Err(Error::WrongTag);
        }
        let nonce = nonce_of(counter_of(packet));
        let (_, sealed) = packet.split_at(16);
        ChaCha20Poly1305::new(&self.key).decrypt(&nonce, b"", sealed, output)
    }
}
