//! WireGuard's transport data messages: packets over a transport that loses, doubles and reorders them.
//!
//! ```text
//! use packets::{Receiver, Sender};
//!
//! let mut sender = Sender::new(&key, index);
//! sender.send(text, &mut packet)?;
//!
//! let mut receiver = Receiver::new(&key);
//! let len = receiver.receive(&packet, &mut text)?;
//! ```
//!
//! A packet is a header and a text sealed by ChaCha20-Poly1305 (section 5.4.6 of
//! <https://www.wireguard.com/papers/wireguard.pdf>). The header has 16 bytes: 4, three zeros, the receiver's index in
//! four little-endian bytes, the counter in eight. The nonce is four zeros and the counter, and there is no associated
//! data. WireGuard also pads texts with zeros to a multiple of 16 bytes, and takes another key after two minutes
//! (section 6.2): both are left to the caller.
//!
//! The receiver accepts packets in any order and none twice. It has 64 slots, one for each remainder modulo 64, and a
//! counter is open if it is greater than the last one in its slot. So each packet that is less than 64 behind the
//! newest is accepted, once. A forged packet doesn't move this window.
//!
//! A key serves one sender, and so one direction. Then no nonce comes twice, and there is nothing to store.
//!
//! Contracts say which bytes a packet is, that a receiver accepts bytes if and only if they are a packet with an open
//! counter and the output has room, and that it gives the text that the sender took. They don't say how hard packets
//! are to forge.
//!
//! All proofs use only the public contracts, definitions and lemmas of `chacha20poly1305`, and what it passes on.
#![tactic(auto)]

mod error;
mod header;
mod receiver;
mod sender;

pub use chacha20poly1305::Key;
pub use error::{ReceiveError, SendError};
pub use header::index_of;
pub use receiver::Receiver;
pub use sender::Sender;
