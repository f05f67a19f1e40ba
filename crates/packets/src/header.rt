//! The header of a packet, and its nonce.

ghost use Rattle.std.specs.Prelude.{◌≡◌, ◌<◌, ◌≤◌, ◌↔◌, ◌^◌, ℕ, List, length, take, drop, IsSome, IfSome};
ghost use Rattle.packets.specs.Packets.{header_of, nonce_of, packet_of, index_of, counter_of, IsTransportData};

use chacha20poly1305::Nonce;

/// The index in a packet, by which a program that has several receivers finds the one that should try it. `None`
/// exactly where it has fewer than 32 bytes or another type. The index isn't authenticated.
#[tactic(auto, unfolding(crate::specs::Packets::index_of, crate::specs::Packets::packet_of))]
pub fn index_of(packet: &[u8]) -> Option<u32>
    ensures is_some { IsSome result ↔ IsTransportData packet.now }
    ensures index { IfSome result (λ index. index ≡ index_of packet.now) }
    // It comes back as the sender's caller gave it.
    ensures sent { (key : List ℕ) (index n : ℕ) (text : List ℕ) → index < 2 ^ 32
        → packet.now ≡ packet_of key index n text → IfSome result (λ i. i ≡ index) }
{
    if packet.len() < 32 || !packet.starts_with(&[4, 0, 0, 0]) {
        return None;
    }
    let mut bytes = [0; 4];
    bytes.copy_from_slice(&packet[4..8]);
    Some(u32::from_le_bytes(bytes))
}

/// The counter in a packet.
#[tactic(auto, unfolding(crate::specs::Packets::counter_of))]
pub fn counter_of(packet: &[u8]) -> u64
    requires { 16 ≤ length packet.now }
    ensures { result ≡ counter_of packet.now }
{
    let mut bytes = [0; 8];
    bytes.copy_from_slice(&packet[8..16]);
    u64::from_le_bytes(bytes)
}

/// The header with an index and a counter.
pub fn header_of(index: u32, counter: u64) -> [u8; 16]
    ensures { result ≡ header_of index counter }
{
    let mut header = [0; 16];
    header[0] = 4;
    header[4..8].copy_from_slice(&index.to_le_bytes());
    header[8..].copy_from_slice(&counter.to_le_bytes());
    header
}

/// The nonce of the packet with this counter. No other counter has it.
pub fn nonce_of(counter: u64) -> Nonce
    ensures value { result ≡ nonce_of counter }
    ensures distinct { (n : ℕ) → n < 2 ^ 64 → nonce_of n ≡ result → n ≡ counter }
{
    let mut nonce = [0; 12];
    nonce[4..].copy_from_slice(&counter.to_le_bytes());
    nonce
}
