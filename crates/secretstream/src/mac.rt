//! The MAC's tag of a message.

ghost use Rattle.std.specs.Prelude.{◌≡◌, ◌++◌, length};
ghost use Rattle.std.specs.Int.{w64, to_le_bytes};
ghost use Rattle.poly1305.specs.Poly1305.{poly1305};
ghost use Rattle.secretstream.specs.Stream.{mac_text};

use poly1305::{Poly1305, Tag};

/// The tag of associated data and a ciphertext, which are the block of the tag byte and the encrypted text.
pub fn mac_of(key: &[u8; 32], aad: &[u8], block: &[u8; 64], text: &[u8]) -> Tag
    ensures { result ≡ poly1305 key.now (mac_text aad.now (block.now ++ text.now)) }
{
    let zeros = [0; 16];
    let mut mac = Poly1305::new(key);
    mac.update(aad);
    mac.update(&zeros[..(16 - aad.len() % 16) % 16]);
    mac.update(block);
    mac.update(text);
    mac.update(&zeros[..text.len() % 16]);
    mac.update(&lengths(aad.len() as u64, 64 + text.len() as u64));
    mac.finish()
}

// The lengths of the associated data and of the ciphertext.
fn lengths(aad: u64, ciphertext: u64) -> [u8; 16]
    ensures { result ≡ to_le_bytes w64 aad ++ to_le_bytes w64 ciphertext }
{
    let mut block = [0; 16];
    block[..8].copy_from_slice(&aad.to_le_bytes());
    block[8..].copy_from_slice(&ciphertext.to_le_bytes());
    block
}
