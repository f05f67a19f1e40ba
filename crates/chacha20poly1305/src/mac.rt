//! The tag of a message (RFC 8439, section 2.8).

ghost use Rattle.std.specs.Prelude.{◌≡◌, ◌++◌};
ghost use Rattle.std.specs.Int.{w64, to_le_bytes};
ghost use Rattle.poly1305.specs.Poly1305.{poly1305};
ghost use Rattle.chacha20poly1305.specs.Aead.{mac_text};

use poly1305::{Poly1305, Tag};

/// The tag of associated data and a ciphertext.
pub fn tag_of(mac_key: &[u8; 32], aad: &[u8], ciphertext: &[u8]) -> Tag
    ensures { result ≡ poly1305 mac_key.now (mac_text aad.now ciphertext.now) }
{
    let mut mac = Poly1305::new(mac_key);
    mac.update_padded(aad);
    mac.update_padded(ciphertext);
    mac.update_padded(&lengths(aad.len() as u64, ciphertext.len() as u64));
    mac.finish()
}

// The last block.
fn lengths(aad: u64, ciphertext: u64) -> [u8; 16]
    ensures { result ≡ to_le_bytes w64 aad ++ to_le_bytes w64 ciphertext }
{
    let mut block = [0; 16];
    block[..8].copy_from_slice(&aad.to_le_bytes());
    block[8..].copy_from_slice(&ciphertext.to_le_bytes());
    block
}
