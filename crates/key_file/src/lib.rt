//! Keys of 32 bytes as files: the bytes themselves, or a line of text, as the program `seal` writes it.
#![tactic(auto)]

ghost use Rattle.std.specs.Prelude.{◌≡◌, ◌↔◌, ◌++◌, ℕ, List, Some, [], ◌∷◌, length, IfSome, IsTrue};
ghost use Rattle.base64.specs.Engines.{standard};
ghost use Rattle.base64.specs.GeneralPurpose.{encode_of, IsBytes};
ghost use Rattle.key_file.specs.KeyFile.{key_text, IsKeyFile, IsLineEnd};

use base64::engine::general_purpose::STANDARD;

/// The bytes of a line, with its newline.
pub const LINE: usize = 57;

const PREFIX: [u8; 12] = *b"seal-key-v1:";

/// The line of a key: `seal-key-v1:`, 44 characters of base64, a newline.
pub fn line_of(key: &[u8; 32]) -> [u8; LINE]
    ensures { result ≡ key_text key.now ++ 10 ∷ [] }
{
    let mut line = [b'\n'; LINE];
    line[..12].copy_from_slice(&PREFIX);
    let _ = STANDARD.encode_slice(key, &mut line[12..56]);
    line
}

/// The key in a file: its 32 bytes, or those of its line, which may end with `\n`, `\r\n` or neither.
pub fn key_of(file: &[u8]) -> Option<[u8; 32]>
    ensures bytes { length file.now ≡ 32 → result ≡ Some file.now }
    ensures line { (key end : List ℕ) → IsBytes key → length key ≡ 32 → IsLineEnd end
        → file.now ≡ key_text key ++ end → result ≡ Some key }
    ensures only { IfSome result (λ key. IsKeyFile key file.now) }
{
    if file.len() == 32 {
        let mut key = [0; 32];
        key.copy_from_slice(file);
        return Some(key);
    }
    let (text, end) = file.strip_prefix(&PREFIX)?.split_at_checked(44)?;
    if is_line_end(end) {
        decoded(text)
    } else {
        None
    }
}

fn is_line_end(end: &[u8]) -> bool
    ensures { IsTrue result ↔ IsLineEnd end.now }
{
    matches!(end, [] | [b'\n'] | [b'\r', b'\n'])
}

// The bytes that 44 characters of base64 stand for.
fn decoded(text: &[u8]) -> Option<[u8; 32]>
    requires { length text.now ≡ 44 }
    ensures reads { (key : List ℕ) → IsBytes key → length key ≡ 32
        → text.now ≡ encode_of standard key → result ≡ Some key }
    ensures only { IfSome result (λ key. text.now ≡ encode_of standard key) }
{
    // Room for 33 bytes, which as many characters can stand for.
    let mut bytes = [0; 33];
    let Ok(n) = STANDARD.decode_slice_unchecked(text, &mut bytes) else {
        return None;
    };
    if n != 32 {
        return None;
    }
    let mut key = [0; 32];
    key.copy_from_slice(&bytes[..32]);
    Some(key)
}
