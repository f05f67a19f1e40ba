//! A message that is encrypted piece by piece. Its bytes become what one call for all of them would make. A bare cipher
//! doesn't authenticate, and a nonce serves 2^38 bytes (256 GiB): for long or authenticated messages take
//! `sealed_file`, chunk by chunk.
//!
//! `apply_keystream` returns no `Result`, so it requires that the bytes end within the limit, the end of the keystream.
//! A function that calls it requires the same (`fits`), or asks the cipher first by `check_remaining`.
//! `C.position cipher.old` is the position of the cipher's next byte before the call. `C.fixed` is all of the cipher
//! but its position: its key and its nonce. Its blocks, in order, are the keystream.
//!
//! In `proofs/pieces`, `Invariants.antt` says what holds before each turn of the loop, and `Answers.antt` why it still
//! holds after it.

ghost use Rattle.std.specs.Prelude.{◌≡◌, ◌≤◌, ◌<◌, ◌+◌, length};
ghost use Rattle.chacha20.specs.ChaCha.{keystream, xor_stream};
ghost use Rattle.chacha20.specs.Cipher.{limit_of};

use chacha20::cipher::StreamCipher;

/// XORs bytes with the keystream in pieces of `size` bytes, of which the last may be shorter. The bytes
/// and the cipher become those of one call for all bytes. The caller proves that these end within the limit.
pub fn apply_in_pieces<C: StreamCipher>(cipher: &mut C, bytes: &mut [u8], size: usize)
    requires some { 0 < size }
    requires fits { C.position cipher.old + length bytes.old ≤ limit_of C.modulus }
    ensures bytes { bytes.new ≡ xor_stream (keystream C.modulus (C.block_at (C.fixed cipher.old)))
        (C.position cipher.old) bytes.old }
    ensures fixed { C.fixed cipher.new ≡ C.fixed cipher.old }
    ensures position { C.position cipher.new ≡ C.position cipher.old + length bytes.old }
{
    let mut done = 0;
    'pieces: while done < bytes.len() {
        let end = done + size.min(bytes.len() - done);
        cipher.apply_keystream(&mut bytes[done..end]);
        done = end;
    }
}
