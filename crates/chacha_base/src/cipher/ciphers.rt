//! The traits of ciphers over bytes.

ghost use Rattle.std.specs.Prelude.{◌≡◌, ◌↔◌, ◌≤◌, ◌+◌, ℕ, length, Some, IsOk, IfOk, OnOk, OnErr, IsSomeAnd, IfSome};
ghost use Rattle.chacha_base.specs.Cipher.{limit_of};
ghost use Rattle.chacha_base.specs.ChaCha.{keystream, xor_stream, stream_part};
ghost use Rattle.chacha_base.specs.Counts.{Bounds, Grows};

use crate::cipher::errors::{OverflowError, StreamCipherError};
use crate::cipher::keystream::Keystream;
use crate::cipher::seek_num::SeekNum;
use crate::rounds::Steps;

// How many bytes are written at a time: as many zeros stay in the L1 cache.
const PIECE: usize = 0x1000;

static ZEROS: [u8; PIECE] = [0; PIECE];

/// A cipher that XORs (exclusive or) bytes with a keystream, from its position on, and moves on past them. Positions
/// and lengths are in bytes; the limit is the greatest position. The keystream is the blocks of the cipher's fixed
/// part in order of counter; `KeyIvInit` ties them to a key and a nonce.
pub trait StreamCipher: Keystream {
    // What an application may count, for its position and its number of bytes.
    ghost cost: { ℕ → ℕ → Bounds };

    /// Whether the cipher can take `len` more bytes: `Err` exactly where they would pass the limit.
    fn check_remaining(&self, len: usize) -> Result<(), StreamCipherError>
        ensures accepted { IsOk result ↔ (Self.position self.now + len ≤ limit_of Self.modulus) }
        ensures within { Self.position self.now ≤ limit_of Self.modulus };

    /// XORs bytes with the keystream, and counts the steps. `Err` exactly where the bytes would pass the
    /// limit; then nothing changes.
    fn try_apply_keystream_counted(
        &mut self,
        buf: &mut [u8],
        steps: &mut Steps,
    ) -> Result<(), StreamCipherError>
        ensures accepted { IsOk result
            ↔ (Self.position self.old + length buf.old ≤ limit_of Self.modulus) }
        ensures bytes { OnOk result (buf.new
            ≡ xor_stream (keystream Self.modulus (Self.block_at (Self.fixed self.old)))
            (Self.position self.old) buf.old) }
        ensures fixed { OnOk result (Self.fixed self.new ≡ Self.fixed self.old) }
        ensures position { OnOk result
            (Self.position self.new ≡ Self.position self.old + length buf.old) }
        ensures steps { OnOk result
            (Grows (cost (Self.position self.old) (length buf.old)) steps.old steps.new) }
        ensures refused { OnErr result
            ((buf.new ≡ buf.old) × (self.new ≡ self.old) × (steps.new ≡ steps.old)) };

    /// XORs bytes with the keystream (RFC 8439, section 2.4). `Err` exactly where the bytes would pass the limit; then
    /// nothing changes. Decryption is the same call.
    ///
    /// ```rust
    /// let mut message = *b"attack at dawn";
    /// ChaCha20::new(key, nonce).try_apply_keystream(&mut message)?;
    /// ChaCha20::new(key, nonce).try_apply_keystream(&mut message)?;
    /// ```
    final fn try_apply_keystream(&mut self, buf: &mut [u8]) -> Result<(), StreamCipherError>
        ensures accepted { IsOk result
            ↔ (Self.position self.old + length buf.old ≤ limit_of Self.modulus) }
        ensures bytes { OnOk result (buf.new
            ≡ xor_stream (keystream Self.modulus (Self.block_at (Self.fixed self.old)))
            (Self.position self.old) buf.old) }
        ensures fixed { OnOk result (Self.fixed self.new ≡ Self.fixed self.old) }
        ensures position { OnOk result
            (Self.position self.new ≡ Self.position self.old + length buf.old) }
        ensures refused { OnErr result ((buf.new ≡ buf.old) × (self.new ≡ self.old)) }
    {
        let mut steps = Steps::new();
        self.try_apply_keystream_counted(buf, &mut steps)
    }

    /// Writes the keystream over the bytes: each becomes the keystream's byte at its position. `Err` exactly where the
    /// bytes would pass the limit; then nothing changes.
    final fn try_write_keystream(&mut self, buf: &mut [u8]) -> Result<(), StreamCipherError>
        ensures accepted { IsOk result
            ↔ (Self.position self.old + length buf.old ≤ limit_of Self.modulus) }
        ensures bytes { OnOk result (buf.new
            ≡ stream_part (keystream Self.modulus (Self.block_at (Self.fixed self.old)))
            (Self.position self.old) (length buf.old)) }
        ensures fixed { OnOk result (Self.fixed self.new ≡ Self.fixed self.old) }
        ensures position { OnOk result
            (Self.position self.new ≡ Self.position self.old + length buf.old) }
        ensures refused { OnErr result ((buf.new ≡ buf.old) × (self.new ≡ self.old)) }
    {
        if let Err(refusal) = self.check_remaining(buf.len()) {
            return Err(refusal);
        }
        let mut done = 0;
        'pieces: while done < buf.len() {
            let end = done + PIECE.min(buf.len() - done);
            self.apply_keystream_b2b(&ZEROS[..end - done], &mut buf[done..end]);
            done = end;
        }
        Ok(())
    }

    /// Writes the input XORed with the keystream into the output (RFC 8439, section 2.4). `Err` exactly where the
    /// lengths differ or the bytes would pass the limit; then nothing changes.
    fn try_apply_keystream_b2b(
        &mut self,
        input: &[u8],
        output: &mut [u8],
    ) -> Result<(), StreamCipherError>
        ensures accepted { IsOk result ↔ ((length input.now ≡ length output.old)
            × (Self.position self.old + length input.now ≤ limit_of Self.modulus)) }
        ensures bytes { OnOk result (output.new
            ≡ xor_stream (keystream Self.modulus (Self.block_at (Self.fixed self.old)))
            (Self.position self.old) input.now) }
        ensures fixed { OnOk result (Self.fixed self.new ≡ Self.fixed self.old) }
        ensures position { OnOk result
            (Self.position self.new ≡ Self.position self.old + length input.now) }
        ensures refused { OnErr result ((output.new ≡ output.old) × (self.new ≡ self.old)) };

    /// XORs bytes with the keystream (RFC 8439, section 2.4). The caller proves that they stay within the limit.
    final fn apply_keystream(&mut self, buf: &mut [u8])
        requires { Self.position self.old + length buf.old ≤ limit_of Self.modulus }
        ensures bytes { buf.new
            ≡ xor_stream (keystream Self.modulus (Self.block_at (Self.fixed self.old)))
            (Self.position self.old) buf.old }
        ensures fixed { Self.fixed self.new ≡ Self.fixed self.old }
        ensures position { Self.position self.new ≡ Self.position self.old + length buf.old }
    {
        self.try_apply_keystream(buf).unwrap()
    }

    /// Writes the keystream over the bytes. The caller proves that they stay within the limit.
    final fn write_keystream(&mut self, buf: &mut [u8])
        requires { Self.position self.old + length buf.old ≤ limit_of Self.modulus }
        ensures bytes { buf.new
            ≡ stream_part (keystream Self.modulus (Self.block_at (Self.fixed self.old)))
            (Self.position self.old) (length buf.old) }
        ensures fixed { Self.fixed self.new ≡ Self.fixed self.old }
        ensures position { Self.position self.new ≡ Self.position self.old + length buf.old }
    {
        self.try_write_keystream(buf).unwrap()
    }

    /// Writes the input XORed with the keystream into the output (RFC 8439, section 2.4). The caller proves that the
    /// lengths are equal and that the bytes stay within the limit.
    final fn apply_keystream_b2b(&mut self, input: &[u8], output: &mut [u8])
        requires same { length input.now ≡ length output.old }
        requires fits { Self.position self.old + length input.now ≤ limit_of Self.modulus }
        ensures bytes { output.new
            ≡ xor_stream (keystream Self.modulus (Self.block_at (Self.fixed self.old)))
            (Self.position self.old) input.now }
        ensures fixed { Self.fixed self.new ≡ Self.fixed self.old }
        ensures position { Self.position self.new ≡ Self.position self.old + length input.now }
    {
        self.try_apply_keystream_b2b(input, output).unwrap()
    }

    ghost first_is: { Self.first_position ≡ 0 };

    // Two ciphers with the same fixed part at the same position are equal.
    ghost determined: { (a b : Self)
        → Self.fixed a ≡ Self.fixed b → Self.position a ≡ Self.position b → a ≡ b };
}

/// A cipher whose position can be read and set. A position counts bytes from the start of the keystream.
pub trait StreamCipherSeek: StreamCipher {
    /// Moves to a position. `Err` exactly where the number is negative or past the limit; then nothing changes. The
    /// limit itself is accepted. To begin with block 1, as the RFC's example of section 2.4.2 does:
    ///
    /// ```rust
    /// cipher.try_seek(64u32)?;
    /// cipher.try_apply_keystream(&mut message)?;
    /// ```
    fn try_seek<T: SeekNum>(&mut self, pos: T) -> Result<(), StreamCipherError>
        ensures accepted { IsOk result
            ↔ IsSomeAnd (T.position pos) (λ p. p ≤ limit_of Self.modulus) }
        ensures fixed { OnOk result (Self.fixed self.new ≡ Self.fixed self.old) }
        ensures position { OnOk result
            (IfSome (T.position pos) (λ p. Self.position self.new ≡ p)) }
        ensures refused { OnErr result (self.new ≡ self.old) };

    /// The position; `Err` exactly where the type cannot represent it.
    fn try_current_pos<T: SeekNum>(&self) -> Result<T, OverflowError>
        ensures accepted { IsOk result ↔ (Self.position self.now ≤ T.greatest) }
        ensures value { IfOk result (λ number. T.position number ≡ Some (Self.position self.now)) }
        ensures within { Self.position self.now ≤ limit_of Self.modulus };

    /// Moves to a position. The caller proves that the number is not negative and within the limit.
    final fn seek<T: SeekNum>(&mut self, pos: T)
        requires { IsSomeAnd (T.position pos) (λ p. p ≤ limit_of Self.modulus) }
        ensures fixed { Self.fixed self.new ≡ Self.fixed self.old }
        ensures position { IfSome (T.position pos) (λ p. Self.position self.new ≡ p) }
    {
        self.try_seek(pos).unwrap()
    }

    /// The position. The caller proves that the type can represent it.
    final fn current_pos<T: SeekNum>(&self) -> T
        requires { Self.position self.now ≤ T.greatest }
        ensures { T.position result ≡ Some (Self.position self.now) }
    {
        self.try_current_pos().unwrap()
    }
}
