//! Bytes as little-endian words (RFC 8439, section 2.3), and the XOR of bytes. Nothing is refused: the caller
//! proves that the lengths fit.

ghost use Rattle.std.specs.Prelude.{◌≡◌, ◌*◌, length, slice_index};
ghost use Rattle.chacha_base.specs.ChaCha.{bytes, words, xor_stream};

/// Writes words as bytes, four for each.
#[inline(always)]
pub fn write_bytes(input: &[u32], output: &mut [u8])
    requires { length output.old ≡ 4 * length input.now }
    ensures { output.new ≡ bytes input.now }
{
    for i in 0..input.len() {
        output[4 * i..4 * i + 4].copy_from_slice(&input[i].to_le_bytes());
    }
}

/// Reads bytes as words, four for each.
#[inline(always)]
pub fn read_words(input: &[u8], output: &mut [u32])
    requires { length input.now ≡ 4 * length output.old }
    ensures { output.new ≡ words input.now }
{
    for i in 0..output.len() {
        let word = [
            input[4 * i],
            input[4 * i + 1],
            input[4 * i + 2],
            input[4 * i + 3],
        ];
        output[i] = u32::from_le_bytes(word);
    }
}

/// XORs bytes with as many others.
#[inline(always)]
pub fn xor_bytes(output: &mut [u8], other: &[u8])
    requires { length output.old ≡ length other.now }
    ensures { output.new ≡ xor_stream (slice_index other.now) 0 output.old }
{
    for i in 0..output.len() {
        output[i] ^= other[i];
    }
}
