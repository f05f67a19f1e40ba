//! Generators over the 49 bytes of a stored state: 32 of seed, then the stream in 8 and the word position in 9, both
//! little-endian. Any bytes are a state; the upper four bits of the last one are ignored, and a call that writes the
//! state clears them. No call fails.
//!
//! A fill makes blocks as ciphers do, at least four at once. The other calls make no block: they read and write the
//! bytes.

ghost use Rattle.std.specs.Prelude.{◌≡◌, ◌<◌, ◌+◌, ◌*◌, ◌/◌, ◌%◌, ◌^◌, length, take, drop, slice_index};
ghost use Rattle.chacha20.specs.Generator.{of_seed, at_word_pos, fill, state_bytes, of_state_bytes};

use crate::legacy::Core;
use crate::stateless;
use chacha20::backends::Lanes8;
use chacha20::state_bytes::{seed_in, stored, stream_in, word_pos_in};
use chacha20::{ChaChaRng, R8, R12, R20, Rounds, Seed, SerializedRngState};

// That of the named generators.
type Backend = Lanes8;

/// Writes the state of a seed: the start of stream 0. `state` and `seed` do not overlap.
#[unsafe(no_mangle)]
pub extern "C" fn chacha20_rng_from_seed(seed: &Seed, state: &mut SerializedRngState)
    ensures value { of_state_bytes state.new ≡ of_seed seed.now }
    ensures stored { state.new ≡ state_bytes (of_state_bytes state.new) }
{
    *state = stored(seed, 0, 0);
}

/// The word position: writes its low 64 bits and, below 16, the rest. The three do not overlap.
#[unsafe(no_mangle)]
pub extern "C" fn chacha20_rng_get_word_pos(
    state: &SerializedRngState,
    low: &mut u64,
    high: &mut u64,
)
    ensures value { low.new + 2 ^ 64 * high.new ≡ (of_state_bytes state.now).word_pos }
    ensures below { high.new < 16 }
{
    let position = word_pos_in(state);
    *low = (position & u128::from(u64::MAX)) as u64;
    *high = (position >> 64) as u64;
}

/// Sets the word position to low + 2^64 * high, modulo 2^68.
#[unsafe(no_mangle)]
pub extern "C" fn chacha20_rng_set_word_pos(state: &mut SerializedRngState, low: u64, high: u64)
    ensures value { of_state_bytes state.new
        ≡ at_word_pos (of_state_bytes state.old) (low + 2 ^ 64 * high) }
    ensures stored { state.new ≡ state_bytes (of_state_bytes state.new) }
{
    *state = stored(&seed_in(state), stream_in(state), joined(low, high));
}

/// The number of the block that the next word lies in.
#[unsafe(no_mangle)]
pub extern "C" fn chacha20_rng_get_block_pos(state: &SerializedRngState) -> u64
    ensures { result ≡ (of_state_bytes state.now).word_pos / 16 }
{
    (word_pos_in(state) / 16) as u64
}

/// Moves to the first word of a block.
#[unsafe(no_mangle)]
pub extern "C" fn chacha20_rng_set_block_pos(state: &mut SerializedRngState, block_pos: u64)
    ensures value { of_state_bytes state.new
        ≡ record (of_state_bytes state.old) { word_pos = 16 * block_pos } }
    ensures stored { state.new ≡ state_bytes (of_state_bytes state.new) }
{
    *state = stored(
        &seed_in(state),
        stream_in(state),
        16 * u128::from(block_pos),
    );
}

/// The stream.
#[unsafe(no_mangle)]
pub extern "C" fn chacha20_rng_get_stream(state: &SerializedRngState) -> u64
    ensures { result ≡ (of_state_bytes state.now).stream }
{
    stream_in(state)
}

/// Moves to the first word of a stream; the seed stays.
#[unsafe(no_mangle)]
pub extern "C" fn chacha20_rng_set_stream(state: &mut SerializedRngState, stream: u64)
    ensures value { of_state_bytes state.new
        ≡ record (of_state_bytes state.old) { stream = stream; word_pos = 0 } }
    ensures stored { state.new ≡ state_bytes (of_state_bytes state.new) }
{
    *state = stored(&seed_in(state), stream, 0);
}

/// Fills `output` with the bytes of the next words of `ChaCha20Rng`, each little-endian (this crate). The bytes of the
/// last word that `output` has no room for are lost; no bytes take no word. `output` and `state` do not overlap.
#[unsafe(no_mangle)]
pub extern "C" fn chacha20_rng_fill(state: &mut SerializedRngState, output: &mut [u8])
    ensures bytes { output.new ≡ (fill 10 (of_state_bytes state.old) (length output.old)).0 }
    ensures moved { of_state_bytes state.new
        ≡ (fill 10 (of_state_bytes state.old) (length output.old)).1 }
    ensures stored { state.new ≡ state_bytes (of_state_bytes state.new) }
{
    // The bytes of words are a keystream, and the engine of ciphers makes many blocks at once. The generator itself
    // makes words past the last position.
    let (seed, stream, position) = (seed_in(state), stream_in(state), word_pos_in(state));
    let nonce = stream.to_le_bytes();
    if stateless::write_keystream::<Core>(&seed, &nonce, 4 * position, output) == 0 {
        *state = stored(&seed, stream, position + output.len().div_ceil(4) as u128);
    } else {
        fill_bytes::<R20>(state, output);
    }
}

/// `chacha20_rng_fill` of `ChaCha12Rng`, which has six double rounds. All other calls take its states too.
#[unsafe(no_mangle)]
pub extern "C" fn chacha12_rng_fill(state: &mut SerializedRngState, output: &mut [u8])
    ensures bytes { output.new ≡ (fill 6 (of_state_bytes state.old) (length output.old)).0 }
    ensures moved { of_state_bytes state.new
        ≡ (fill 6 (of_state_bytes state.old) (length output.old)).1 }
    ensures stored { state.new ≡ state_bytes (of_state_bytes state.new) }
{
    fill_bytes::<R12>(state, output);
}

/// `chacha20_rng_fill` of `ChaCha8Rng`, which has four double rounds. All other calls take its states too.
#[unsafe(no_mangle)]
pub extern "C" fn chacha8_rng_fill(state: &mut SerializedRngState, output: &mut [u8])
    ensures bytes { output.new ≡ (fill 4 (of_state_bytes state.old) (length output.old)).0 }
    ensures moved { of_state_bytes state.new
        ≡ (fill 4 (of_state_bytes state.old) (length output.old)).1 }
    ensures stored { state.new ≡ state_bytes (of_state_bytes state.new) }
{
    fill_bytes::<R8>(state, output);
}

// A fill by the generator itself, which is then stored.
fn fill_bytes<R: Rounds>(state: &mut SerializedRngState, output: &mut [u8])
    ensures bytes { output.new
        ≡ (fill R.COUNT (of_state_bytes state.old) (length output.old)).0 }
    ensures moved { of_state_bytes state.new
        ≡ (fill R.COUNT (of_state_bytes state.old) (length output.old)).1 }
    ensures stored { state.new ≡ state_bytes (of_state_bytes state.new) }
{
    let mut rng = ChaChaRng::<R, Backend>::deserialize_state(state);
    rng.fill_bytes(output);
    *state = rng.serialize_state();
}

// The number whose halves are two numbers of 64 bits.
fn joined(low: u64, high: u64) -> u128
    ensures { result ≡ low + 2 ^ 64 * high }
{
    (u128::from(high) << 64) + u128::from(low)
}
