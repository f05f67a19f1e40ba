//! The 49 bytes of a generator's state, written and read: 32 of seed, then the stream in 8 and the word position in 9,
//! both little-endian (this crate).

ghost use Rattle.std.specs.Prelude.{◌≡◌, ◌<◌, ◌%◌, ◌^◌, length};
ghost use Rattle.std.specs.Int.{w64, from_le_bytes};
ghost use Rattle.chacha20.specs.Generator.{state_bytes, of_state_bytes};

use crate::rng::{Seed, SerializedRngState};

/// How many word positions there are: sixteen words for each of 2^64 blocks.
pub const POSITIONS: u128 = 1 << 68;

// Where a stored state has its stream, its word position, and the position's last byte.
const STREAM_AT: usize = 32;

const POSITION_AT: usize = 40;

const TOP_AT: usize = 48;

/// The state of a seed, a stream and a word position, which counts modulo 2^68.
#[tactic(auto, using(crate::proofs::StateBytesLemmas::two_written_length))]
pub fn stored(seed: &Seed, stream: u64, word_pos: u128) -> SerializedRngState
    ensures value { of_state_bytes result
        ≡ record { seed = seed.now; stream = stream; word_pos = word_pos % 2 ^ 68 } }
    ensures stored { result ≡ state_bytes (of_state_bytes result) }
{
    let position = word_pos % POSITIONS;
    let low = ((position & u128::from(u64::MAX)) as u64).to_le_bytes();
    let mut state = [0; 49];
    state[..STREAM_AT].copy_from_slice(seed);
    state[STREAM_AT..POSITION_AT].copy_from_slice(&stream.to_le_bytes());
    state[POSITION_AT..TOP_AT].copy_from_slice(&low);
    state[TOP_AT] = (position >> 64) as u8;
    state
}

/// The seed of a state.
pub fn seed_in(state: &SerializedRngState) -> Seed
    ensures { result ≡ (of_state_bytes state.now).seed }
{
    let mut seed = [0; 32];
    seed.copy_from_slice(&state[..STREAM_AT]);
    seed
}

/// The stream of a state.
pub fn stream_in(state: &SerializedRngState) -> u64
    ensures { result ≡ (of_state_bytes state.now).stream }
{
    read_u64(&state[STREAM_AT..POSITION_AT])
}

/// The word position of a state. The upper half of the last byte is ignored.
pub fn word_pos_in(state: &SerializedRngState) -> u128
    ensures value { result ≡ (of_state_bytes state.now).word_pos }
    ensures below { result < 2 ^ 68 }
{
    let low = read_u64(&state[POSITION_AT..TOP_AT]);
    (u128::from(state[TOP_AT] % 16) << 64) + u128::from(low)
}

// The little-endian number of 8 bytes.
fn read_u64(bytes: &[u8]) -> u64
    requires { length bytes.now ≡ 8 }
    ensures { result ≡ from_le_bytes w64 bytes.now }
{
    let mut number = [0; 8];
    number.copy_from_slice(bytes);
    u64::from_le_bytes(number)
}
