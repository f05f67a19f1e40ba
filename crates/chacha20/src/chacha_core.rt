//! A state of sixteen words as a core: its counter, and how a key and a nonce make it. Its blocks are in `engine.rt`.

ghost use Rattle.std.specs.Prelude.{◌≡◌, ◌<◌, ℕ, ◌*◌, List, ◌++◌, replicate, Some};
ghost use Rattle.chacha_base.specs.ChaCha.{ietf, legacy, modulus, constants, start, block, words};
ghost use Rattle.chacha_base.specs.State.{state_counter, fixed_words, state_at, state_block};
ghost use Rattle.chacha20.specs.Text.{core_text};

mod engine;
mod generator_core;

use chacha_base::bytes::read_words;
use chacha_base::cipher::{
    BlockSizeUser, IvSizeUser, KeyIvInit, KeySizeUser, Keystream, ParBlocksSizeUser,
    StreamCipherBackend, StreamCipherSeekCore,
};
use chacha_base::rounds::{R20, Rounds};
use chacha_base::state::{counter, set_counter_in_row};
use chacha_base::variants::{Ietf, Legacy, StreamCipherCounter, Variant};
pub use generator_core::Generator;
pub(crate) use generator_core::joined;
use std::fmt;
use std::marker::{Model, PhantomData};
use std::simd::prelude::*;

const CONSTANTS: [u32; 4] = [0x6170_7865, 0x3320_646e, 0x7962_2d32, 0x6b20_6574];

/// The core of a ChaCha cipher: sixteen words of 32 bits (RFC 8439, section 2.3). Clauses see it as the list of its
/// words. `R` is the number of double rounds, `V` the layout, which says where the counter is, and `B` the backend that
/// makes the blocks.
///
/// In the layout of RFC 8439 `new` makes a core from a key and a nonce for any number of rounds. In the legacy layout
/// it does so only for `R20`, as in the Rust crate; for another number of rounds `from_seed` makes a core, with a nonce
/// of zeros.
pub struct ChaChaCore<R: Rounds, V: Variant, B> {
    state: [u32; 16],
    rounds: PhantomData<R>,
    variant: PhantomData<V>,
    backend: PhantomData<B>,
}

// By hand, since a derive asks `Drop` of each parameter.
impl<R: Rounds, V: Variant, B> Drop for ChaChaCore<R, V, B> {
    fn drop(self) {
        let ChaChaCore {
            state: _,
            rounds: _,
            variant: _,
            backend: _,
        } = self;
    }
}

impl<R: Rounds, V: Variant, B> Model for ChaChaCore<R, V, B> {
    ghost Value = { List ℕ };

    ghost view = { λ core. core.state };
}

impl<R: Rounds, V: Variant, B> ChaChaCore<R, V, B> {
    /// The counter of the next block.
    pub fn get_block_pos(&self) -> V::Counter
        ensures value { V.Counter.value result ≡ state_counter V.layout self.now }
        ensures below { state_counter V.layout self.now < modulus V.layout }
    {
        counter::<V>(&self.state)
    }

    /// Sets the counter of the next block. No counter is refused.
    pub fn set_block_pos(&mut self, pos: V::Counter)
        ensures state { self.new ≡ state_at V.layout (V.Counter.value pos) self.old }
        ensures fixed { fixed_words V.layout self.new ≡ fixed_words V.layout self.old }
        ensures counter { state_counter V.layout self.new ≡ V.Counter.value pos }
    {
        // The backend reads the row as one vector: 64 bytes take 6 to 11 percent less time if it is written as one.
        set_counter_in_row::<V>(&mut self.state, pos);
    }

    /// Sets all sixteen words to zero, the constants and the counter included. Nothing is claimed of other
    /// copies in memory.
    pub fn zeroize(&mut self)
        ensures { self.new ≡ replicate 16 0 }
    {
        self.state = [0; 16];
    }
}

/// The text of the Rust crate, with a parenthesis that closes nothing. It shows no word of the state.
impl<R: Rounds, V: Variant, B> fmt::Debug for ChaChaCore<R, V, B> {
    ghost debug_output = { λ _. Some (core_text R.COUNT V.layout) };

    fn fmt<W: fmt::Write>(&self, f: &mut fmt::Formatter<W>) -> fmt::Result {
        let count = R::COUNT;
        let bits = V::Counter::BITS;
        write!(f, "ChaChaCore<R: {count}, V: {bits}-bit)> {{ ... }}")
    }
}

impl<R: Rounds, V: Variant, B> Keystream for ChaChaCore<R, V, B> {
    ghost fixed = { fixed_words V.layout };

    ghost modulus = { modulus V.layout };

    ghost block_at = { state_block R.COUNT V.layout };

    ghost position = { λ core. 64 * state_counter V.layout core };

    ghost first_position = { 0 };
}

impl<R: Rounds, V: Variant, B> BlockSizeUser for ChaChaCore<R, V, B> {
    ghost BLOCK_SIZE = { 64 };

    const BLOCK_SIZE: usize = 64;
}

impl<R: Rounds, V: Variant, B: ParBlocksSizeUser> ParBlocksSizeUser for ChaChaCore<R, V, B> {
    ghost PAR_BLOCKS = { B.PAR_BLOCKS };

    const PAR_BLOCKS: usize = B::PAR_BLOCKS;

    ghost par_blocks_at_least = { B.par_blocks_at_least };

    ghost par_blocks_at_most = { B.par_blocks_at_most };
}

impl<R: Rounds, B> KeySizeUser for ChaChaCore<R, Ietf, B> {
    ghost KEY_SIZE = { 32 };

    const KEY_SIZE: usize = 32;
}

impl<R: Rounds, B> IvSizeUser for ChaChaCore<R, Ietf, B> {
    ghost IV_SIZE = { 12 };

    const IV_SIZE: usize = 12;
}

impl<R: Rounds, B> KeyIvInit for ChaChaCore<R, Ietf, B> {
    type Key = [u8; 32];

    type Iv = [u8; 12];

    ghost init = { λ key iv. start ietf key iv 0 };

    ghost blocks_of = { block R.COUNT ietf };

    fn new(key: &[u8; 32], iv: &[u8; 12]) -> Self {
        let mut last_row = [0; 4];
        read_words(iv, &mut last_row[1..]);
        ChaChaCore {
            state: start_state(key, &last_row),
            rounds: PhantomData,
            variant: PhantomData,
            backend: PhantomData,
        }
    }
}

impl<B> KeySizeUser for ChaChaCore<R20, Legacy, B> {
    ghost KEY_SIZE = { 32 };

    const KEY_SIZE: usize = 32;
}

impl<B> IvSizeUser for ChaChaCore<R20, Legacy, B> {
    ghost IV_SIZE = { 8 };

    const IV_SIZE: usize = 8;
}

impl<B> KeyIvInit for ChaChaCore<R20, Legacy, B> {
    type Key = [u8; 32];

    type Iv = [u8; 8];

    ghost init = { λ key iv. start legacy key iv 0 };

    ghost blocks_of = { block 10 legacy };

    fn new(key: &[u8; 32], iv: &[u8; 8]) -> Self {
        let mut last_row = [0; 4];
        read_words(iv, &mut last_row[2..]);
        ChaChaCore {
            state: start_state(key, &last_row),
            rounds: PhantomData,
            variant: PhantomData,
            backend: PhantomData,
        }
    }
}

// The state of a key and a last row, which is written as one vector: a backend that reads it as a vector would wait for
// words written one by one.
pub(crate) fn start_state(key: &[u8; 32], last_row: &[u32; 4]) -> [u32; 16]
    ensures { result ≡ constants ++ words key.now ++ last_row.now }
{
    let mut state = [0; 16];
    state[..4].copy_from_slice(&CONSTANTS);
    read_words(key, &mut state[4..12]);
    u32x4::from_slice(last_row).copy_to_slice(&mut state[12..]);
    state
}

impl<R: Rounds, V: Variant, B: StreamCipherBackend<R, V>> StreamCipherSeekCore
    for ChaChaCore<R, V, B> {
    ghost use Rattle.std.proofs.Common.{sym};

    type Counter = V::Counter;

    ghost counters = { sym V.counters };

    fn get_block_pos(&self) -> V::Counter {
        self.get_block_pos()
    }

    fn set_block_pos(&mut self, pos: V::Counter) {
        self.set_block_pos(pos)
    }
}
