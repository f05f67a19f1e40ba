//! Seekable generators of random words (this crate). A generator is a seed, a stream and a position that counts words
//! of 32 bits; the words are those of ChaCha's blocks in the legacy layout.

ghost use Rattle.std.specs.Prelude.{◌≡◌, ◌↔◌, ◌≤◌, ◌<◌, ◌+◌, ◌-◌, ◌*◌, ◌/◌, ◌%◌, ◌^◌, [], ◌∷◌, ◌++◌, length, take, drop, slice_index, Some, IsTrue, codes};
ghost use Rattle.rand_core.specs.Steps.{stream_of};
ghost use Rattle.rand_core.specs.Pcg32Seed.{pcg32_seed};
ghost use Rattle.chacha20.specs.Generator.{at_word_pos, next_u32, next_u64, fill, reads, of_seed, same_generator, state_bytes, of_state_bytes};
ghost use Rattle.chacha20.specs.GeneratorCore.{generator_of, IsUnread};

use crate::chacha_core::{ChaChaCore, Generator, joined};
use crate::state_bytes::{POSITIONS, seed_in, stored, stream_in, word_pos_in};
use chacha_base::backends::Lanes8;
use chacha_base::bytes::write_bytes;
use chacha_base::cipher::RngBackend;
use chacha_base::rounds::{R8, R12, R20, Rounds};
use chacha_base::variants::Legacy;
use rand_core::{CryptoRng, Rng, SeedableRng};
use std::fmt;
use std::marker::Model;

/// The seed of a generator: a key of 32 bytes.
pub type Seed = [u8; 32];

/// The state of a generator: 32 bytes of seed, then 8 bytes of stream and 9 of word position, both little-endian. The
/// word position has 68 bits: in a stored state the upper half of the last byte is 0, and a restored generator doesn't
/// depend on it.
pub type SerializedRngState = [u8; 49];

/// A generator with four double rounds. Like all three, it has 2^68 words of 32 bits a stream.
pub type ChaCha8Rng = ChaChaRng<R8, Lanes8>;

/// A generator with six double rounds.
pub type ChaCha12Rng = ChaChaRng<R12, Lanes8>;

/// A generator with ten double rounds.
pub type ChaCha20Rng = ChaChaRng<R20, Lanes8>;

// Words in a block.
const BLOCK_WORDS: u128 = 16;

// Blocks in a buffer, and their words.
const BUFFER_BLOCKS: u64 = 4;

const BUFFER_WORDS: usize = 64;

/// A generator of random words.
///
/// Clauses see it as a seed, a stream and a word position (`GeneratorState`). A block has 16 words. The word at
/// position w is in the block with counter w div 16, at place w mod 16; the key of all blocks is the seed, and their
/// nonce the stream's 8 little-endian bytes.
/// After the last of a stream's 2^68 words (1 ZiB) comes its first one again. A stream's number has 64 bits. `R` is the
/// number of double rounds, `B` the backend that makes the words. No call is refused.
pub struct ChaChaRng<R: Rounds, B> {
    core: ChaChaCore<R, Legacy, B>,
    // While `index` is below `BUFFER_WORDS`, the buffer holds the words of the last four blocks that the core made, and
    // those before `index` are used.
    buffer: [u32; BUFFER_WORDS],
    index: usize,
}

// By hand, since a derive asks `Drop` of each parameter.
impl<R: Rounds, B> Drop for ChaChaRng<R, B> {
    fn drop(self) {
        let ChaChaRng {
            core: _,
            buffer: _,
            index: _,
        } = self;
    }
}

impl<R: Rounds, B> Model for ChaChaRng<R, B> {
    ghost use Rattle.chacha20.specs.Generator.{GeneratorState};
    ghost use Rattle.chacha20.specs.GeneratorCore.{generator_of, IsUnread};

    ghost Value = { GeneratorState };

    ghost view = { λ rng. generator_of rng.core rng.index };

    ghost invariant = { λ rng. IsUnread R.COUNT rng.core rng.buffer rng.index };
}

impl<R: Rounds, B: RngBackend<R>> ChaChaRng<R, B> {
    /// The generator of a seed, at the start of stream 0. It makes no words yet.
    ///
    /// ```rust
    /// let mut rng = ChaCha20Rng::from_seed([0; 32]);
    /// let word = rng.next_u32();
    /// ```
    pub fn from_seed(seed: Seed) -> Self
        ensures { result ≡ of_seed seed }
    {
        ChaChaRng {
            core: ChaChaCore::from_seed(seed),
            buffer: [0; BUFFER_WORDS],
            index: BUFFER_WORDS,
        }
    }

    /// Takes the next word, of 32 bits.
    #[inline]
    pub fn next_u32(&mut self) -> u32
        ensures value { (result, self.new) ≡ next_u32 R.COUNT self.old }
        ensures kept { (self.new.seed ≡ self.old.seed) × (self.new.stream ≡ self.old.stream) }
        ensures within { self.old.word_pos < 2 ^ 68 }
    {
        refill(&mut self.core, &mut self.buffer, &mut self.index);
        let word = self.buffer[self.index];
        self.index += 1;
        word
    }

    /// Takes the next two words; the first is the low half of the result.
    #[inline]
    pub fn next_u64(&mut self) -> u64
        ensures value { (result, self.new) ≡ next_u64 R.COUNT self.old }
        ensures kept { (self.new.seed ≡ self.old.seed) × (self.new.stream ≡ self.old.stream) }
        ensures within { self.old.word_pos < 2 ^ 68 }
    {
        if self.index < BUFFER_WORDS - 1 {
            let low = self.buffer[self.index];
            let high = self.buffer[self.index + 1];
            self.index += 2;
            joined(low, high)
        } else {
            self.next_u64_across()
        }
    }

    /// Fills a slice with the little-endian bytes of the next words. The bytes of the last word that the slice has no
    /// room for are lost; a fill of no bytes takes no word.
    ///
    /// ```rust
    /// let mut bytes = [0; 32];
    /// rng.fill_bytes(&mut bytes);
    /// ```
    pub fn fill_bytes(&mut self, dst: &mut [u8])
        ensures value { (dst.new, self.new) ≡ fill R.COUNT self.old (length dst.old) }
        ensures kept { (self.new.seed ≡ self.old.seed) × (self.new.stream ≡ self.old.stream) }
        ensures within { self.old.word_pos < 2 ^ 68 }
    {
        let (words, last) = dst.split_at_mut(dst.len() / 4 * 4);
        self.fill_words(words);
        if !last.is_empty() {
            let word = self.next_u32().to_le_bytes();
            last.copy_from_slice(&word[..last.len()]);
        }
    }

    /// The word position: how many words of 32 bits come before the next one.
    pub fn get_word_pos(&self) -> u128
        ensures value { result ≡ self.now.word_pos }
        ensures below { result < 2 ^ 68 }
    {
        // The core has moved past the blocks of the buffer.
        let first = self.core.get_block_pos().wrapping_sub(BUFFER_BLOCKS);
        (BLOCK_WORDS * u128::from(first) + self.index as u128) % POSITIONS
    }

    /// Sets the word position, modulo 2^68. The buffer is filled, since a position inside a block is a place in it.
    pub fn set_word_pos(&mut self, word_pos: u128)
        ensures value { self.new ≡ at_word_pos self.old word_pos }
        ensures position { self.new.word_pos ≡ word_pos % 2 ^ 68 }
    {
        let position = word_pos % POSITIONS;
        self.core
            .set_counter_by_words((position / BLOCK_WORDS) as u64);
        self.core.generate(&mut self.buffer);
        self.index = (position % BLOCK_WORDS) as usize;
    }

    /// The number of the block of 16 words that the next word lies in.
    pub fn get_block_pos(&self) -> u64
        ensures { result ≡ self.now.word_pos / 16 }
    {
        (self.get_word_pos() / BLOCK_WORDS) as u64
    }

    /// Moves to the first word of a block. No block is made yet.
    pub fn set_block_pos(&mut self, block_pos: u64)
        ensures { self.new ≡ record self.old { word_pos = 16 * block_pos } }
    {
        self.core.set_counter_by_words(block_pos);
        self.index = BUFFER_WORDS;
    }

    /// The number of the stream.
    pub fn get_stream(&self) -> u64
        ensures { result ≡ self.now.stream }
    {
        self.core.stream()
    }

    /// Moves to the first word of a stream. The seed stays, and no block is made yet.
    pub fn set_stream(&mut self, stream: u64)
        ensures { self.new ≡ record self.old { stream = stream; word_pos = 0 } }
    {
        self.core.set_stream(stream);
        self.core.set_counter_by_words(0);
        self.index = BUFFER_WORDS;
    }

    /// The seed, of 32 bytes.
    pub fn get_seed(&self) -> Seed
        ensures { result ≡ self.now.seed }
    {
        self.core.seed()
    }

    /// The state as 49 bytes, which give the generator again.
    pub fn serialize_state(&self) -> SerializedRngState
        ensures value { result ≡ state_bytes self.now }
        ensures restored { of_state_bytes result ≡ self.now }
        ensures within { self.now.word_pos < 2 ^ 68 }
    {
        let word_pos = self.get_word_pos();
        stored(&self.get_seed(), self.get_stream(), word_pos)
    }

    /// The generator of a state. Any 49 bytes are a state: the upper half of the last byte is ignored.
    pub fn deserialize_state(state: &SerializedRngState) -> Self
        ensures value { result ≡ of_state_bytes state.now }
        ensures stored { state_bytes result ≡ take 48 state.now
            ++ (slice_index state.now 48 % 16 ∷ []) }
    {
        let mut rng = Self::from_seed(seed_in(state));
        rng.set_stream(stream_in(state));
        rng.set_word_pos(word_pos_in(state));
        rng
    }

    // Takes the next two words one after the other. They may be in two buffers.
    #[inline(never)]
    fn next_u64_across(&mut self) -> u64
        ensures value { (result, self.new) ≡ next_u64 R.COUNT self.old }
        ensures kept { (self.new.seed ≡ self.old.seed) × (self.new.stream ≡ self.old.stream) }
    {
        let low = self.next_u32();
        let high = self.next_u32();
        joined(low, high)
    }

    // Fills a slice with whole words.
    fn fill_words(&mut self, dst: &mut [u8])
        requires { length dst.old % 4 ≡ 0 }
        ensures value { (dst.new, self.new) ≡ fill R.COUNT self.old (length dst.old) }
        ensures within { self.old.word_pos < 2 ^ 68 }
    {
        let mut done = 0;
        'words: while 4 * done < dst.len() {
            refill(&mut self.core, &mut self.buffer, &mut self.index);
            let count = (dst.len() / 4 - done).min(BUFFER_WORDS - self.index);
            write_bytes(
                &self.buffer[self.index..self.index + count],
                &mut dst[4 * done..4 * done + 4 * count],
            );
            self.index += count;
            done += count;
        }
    }
}

// Fills the buffer if no words are left in it. This function is inlined into each read, and `generate` isn't: so a
// read has only the test and a call.
#[inline(always)]
fn refill<R: Rounds, B: RngBackend<R>>(
    core: &mut ChaChaCore<R, Legacy, B>,
    buffer: &mut [u32; 64],
    index: &mut usize,
)
    requires { IsUnread R.COUNT core.old buffer.old index.old }
    ensures unread { IsUnread R.COUNT core.new buffer.new index.new }
    ensures long { length buffer.new ≡ 64 }
    ensures some { index.new < 64 }
    ensures same { generator_of core.new index.new ≡ generator_of core.old index.old }
{
    if *index == BUFFER_WORDS {
        core.generate(buffer);
        *index = 0;
    }
}

/// `from_seed` and `seed_from_u64`, which makes a seed of a number as `rand_core` does.
impl<R: Rounds, B: RngBackend<R>> SeedableRng for ChaChaRng<R, B> {
    type Seed = Seed;

    ghost of_seed = { of_seed };

    ghost seed_of_u64 = { pcg32_seed 32 };

    fn from_seed(seed: Seed) -> Self {
        Self::from_seed(seed)
    }

    fn seed_from_u64(state: u64) -> Self {
        Self::from_seed(rand_core::Seed::from_u64(state))
    }
}

/// The reads of the generator. `TryRng` comes with it; its calls always succeed.
impl<R: Rounds, B: RngBackend<R>> Rng for ChaChaRng<R, B> {
    ghost stream = { stream_of (reads R.COUNT) };

    #[inline]
    fn next_u32(&mut self) -> u32 {
        self.next_u32()
    }

    #[inline]
    fn next_u64(&mut self) -> u64 {
        self.next_u64()
    }

    fn fill_bytes(&mut self, dst: &mut [u8]) {
        self.fill_bytes(dst)
    }
}

impl<R: Rounds, B: RngBackend<R>> CryptoRng for ChaChaRng<R, B> {}

/// Two generators are equal where seed, stream and word position are, whatever their buffers hold.
impl<R: Rounds, B: RngBackend<R>> PartialEq for ChaChaRng<R, B> {
    ghost use Rattle.std.proofs.Common.{rules};
    ghost use Rattle.std.specs.Cmp.Rules.{comparing};

    ghost eq = { same_generator };

    ghost laws = { Prim.search (comparing, rules) };

    fn eq(&self, other: &Self) -> bool
        ensures value { result ≡ same_generator self.now other.now }
        ensures same { IsTrue result ↔ (self.now ≡ other.now) }
    {
        // All three comparisons are made, even if the first one fails, so that one equation proves the result.
        (self.get_word_pos() == other.get_word_pos())
            & (self.get_stream() == other.get_stream())
            & (self.get_seed() == other.get_seed())
    }
}

impl<R: Rounds, B: RngBackend<R>> Eq for ChaChaRng<R, B> {
    ghost use Rattle.std.proofs.Common.{rules};
    ghost use Rattle.std.specs.Cmp.Rules.{comparing};

    ghost laws = { Prim.search (comparing, rules) };
}

/// A text that shows nothing of seed, stream and position.
impl<B> fmt::Debug for ChaChaRng<R8, B> {
    ghost debug_output = { λ _. Some (codes "ChaCha8Rng { ... }") };

    fn fmt<W: fmt::Write>(&self, f: &mut fmt::Formatter<W>) -> fmt::Result {
        f.write_str("ChaCha8Rng { ... }")
    }
}

/// A text that shows nothing of seed, stream and position.
impl<B> fmt::Debug for ChaChaRng<R12, B> {
    ghost debug_output = { λ _. Some (codes "ChaCha12Rng { ... }") };

    fn fmt<W: fmt::Write>(&self, f: &mut fmt::Formatter<W>) -> fmt::Result {
        f.write_str("ChaCha12Rng { ... }")
    }
}

/// A text that shows nothing of seed, stream and position.
impl<B> fmt::Debug for ChaChaRng<R20, B> {
    ghost debug_output = { λ _. Some (codes "ChaCha20Rng { ... }") };

    fn fmt<W: fmt::Write>(&self, f: &mut fmt::Formatter<W>) -> fmt::Result {
        f.write_str("ChaCha20Rng { ... }")
    }
}
