//! Cores as generators use them: made from a seed, with a stream, and a counter of 64 bits. They make words, four
//! blocks at a time.

ghost use Rattle.std.specs.Prelude.{◌≡◌, ◌+◌, ◌*◌, ◌^◌, ℕ, List, ◌++◌, replicate, take};
ghost use Rattle.std.specs.Int.{w64, to_le_bytes};
ghost use Rattle.rand_core.specs.Pcg32Seed.{pcg32_seed};
ghost use Rattle.chacha_base.specs.ChaCha.{words, legacy, start};
ghost use Rattle.chacha_base.specs.State.{state_counter, fixed_words, state_at, state_after, next_words};
ghost use Rattle.chacha20.specs.GeneratorCore.{seed_in, stream_in};

use super::{ChaChaCore, start_state};
use chacha_base::bytes::write_bytes;
use chacha_base::cipher::RngBackend;
use chacha_base::rounds::{Rounds, Steps};
use chacha_base::state::set_counter;
use chacha_base::variants::Legacy;
use rand_core::SeedableRng;
use std::marker::PhantomData;

/// Makes its output one buffer at a time.
pub trait Generator {
    /// What one call makes.
    type Output;

    // What a call makes, and the generator after it.
    ghost generated: { Self → Self.Output };

    ghost after: { Self → Self };

    /// Writes the next output over the old one. Nothing is refused.
    fn generate(&mut self, output: &mut Self::Output)
        ensures output { output.new ≡ generated self.old }
        ensures moved { self.new ≡ after self.old };
}

/// The output is the 64 words of the next four blocks, one block after another. The counter moves on by four and wraps
/// at 2^64.
impl<R: Rounds, B: RngBackend<R>> Generator for ChaChaCore<R, Legacy, B> {
    type Output = [u32; 64];

    ghost generated = { next_words R.COUNT legacy };

    ghost after = { state_after legacy 4 };

    // Not inlined, so that a read that is inlined has only a test and this call.
    #[inline(never)]
    fn generate(&mut self, output: &mut [u32; 64]) {
        B::gen_ks_blocks(&mut self.state, output, &mut Steps::new());
    }
}

/// The key is the seed of 32 bytes, the nonce is zero, and the first block is block 0. `seed_from_u64` makes the seed
/// as `rand_core` does.
impl<R: Rounds, B: RngBackend<R>> SeedableRng for ChaChaCore<R, Legacy, B> {
    type Seed = [u8; 32];

    ghost of_seed = { λ seed. start legacy seed (replicate 8 0) 0 };

    ghost seed_of_u64 = { pcg32_seed 32 };

    fn from_seed(seed: [u8; 32]) -> Self {
        ChaChaCore {
            state: start_state(&seed, &[0; 4]),
            rounds: PhantomData,
            variant: PhantomData,
            backend: PhantomData,
        }
    }

    fn seed_from_u64(state: u64) -> Self {
        Self::from_seed(rand_core::Seed::from_u64(state))
    }
}

impl<R: Rounds, B> ChaChaCore<R, Legacy, B> {
    // The key.
    pub(crate) fn seed(&self) -> [u8; 32]
        ensures { result ≡ seed_in (fixed_words legacy self.now) }
    {
        let mut seed = [0; 32];
        write_bytes(&self.state[4..12], &mut seed);
        seed
    }

    // The nonce, as a number.
    pub(crate) fn stream(&self) -> u64
        ensures { result ≡ stream_in (fixed_words legacy self.now) }
    {
        joined(self.state[14], self.state[15])
    }

    // Sets the counter as `set_block_pos` does, but word by word: a generator takes 3 to 5 percent longer where the row
    // is written as one vector.
    pub(crate) fn set_counter_by_words(&mut self, counter: u64)
        ensures state { self.new ≡ state_at legacy counter self.old }
        ensures fixed { fixed_words legacy self.new ≡ fixed_words legacy self.old }
        ensures counter { state_counter legacy self.new ≡ counter }
    {
        set_counter::<Legacy>(&mut self.state, counter);
    }

    // Sets the nonce. The other words stay.
    pub(crate) fn set_stream(&mut self, stream: u64)
        ensures { self.new ≡ take 14 self.old ++ words (to_le_bytes w64 stream) }
    {
        self.state[14] = (stream & 0xffff_ffff) as u32;
        self.state[15] = (stream >> 32) as u32;
    }
}

// The number whose halves are two words.
#[inline(always)]
pub(crate) fn joined(low: u32, high: u32) -> u64
    ensures { result ≡ low + 2 ^ 32 * high }
{
    (u64::from(high) << 32) | u64::from(low)
}
