//! The plain backend: one block at a time, on words.

ghost use Rattle.std.specs.Prelude.{◌≡◌, ◌<◌, ◌+◌, ◌*◌, length};
ghost use Rattle.chacha_base.specs.ChaCha.{add_states, mix, bytes};
ghost use Rattle.chacha_base.specs.Counts.{Grows, for_tail};
ghost use Rattle.chacha_base.specs.State.{state_after, AreNextBlocks};

use crate::bytes::write_bytes;
use crate::cipher::{ParBlocksSizeUser, RngBackend, StreamCipherBackend};
use crate::rounds::{Rounds, Steps, double_rounds};
use crate::state::advance;
use crate::variants::{Legacy, Variant};

/// The plain block function, a block at a time (RFC 8439, section 2.3).
#[derive(Clone, Copy, Debug)]
pub struct Soft;

// Adds each word of one state to the word of the other.
#[inline(always)]
fn add_words(state: &mut [u32; 16], start: &[u32; 16])
    ensures { state.new ≡ add_states state.old start.now }
{
    for i in 0..16usize {
        state[i] = state[i].wrapping_add(start[i]);
    }
}

// The words of a state's block.
#[inline(always)]
fn block_words<R: Rounds>(state: &[u32; 16], steps: &mut Steps) -> [u32; 16]
    ensures words { result ≡ mix R.COUNT state.now }
    ensures steps { steps.new ≡ record steps.old { rounds = steps.old.rounds + 8 * R.COUNT } }
{
    let mut mixed = *state;
    double_rounds(R::COUNT, &mut mixed, steps);
    add_words(&mut mixed, state);
    mixed
}

// The bytes of a state's block.
#[inline(always)]
fn block_bytes<R: Rounds>(state: &[u32; 16], block: &mut [u8; 64], steps: &mut Steps)
    ensures block { block.new ≡ bytes (mix R.COUNT state.now) }
    ensures steps { steps.new ≡ record steps.old { rounds = steps.old.rounds + 8 * R.COUNT } }
{
    write_bytes(&block_words::<R>(state, steps), block);
}

impl ParBlocksSizeUser for Soft {
    ghost use Rattle.std.proofs.Common.{lit≤};

    ghost PAR_BLOCKS = { 1 };

    const PAR_BLOCKS: usize = 1;

    ghost par_blocks_at_least = { lit≤ tt };

    ghost par_blocks_at_most = { lit≤ tt };
}

impl<R: Rounds, V: Variant> StreamCipherBackend<R, V> for Soft {
    ghost PAR_STEPS = { 8 };

    ghost ONE_STEPS = { 8 };

    const PAR_STEPS: usize = 8;

    const ONE_STEPS: usize = 8;

    fn gen_ks_block(state: &mut [u32; 16], block: &mut [u8; 64], steps: &mut Steps) {
        steps.add_other();
        block_bytes::<R>(state, block, steps);
        advance::<V>(state, 1);
    }

    #[inline(always)]
    fn gen_par_ks_blocks(state: &mut [u32; 16], blocks: &mut [[u8; 64]], steps: &mut Steps) {
        steps.add_par();
        block_bytes::<R>(state, &mut blocks[0], steps);
        advance::<V>(state, 1);
    }

    // A parallel call makes one block, so a tail has none, and takes no steps.
    fn gen_tail_blocks(state: &mut [u32; 16], blocks: &mut [[u8; 64]], steps: &mut Steps)
        requires { length blocks.old < 1 }
        ensures blocks { AreNextBlocks R.COUNT V.layout state.old (length blocks.old) blocks.new }
        ensures state { state.new ≡ state_after V.layout (length blocks.old) state.old }
        ensures steps { Grows (for_tail (8 * R.COUNT) (length blocks.old)) steps.old steps.new }
        ensures rounds { steps.new.rounds ≡ steps.old.rounds + length blocks.old * 8 * R.COUNT }
    {
        advance::<V>(state, blocks.len());
    }
}

impl<R: Rounds> RngBackend<R> for Soft {
    ghost RNG_STEPS = { 32 };

    const RNG_STEPS: usize = 32;

    fn gen_ks_blocks(state: &mut [u32; 16], buffer: &mut [u32; 64], steps: &mut Steps) {
        'each: for i in 0..4usize {
            buffer[16 * i..16 * i + 16].copy_from_slice(&block_words::<R>(state, steps));
            advance::<Legacy>(state, 1);
        }
    }
}

// The numbers of this backend once more, so that a change of one in the code and in its own clauses fails here.
fn numbers<R: Rounds, V: Variant>(state: &mut [u32; 16], blocks: &mut [[u8; 64]], steps: &mut Steps)
    requires { length blocks.old < 1 }
    ensures width { ⟦<Soft as ParBlocksSizeUser>⟧.PAR_BLOCKS ≡ 1 }
    ensures par { ⟦<Soft as StreamCipherBackend<R, V>>⟧.PAR_STEPS ≡ 8 }
    ensures one { ⟦<Soft as StreamCipherBackend<R, V>>⟧.ONE_STEPS ≡ 8 }
    ensures rng { ⟦<Soft as RngBackend<R>>⟧.RNG_STEPS ≡ 32 }
    ensures tail { steps.new.rounds ≡ steps.old.rounds + length blocks.old * 8 * R.COUNT }
{
    <Soft as StreamCipherBackend<R, V>>::gen_tail_blocks(state, blocks, steps);
}
