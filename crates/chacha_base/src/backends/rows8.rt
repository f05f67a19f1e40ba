//! Eight blocks at once, each in vectors of four words.

ghost use Rattle.std.specs.Prelude.{◌≡◌, ◌<◌, ◌+◌, ◌*◌, min, length};
ghost use Rattle.chacha_base.specs.Counts.{Grows, for_tail};
ghost use Rattle.chacha_base.specs.State.{state_after, AreNextBlocks};

use crate::backends::group::Pair;
use crate::backends::kernel::{write_buffer, write_group, write_one, write_tail};
use crate::backends::rows::Rows;
use crate::cipher::{ParBlocksSizeUser, RngBackend, StreamCipherBackend};
use crate::rounds::{Rounds, Steps};
use crate::variants::Variant;
use std::simd::prelude::*;

/// Eight blocks in a parallel call, in rows, with a vector of four words for each row of each block. A
/// call for a single block makes eight as well, and keeps the first; a generator's call makes four.
#[derive(Clone, Copy, Debug)]
pub struct Rows8;

// Four blocks in rows, each in vectors of its own, and eight. Row 0 stays, as in the Rust crate's code for NEON.
type One = Rows<u32x4, 0>;

type Two = Pair<One, One>;

type Four = Pair<Two, Two>;

type Eight = Pair<Four, Four>;

impl ParBlocksSizeUser for Rows8 {
    ghost use Rattle.std.proofs.Common.{lit≤};

    ghost PAR_BLOCKS = { 8 };

    const PAR_BLOCKS: usize = 8;

    ghost par_blocks_at_least = { lit≤ tt };

    ghost par_blocks_at_most = { lit≤ tt };
}

impl<R: Rounds, V: Variant> StreamCipherBackend<R, V> for Rows8 {
    ghost PAR_STEPS = { 16 };

    ghost ONE_STEPS = { 16 };

    const PAR_STEPS: usize = 16;

    const ONE_STEPS: usize = 16;

    fn gen_ks_block(state: &mut [u32; 16], block: &mut [u8; 64], steps: &mut Steps) {
        write_one::<R, V, Eight, 8>(state, block, steps);
    }

    fn gen_par_ks_blocks(state: &mut [u32; 16], blocks: &mut [[u8; 64]], steps: &mut Steps) {
        write_group::<R, V, Eight, 8>(state, blocks, steps);
    }

    fn gen_tail_blocks(state: &mut [u32; 16], blocks: &mut [[u8; 64]], steps: &mut Steps)
        requires { length blocks.old < 8 }
        ensures blocks { AreNextBlocks R.COUNT V.layout state.old (length blocks.old) blocks.new }
        ensures state { state.new ≡ state_after V.layout (length blocks.old) state.old }
        ensures steps { Grows (for_tail (16 * R.COUNT) (length blocks.old)) steps.old steps.new }
        ensures rounds { steps.new.rounds
            ≡ steps.old.rounds + min 1 (length blocks.old) * 16 * R.COUNT }
    {
        write_tail::<R, V, Eight, 8>(state, blocks, steps);
    }
}

impl<R: Rounds> RngBackend<R> for Rows8 {
    ghost RNG_STEPS = { 8 };

    const RNG_STEPS: usize = 8;

    fn gen_ks_blocks(state: &mut [u32; 16], buffer: &mut [u32; 64], steps: &mut Steps) {
        write_buffer::<R, Four>(state, buffer, steps);
    }
}

// The numbers of this backend once more, so that a change of one in the code and in its own clauses fails here.
fn numbers<R: Rounds, V: Variant>(state: &mut [u32; 16], blocks: &mut [[u8; 64]], steps: &mut Steps)
    requires { length blocks.old < 8 }
    ensures width { ⟦<Rows8 as ParBlocksSizeUser>⟧.PAR_BLOCKS ≡ 8 }
    ensures par { ⟦<Rows8 as StreamCipherBackend<R, V>>⟧.PAR_STEPS ≡ 16 }
    ensures one { ⟦<Rows8 as StreamCipherBackend<R, V>>⟧.ONE_STEPS ≡ 16 }
    ensures rng { ⟦<Rows8 as RngBackend<R>>⟧.RNG_STEPS ≡ 8 }
    ensures tail { steps.new.rounds ≡ steps.old.rounds + min 1 (length blocks.old) * 16 * R.COUNT }
{
    <Rows8 as StreamCipherBackend<R, V>>::gen_tail_blocks(state, blocks, steps);
}
