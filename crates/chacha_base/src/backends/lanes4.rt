//! Four blocks at once, in vectors of four words.

ghost use Rattle.std.specs.Prelude.{◌≡◌, ◌<◌, ◌+◌, ◌*◌, min, length};
ghost use Rattle.chacha_base.specs.Counts.{Grows, for_tail};
ghost use Rattle.chacha_base.specs.State.{state_after, AreNextBlocks};

use crate::backends::columns::Columns;
use crate::backends::group::Pair;
use crate::backends::kernel::{write_buffer, write_group, write_one, write_tail};
use crate::backends::rows::Rows;
use crate::cipher::{ParBlocksSizeUser, RngBackend, StreamCipherBackend};
use crate::rounds::{Rounds, Steps};
use crate::variants::Variant;
use std::simd::prelude::*;

/// Four blocks in a parallel call, in columns, with a vector of four words for each word of a state. The
/// other calls are in rows, with a vector for each row of each block. A call for a single block makes four as well, and
/// keeps the first.
#[derive(Clone, Copy, Debug)]
pub struct Lanes4;

// One, two and four blocks in rows, each block in vectors of its own.
type One = Rows<u32x4, 1>;

type Two = Pair<One, One>;

type Four = Pair<Two, Two>;

impl ParBlocksSizeUser for Lanes4 {
    ghost use Rattle.std.proofs.Common.{lit≤};

    ghost PAR_BLOCKS = { 4 };

    const PAR_BLOCKS: usize = 4;

    ghost par_blocks_at_least = { lit≤ tt };

    ghost par_blocks_at_most = { lit≤ tt };
}

impl<R: Rounds, V: Variant> StreamCipherBackend<R, V> for Lanes4 {
    ghost PAR_STEPS = { 8 };

    ghost ONE_STEPS = { 8 };

    const PAR_STEPS: usize = 8;

    const ONE_STEPS: usize = 8;

    fn gen_ks_block(state: &mut [u32; 16], block: &mut [u8; 64], steps: &mut Steps) {
        write_one::<R, V, Four, 4>(state, block, steps);
    }

    fn gen_par_ks_blocks(state: &mut [u32; 16], blocks: &mut [[u8; 64]], steps: &mut Steps) {
        write_group::<R, V, Columns<u32x4>, 4>(state, blocks, steps);
    }

    fn gen_tail_blocks(state: &mut [u32; 16], blocks: &mut [[u8; 64]], steps: &mut Steps)
        requires { length blocks.old < 4 }
        ensures blocks { AreNextBlocks R.COUNT V.layout state.old (length blocks.old) blocks.new }
        ensures state { state.new ≡ state_after V.layout (length blocks.old) state.old }
        ensures steps { Grows (for_tail (8 * R.COUNT) (length blocks.old)) steps.old steps.new }
        ensures rounds { steps.new.rounds
            ≡ steps.old.rounds + min 1 (length blocks.old) * 8 * R.COUNT }
    {
        write_tail::<R, V, Four, 4>(state, blocks, steps);
    }
}

impl<R: Rounds> RngBackend<R> for Lanes4 {
    ghost RNG_STEPS = { 8 };

    const RNG_STEPS: usize = 8;

    fn gen_ks_blocks(state: &mut [u32; 16], buffer: &mut [u32; 64], steps: &mut Steps) {
        write_buffer::<R, Four>(state, buffer, steps);
    }
}

// The numbers of this backend once more, so that a change of one in the code and in its own clauses fails here.
fn numbers<R: Rounds, V: Variant>(state: &mut [u32; 16], blocks: &mut [[u8; 64]], steps: &mut Steps)
    requires { length blocks.old < 4 }
    ensures width { ⟦<Lanes4 as ParBlocksSizeUser>⟧.PAR_BLOCKS ≡ 4 }
    ensures par { ⟦<Lanes4 as StreamCipherBackend<R, V>>⟧.PAR_STEPS ≡ 8 }
    ensures one { ⟦<Lanes4 as StreamCipherBackend<R, V>>⟧.ONE_STEPS ≡ 8 }
    ensures rng { ⟦<Lanes4 as RngBackend<R>>⟧.RNG_STEPS ≡ 8 }
    ensures tail { steps.new.rounds ≡ steps.old.rounds + min 1 (length blocks.old) * 8 * R.COUNT }
{
    <Lanes4 as StreamCipherBackend<R, V>>::gen_tail_blocks(state, blocks, steps);
}
