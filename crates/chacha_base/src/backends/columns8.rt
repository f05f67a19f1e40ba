//! Eight blocks at once, in vectors of eight words.

ghost use Rattle.std.specs.Prelude.{◌≡◌, ◌<◌, ◌+◌, ◌*◌, length};
ghost use Rattle.chacha_base.specs.Counts.{Grows, for_tail, tail_of_8};
ghost use Rattle.chacha_base.specs.State.{state_after, AreNextBlocks};

use crate::backends::columns::Columns;
use crate::backends::kernel::{write_buffer, write_group, write_one};
use crate::backends::narrow::{Four, One, write_up_to_8};
use crate::cipher::{ParBlocksSizeUser, RngBackend, StreamCipherBackend};
use crate::rounds::{Rounds, Steps};
use crate::variants::Variant;
use std::simd::prelude::*;

/// Eight blocks in a parallel call, in columns, with a vector of eight words for each word of a state. A
/// tail of seven makes eight as well. The other calls are in rows, by the narrowest group that holds the blocks.
#[derive(Clone, Copy, Debug)]
pub struct Columns8;

// Eight blocks in columns.
type Eight = Columns<u32x8>;

impl ParBlocksSizeUser for Columns8 {
    ghost use Rattle.std.proofs.Common.{lit≤};

    ghost PAR_BLOCKS = { 8 };

    const PAR_BLOCKS: usize = 8;

    ghost par_blocks_at_least = { lit≤ tt };

    ghost par_blocks_at_most = { lit≤ tt };
}

impl<R: Rounds, V: Variant> StreamCipherBackend<R, V> for Columns8 {
    ghost PAR_STEPS = { 8 };

    ghost ONE_STEPS = { 2 };

    const PAR_STEPS: usize = 8;

    const ONE_STEPS: usize = 2;

    fn gen_ks_block(state: &mut [u32; 16], block: &mut [u8; 64], steps: &mut Steps) {
        write_one::<R, V, One, 1>(state, block, steps);
    }

    fn gen_par_ks_blocks(state: &mut [u32; 16], blocks: &mut [[u8; 64]], steps: &mut Steps) {
        write_group::<R, V, Eight, 8>(state, blocks, steps);
    }

    fn gen_tail_blocks(state: &mut [u32; 16], blocks: &mut [[u8; 64]], steps: &mut Steps)
        requires { length blocks.old < 8 }
        ensures blocks { AreNextBlocks R.COUNT V.layout state.old (length blocks.old) blocks.new }
        ensures state { state.new ≡ state_after V.layout (length blocks.old) state.old }
        ensures steps { Grows (for_tail (2 * R.COUNT) (length blocks.old)) steps.old steps.new }
        ensures rounds { steps.new.rounds
            ≡ steps.old.rounds + tail_of_8 (length blocks.old) * R.COUNT }
    {
        write_up_to_8::<R, V, Eight, 8>(state, blocks, steps);
    }
}

impl<R: Rounds> RngBackend<R> for Columns8 {
    ghost RNG_STEPS = { 2 };

    const RNG_STEPS: usize = 2;

    fn gen_ks_blocks(state: &mut [u32; 16], buffer: &mut [u32; 64], steps: &mut Steps) {
        write_buffer::<R, Four>(state, buffer, steps);
    }
}

// The numbers of this backend once more, so that a change of one in the code and in its own clauses fails here.
fn numbers<R: Rounds, V: Variant>(state: &mut [u32; 16], blocks: &mut [[u8; 64]], steps: &mut Steps)
    requires { length blocks.old < 8 }
    ensures width { ⟦<Columns8 as ParBlocksSizeUser>⟧.PAR_BLOCKS ≡ 8 }
    ensures par { ⟦<Columns8 as StreamCipherBackend<R, V>>⟧.PAR_STEPS ≡ 8 }
    ensures one { ⟦<Columns8 as StreamCipherBackend<R, V>>⟧.ONE_STEPS ≡ 2 }
    ensures rng { ⟦<Columns8 as RngBackend<R>>⟧.RNG_STEPS ≡ 2 }
    ensures tail { steps.new.rounds ≡ steps.old.rounds + tail_of_8 (length blocks.old) * R.COUNT }
{
    <Columns8 as StreamCipherBackend<R, V>>::gen_tail_blocks(state, blocks, steps);
}
