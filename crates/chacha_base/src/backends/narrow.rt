//! Tails of backends whose single block takes two quarter rounds in a double round: the narrowest group that holds a
//! tail's blocks makes them, in rows up to six.

ghost use Rattle.std.specs.Prelude.{◌≡◌, ◌≤◌, ℕ, ◌+◌, ◌*◌, min, length};
ghost use Rattle.chacha_base.specs.State.{state_after, AreNextBlocks};
ghost use Rattle.chacha_base.specs.Counts.{Grows, for_tail, tail_rounds};

use crate::backends::group::{Group, Pair};
use crate::backends::kernel::write_tail;
use crate::backends::rows::Rows;
use crate::rounds::{Rounds, Steps};
use crate::variants::Variant;
use std::simd::prelude::*;

// Groups in rows, by their number of blocks: one in vectors of four words, two in vectors of eight, four in vectors of
// sixteen, and six as four and two side by side.
pub type One = Rows<u32x4, 1>;

pub type Two = Rows<u32x8, 1>;

pub type Four = Rows<u32x16, 1>;

pub type Six = Pair<Four, Two>;

/// As `write_tail`, for a backend whose single block takes two quarter rounds in a double round. Its tails of seven
/// and eight blocks take `UP_TO_8`.
#[inline(always)]
pub fn write_narrow_tail<R: Rounds, V: Variant, G: Group, const W: usize, const UP_TO_8: usize>(
    state: &mut [u32; 16],
    blocks: &mut [[u8; 64]],
    steps: &mut Steps,
)
    requires width { G.BLOCKS ≡ W }
    requires few { W ≤ 16 }
    requires within { length blocks.old ≤ W }
    requires up_to_8 { (2 ≤ UP_TO_8) × (UP_TO_8 ≤ 8) }
    requires narrowest { min 1 (length blocks.old) * (2 * G.ROUND_STEPS)
        ≡ tail_rounds UP_TO_8 (length blocks.old) }
    ensures blocks { AreNextBlocks R.COUNT V.layout state.old (length blocks.old) blocks.new }
    ensures state { state.new ≡ state_after V.layout (length blocks.old) state.old }
    ensures steps { Grows (for_tail (2 * R.COUNT) (length blocks.old)) steps.old steps.new }
    ensures rounds { steps.new.rounds
        ≡ steps.old.rounds + tail_rounds UP_TO_8 (length blocks.old) * R.COUNT }
{
    write_tail::<R, V, G, W>(state, blocks, steps);
}

/// Writes at most eight blocks. Tails of seven and eight are made by the group `E`, which takes `UP_TO_8`.
#[inline(always)]
pub fn write_up_to_8<R: Rounds, V: Variant, E: Group, const UP_TO_8: usize>(
    state: &mut [u32; 16],
    blocks: &mut [[u8; 64]],
    steps: &mut Steps,
)
    requires width { E.BLOCKS ≡ 8 }
    requires takes { 2 * E.ROUND_STEPS ≡ UP_TO_8 }
    requires up_to_8 { (2 ≤ UP_TO_8) × (UP_TO_8 ≤ 8) }
    requires within { length blocks.old ≤ 8 }
    ensures blocks { AreNextBlocks R.COUNT V.layout state.old (length blocks.old) blocks.new }
    ensures state { state.new ≡ state_after V.layout (length blocks.old) state.old }
    ensures steps { Grows (for_tail (2 * R.COUNT) (length blocks.old)) steps.old steps.new }
    ensures rounds { steps.new.rounds
        ≡ steps.old.rounds + tail_rounds UP_TO_8 (length blocks.old) * R.COUNT }
{
    match blocks.len() {
        0 | 1 => write_narrow_tail::<R, V, One, 1, UP_TO_8>(state, blocks, steps),
        2 => write_narrow_tail::<R, V, Two, 2, UP_TO_8>(state, blocks, steps),
        3 | 4 => write_narrow_tail::<R, V, Four, 4, UP_TO_8>(state, blocks, steps),
        5 | 6 => write_narrow_tail::<R, V, Six, 6, UP_TO_8>(state, blocks, steps),
        _ => write_narrow_tail::<R, V, E, 8, UP_TO_8>(state, blocks, steps),
    }
}
