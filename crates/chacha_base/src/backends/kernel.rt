//! From a state to its next blocks: a whole group is made, of which a caller takes what it needs.

ghost use Rattle.std.specs.Prelude.{◌≡◌, ◌≤◌, ◌<◌, ◌≢◌, ℕ, ◌+◌, ◌*◌, min, [], length, drop, slice_index_or};
ghost use Rattle.chacha_base.specs.ChaCha.{legacy, mix};
ghost use Rattle.chacha_base.specs.State.{state_after, next_block, AreNextBlocks, next_words};
ghost use Rattle.chacha_base.specs.Counts.{Grows, for_tail};

use crate::backends::group::Group;
use crate::bytes::write_bytes;
use crate::rounds::{Rounds, Steps};
use crate::state::{advance, counter};
use crate::variants::{Legacy, StreamCipherCounter, Variant};

// Writes the last rows of the next states, each with its own counter.
#[inline(always)]
fn write_last_rows<V: Variant>(state: &[u32; 16], rows: &mut [[u32; 4]])
    ensures { (g : ℕ) → g < length rows.old
        → slice_index_or rows.new g [] ≡ drop 12 (state_after V.layout g state.now) }
{
    'each: for g in 0..rows.len() {
        let mut row = [state[12], state[13], state[14], state[15]];
        V::set_block_pos(&mut row, counter::<V>(state).advanced_by(g));
        rows[g] = row;
    }
}

// The group of the next blocks. The state stays.
#[inline(always)]
fn mixed_group<R: Rounds, V: Variant, G: Group, const W: usize>(
    state: &[u32; 16],
    steps: &mut Steps,
) -> G
    requires width { G.BLOCKS ≡ W }
    requires few { W ≤ 16 }
    ensures blocks { (g : ℕ) → g < W
        → G.words_of result g ≡ mix R.COUNT (state_after V.layout g state.now) }
    ensures steps { steps.new
        ≡ record steps.old { rounds = steps.old.rounds + 2 * G.ROUND_STEPS * R.COUNT } }
{
    let mut rows = [[0; 4]; W];
    write_last_rows::<V>(state, &mut rows);
    let start = G::start(state, &rows);
    start.copied().double_rounds(R::COUNT, steps).sums(start)
}

// The words of the next blocks, as many as a group has. The state stays.
#[inline(always)]
fn mixed_words<R: Rounds, V: Variant, G: Group, const W: usize>(
    state: &[u32; 16],
    steps: &mut Steps,
) -> [[u32; 16]; W]
    requires width { G.BLOCKS ≡ W }
    requires few { W ≤ 16 }
    ensures words { (g : ℕ) → g < W
        → slice_index_or result g [] ≡ mix R.COUNT (state_after V.layout g state.now) }
    ensures steps { steps.new
        ≡ record steps.old { rounds = steps.old.rounds + 2 * G.ROUND_STEPS * R.COUNT } }
{
    let mut words = [[0; 16]; W];
    mixed_group::<R, V, G, W>(state, steps).store(&mut words);
    words
}

/// Writes the next block, and counts one `other` call. The counter moves by one, even if the group has more blocks.
#[inline(always)]
pub fn write_one<R: Rounds, V: Variant, G: Group, const W: usize>(
    state: &mut [u32; 16],
    block: &mut [u8; 64],
    steps: &mut Steps,
)
    requires width { G.BLOCKS ≡ W }
    requires few { W ≤ 16 }
    requires some { W ≢ 0 }
    ensures block { block.new ≡ next_block R.COUNT V.layout state.old 0 }
    ensures state { state.new ≡ state_after V.layout 1 state.old }
    ensures steps { steps.new ≡ record steps.old {
      other = steps.old.other + 1;
      rounds = steps.old.rounds + 2 * G.ROUND_STEPS * R.COUNT;
    } }
{
    steps.add_other();
    let words = mixed_words::<R, V, G, W>(state, steps);
    // A slice, since no part of an array whose length is a const parameter can be borrowed.
    let made = &words[..];
    write_bytes(&made[0], block);
    advance::<V>(state, 1);
}

/// Writes the next blocks, exactly as many as a group has, each straight into its place, and counts one parallel call.
/// The counter moves past them.
#[inline(always)]
pub fn write_group<R: Rounds, V: Variant, G: Group, const W: usize>(
    state: &mut [u32; 16],
    blocks: &mut [[u8; 64]],
    steps: &mut Steps,
)
    requires width { G.BLOCKS ≡ W }
    requires few { W ≤ 16 }
    requires all { length blocks.old ≡ W }
    ensures blocks { AreNextBlocks R.COUNT V.layout state.old (length blocks.old) blocks.new }
    ensures state { state.new ≡ state_after V.layout (length blocks.old) state.old }
    ensures steps { steps.new ≡ record steps.old {
      par = steps.old.par + 1;
      rounds = steps.old.rounds + 2 * G.ROUND_STEPS * R.COUNT;
    } }
{
    steps.add_par();
    mixed_group::<R, V, G, W>(state, steps).store(blocks);
    advance::<V>(state, W);
}

/// Writes at most as many blocks as a group has. For one block or more the group is made once, and counts as one
/// `other` call. For none, nothing is made.
#[inline(always)]
pub fn write_tail<R: Rounds, V: Variant, G: Group, const W: usize>(
    state: &mut [u32; 16],
    blocks: &mut [[u8; 64]],
    steps: &mut Steps,
)
    requires width { G.BLOCKS ≡ W }
    requires few { W ≤ 16 }
    requires within { length blocks.old ≤ W }
    ensures blocks { AreNextBlocks R.COUNT V.layout state.old (length blocks.old) blocks.new }
    ensures state { state.new ≡ state_after V.layout (length blocks.old) state.old }
    ensures steps { Grows
        (for_tail (2 * G.ROUND_STEPS * R.COUNT) (length blocks.old)) steps.old steps.new }
    ensures rounds { steps.new.rounds
        ≡ steps.old.rounds + min 1 (length blocks.old) * (2 * G.ROUND_STEPS) * R.COUNT }
{
    if !blocks.is_empty() {
        steps.add_other();
        let words = mixed_words::<R, V, G, W>(state, steps);
        // A slice, as in `write_one`.
        let made = &words[..];
        'each: for g in 0..blocks.len() {
            write_bytes(&made[g], &mut blocks[g]);
        }
        advance::<V>(state, blocks.len());
    }
}

/// Writes the words of the next four blocks, in the legacy layout. The counter moves past them.
#[inline(always)]
pub fn write_buffer<R: Rounds, G: Group>(
    state: &mut [u32; 16],
    buffer: &mut [u32; 64],
    steps: &mut Steps,
)
    requires { G.BLOCKS ≡ 4 }
    ensures words { buffer.new ≡ next_words R.COUNT legacy state.old }
    ensures state { state.new ≡ state_after legacy 4 state.old }
    ensures steps { steps.new
        ≡ record steps.old { rounds = steps.old.rounds + 2 * G.ROUND_STEPS * R.COUNT } }
{
    let words = mixed_words::<R, Legacy, G, 4>(state, steps);
    'each: for i in 0..4usize {
        buffer[16 * i..16 * i + 16].copy_from_slice(&words[i]);
    }
    advance::<Legacy>(state, 4);
}
