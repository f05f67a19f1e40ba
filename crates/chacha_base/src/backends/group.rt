//! What the kernel needs of a group of blocks, in rows or in columns, and groups of two parts.

ghost use Rattle.std.specs.Prelude.{◌≡◌, ◌≤◌, ◌<◌, ℕ, ◌+◌, ◌-◌, ◌*◌, nat_lt, if◌then◌else◌, List, [], length, slice_get, slice_index_or, Some};
ghost use Rattle.chacha_base.specs.ChaCha.{columns, diagonals, rounds, add_states};
ghost use Rattle.chacha_base.specs.Lanes.{with_last_row};

use crate::backends::buffer::BlockBuffer;
use crate::rounds::Steps;

/// The states of consecutive blocks. They go through the rounds together, and become the blocks.
pub trait Group: Sized {
    ghost BLOCKS: { ℕ };

    // How many quarter rounds a column round counts. A diagonal round counts as many.
    ghost ROUND_STEPS: { ℕ };

    // The sixteen words of state g.
    ghost words_of: { Self → ℕ → List ℕ };

    /// How many blocks, which the caller proves to be at most `most`.
    fn blocks(most: usize) -> usize
        requires { BLOCKS ≤ most }
        ensures { result ≡ BLOCKS };

    /// A round of the columns of each state.
    fn column_round(self, steps: &mut Steps) -> Self
        ensures blocks { (g : ℕ) → g < BLOCKS → words_of result g ≡ columns (words_of self g) }
        ensures steps { steps.new ≡ record steps.old { rounds = steps.old.rounds + ROUND_STEPS } };

    /// A round of the diagonals of each state.
    fn diagonal_round(self, steps: &mut Steps) -> Self
        ensures blocks { (g : ℕ) → g < BLOCKS → words_of result g ≡ diagonals (words_of self g) }
        ensures steps { steps.new ≡ record steps.old { rounds = steps.old.rounds + ROUND_STEPS } };

    /// `count` double rounds of each state (RFC 8439, section 2.3).
    #[inline(always)]
    final fn double_rounds(self, count: usize, steps: &mut Steps) -> Self
        ensures blocks { (g : ℕ) → g < BLOCKS
            → words_of result g ≡ rounds count (words_of self g) }
        ensures steps { steps.new
            ≡ record steps.old { rounds = steps.old.rounds + 2 * ROUND_STEPS * count } }
    {
        let mut states = self;
        'rounds: for _round in 0..count {
            states = states.column_round(steps).diagonal_round(steps);
        }
        states
    }

    /// A state for each of these last rows. The first three rows are those of `state`.
    fn start(state: &[u32; 16], last_rows: &[[u32; 4]]) -> Self
        requires { length last_rows.now ≡ BLOCKS }
        ensures { (g : ℕ) → g < BLOCKS → words_of result g
            ≡ with_last_row state.now (slice_index_or last_rows.now g []) };

    /// A copy. With `Copy` as a supertrait, bounds of nested groups would take many times as long to prove.
    fn copied(&self) -> Self
        ensures { result ≡ self.now };

    /// The sums of the states of two groups, word by word.
    fn sums(self, other: Self) -> Self
        ensures { (g : ℕ) → g < BLOCKS → words_of result g
            ≡ add_states (words_of self g) (words_of other g) };

    /// Writes the words of each state into its buffer.
    fn store<B: BlockBuffer>(self, buffers: &mut [B])
        requires { length buffers.old ≡ BLOCKS }
        ensures { (g : ℕ) → g < BLOCKS
            → slice_get buffers.new g ≡ Some (B.of_words (words_of self g)) };
}

/// Two groups whose rounds alternate. The blocks of the second come after those of the first.
pub struct Pair<G, H>(G, H);

impl<G: Group, H: Group> Group for Pair<G, H> {
    ghost BLOCKS = { G.BLOCKS + H.BLOCKS };

    ghost ROUND_STEPS = { G.ROUND_STEPS + H.ROUND_STEPS };

    ghost words_of = { λ x g.
        if nat_lt g G.BLOCKS then G.words_of x.0 g else H.words_of x.1 (g - G.BLOCKS) };

    #[inline(always)]
    fn blocks(most: usize) -> usize {
        G::blocks(most) + H::blocks(most)
    }

    #[inline(always)]
    fn column_round(self, steps: &mut Steps) -> Pair<G, H> {
        let Pair(front, back) = self;
        Pair(front.column_round(steps), back.column_round(steps))
    }

    #[inline(always)]
    fn diagonal_round(self, steps: &mut Steps) -> Pair<G, H> {
        let Pair(front, back) = self;
        Pair(front.diagonal_round(steps), back.diagonal_round(steps))
    }

    #[inline(always)]
    fn start(state: &[u32; 16], last_rows: &[[u32; 4]]) -> Pair<G, H> {
        let (front, back) = last_rows.split_at(G::blocks(last_rows.len()));
        Pair(G::start(state, front), H::start(state, back))
    }

    #[inline(always)]
    fn copied(&self) -> Pair<G, H> {
        Pair(self.0.copied(), self.1.copied())
    }

    #[inline(always)]
    fn sums(self, other: Pair<G, H>) -> Pair<G, H> {
        let Pair(front, back) = self;
        let Pair(other_front, other_back) = other;
        Pair(front.sums(other_front), back.sums(other_back))
    }

    #[inline(always)]
    fn store<B: BlockBuffer>(self, buffers: &mut [B]) {
        let Pair(front, back) = self;
        let (front_buffers, back_buffers) = buffers.split_at_mut(G::blocks(buffers.len()));
        front.store(front_buffers);
        back.store(back_buffers);
    }
}
