//! The traits of backends.

ghost use Rattle.std.specs.Prelude.{◌≡◌, ◌<◌, ◌+◌, ◌*◌, ℕ, length};
ghost use Rattle.chacha_base.specs.ChaCha.{legacy};
ghost use Rattle.chacha_base.specs.State.{state_after, next_block, AreNextBlocks, next_words};
ghost use Rattle.chacha_base.specs.Counts.{Grows, for_single, for_group, for_tail};

use crate::cipher::sizes::ParBlocksSizeUser;
use crate::rounds::{Rounds, Steps};
use crate::variants::Variant;

/// Makes the blocks of a state one after another (RFC 8439, section 2.3), 64 bytes each. The functions have no
/// receiver, so a backend is an empty type.
///
/// A call makes one block, that of the state's counter, or several blocks in order, from that one on. It moves the
/// counter past them and keeps the other words of the state. Counters wrap, at 2^32 or 2^64 as the variant says.
/// Nothing is refused. Anyone may implement it; a backend that counts nothing has both constants 0.
pub trait StreamCipherBackend<R: Rounds, V: Variant>: ParBlocksSizeUser {
    ghost PAR_STEPS: { ℕ };

    ghost ONE_STEPS: { ℕ };

    /// Quarter rounds of a parallel call, for each double round.
    const PAR_STEPS: usize;

    /// Quarter rounds of a call for one block, for each double round.
    const ONE_STEPS: usize;

    /// The next block.
    fn gen_ks_block(state: &mut [u32; 16], block: &mut [u8; 64], steps: &mut Steps)
        ensures block { block.new ≡ next_block R.COUNT V.layout state.old 0 }
        ensures state { state.new ≡ state_after V.layout 1 state.old }
        ensures steps { Grows (for_single (ONE_STEPS * R.COUNT)) steps.old steps.new };

    /// The next `PAR_BLOCKS` blocks.
    fn gen_par_ks_blocks(state: &mut [u32; 16], blocks: &mut [[u8; 64]], steps: &mut Steps)
        requires { length blocks.old ≡ Self.PAR_BLOCKS }
        ensures blocks { AreNextBlocks R.COUNT V.layout state.old (length blocks.old) blocks.new }
        ensures state { state.new ≡ state_after V.layout (length blocks.old) state.old }
        ensures steps { Grows (for_group (PAR_STEPS * R.COUNT)) steps.old steps.new };

    /// The next blocks, as many as there is room for: fewer than `PAR_BLOCKS`, or none.
    fn gen_tail_blocks(state: &mut [u32; 16], blocks: &mut [[u8; 64]], steps: &mut Steps)
        requires { length blocks.old < Self.PAR_BLOCKS }
        ensures blocks { AreNextBlocks R.COUNT V.layout state.old (length blocks.old) blocks.new }
        ensures state { state.new ≡ state_after V.layout (length blocks.old) state.old }
        ensures steps { Grows
            (for_tail (ONE_STEPS * R.COUNT) (length blocks.old)) steps.old steps.new };

    /// The next blocks, as many as there is room for, each by a call of its own. A backend may make its tails by it.
    final fn gen_single_blocks(state: &mut [u32; 16], blocks: &mut [[u8; 64]], steps: &mut Steps)
        ensures blocks { AreNextBlocks R.COUNT V.layout state.old (length blocks.old) blocks.new }
        ensures state { state.new ≡ state_after V.layout (length blocks.old) state.old }
        ensures steps { Grows
            (for_tail (ONE_STEPS * R.COUNT) (length blocks.old)) steps.old steps.new }
        ensures rounds { steps.new.rounds
            ≡ steps.old.rounds + length blocks.old * (ONE_STEPS * R.COUNT) }
    {
        'each: for i in 0..blocks.len() {
            Self::gen_ks_block(state, &mut blocks[i], steps);
        }
    }
}

/// Makes the words of a generator, four blocks at a time, in the legacy layout.
///
/// From counter c on these are the words of blocks c to c + 3, one block after another; the state is then the one with
/// counter c + 4, and all its other words stay. Counters wrap at 2^64. Nothing is refused. Anyone may implement it; a
/// backend that counts nothing has the constant 0.
pub trait RngBackend<R: Rounds> {
    ghost RNG_STEPS: { ℕ };

    /// Quarter rounds of a call, for each double round.
    const RNG_STEPS: usize;

    /// The words of the next four blocks.
    fn gen_ks_blocks(state: &mut [u32; 16], buffer: &mut [u32; 64], steps: &mut Steps)
        ensures words { buffer.new ≡ next_words R.COUNT legacy state.old }
        ensures state { state.new ≡ state_after legacy 4 state.old }
        ensures steps { steps.new
            ≡ record steps.old { rounds = steps.old.rounds + RNG_STEPS * R.COUNT } };
}
