//! The engine of a core: it calls the backend for whole blocks, and XORs bytes with them.

ghost use Rattle.std.specs.Prelude.{◌≡◌, ◌≤◌, ◌<◌, ⊤, ℕ, ◌+◌, ◌*◌, ◌/◌, ◌%◌, List, ◌++◌, length, take, drop, min};
ghost use Rattle.chacha_base.specs.State.{state_counter, state_after, AreNextBlocks};
ghost use Rattle.chacha_base.specs.Counts.{Grows, for_tail, for_whole_blocks};
ghost use Rattle.chacha20.specs.Blocks.{xored_at, applied};

use super::ChaChaCore;
use chacha_base::bytes::xor_bytes;
use chacha_base::cipher::{StreamCipherBackend, StreamCipherCore};
use chacha_base::rounds::{Rounds, Steps};
use chacha_base::state::counter;
use chacha_base::variants::Variant;
use std::simd::prelude::*;

// What the blocks are XORed into: a slice in place, or an output of the same length as its input.
trait Target {
    // The bytes so far: in place, the data; between, the first `done` bytes of the output and the rest of the input.
    ghost so_far: { List ℕ → List ℕ → ℕ → List ℕ };

    // Which lengths an input and an output may have.
    ghost fits: { ℕ → ℕ → Type 0 };

    // XORs the bytes from block `first` on with these blocks.
    fn xor_blocks(input: &[u8], data: &mut [u8], first: usize, blocks: &[[u8; 64]])
        requires input { fits (length input.now) (length «data».old) }
        requires inside { 64 * (first + length blocks.now) ≤ length «data».old }
        ensures { so_far input.now «data».new (64 * (first + length blocks.now))
            ≡ xored_at first blocks.now (so_far input.now «data».old (64 * first)) };

    ghost long: { (input output : List ℕ) → fits (length input) (length output)
        → length (so_far input output 0) ≡ length output };

    ghost at_end: { (input output : List ℕ) → fits (length input) (length output)
        → so_far input output (length output) ≡ output };
}

// `data` in place. The input isn't read.
struct InPlace;

impl Target for InPlace {
    ghost use Rattle.std.specs.Prelude.{refl};

    ghost so_far = { λ input output done. output };

    ghost fits = { λ of_input of_output. ⊤ };

    ghost long = { λ input output fit. refl };

    ghost at_end = { λ input output fit. refl };

    #[inline(always)]
    fn xor_blocks(_input: &[u8], data: &mut [u8], first: usize, blocks: &[[u8; 64]]) {
        let part = &mut data[64 * first..64 * first + 64 * blocks.len()];
        for i in 0..blocks.len() {
            xor_bytes(&mut part[64 * i..64 * i + 64], &blocks[i]);
        }
    }
}

// From `input` into `data`.
struct Between;

impl Target for Between {
    ghost use Rattle.std.proofs.Common.{rules};
    ghost use Rattle.std.proofs.lemmas.Grind.{common_steps};

    ghost so_far = { λ input output done. take done output ++ drop done input };

    ghost fits = { λ of_input of_output. of_input ≡ of_output };

    ghost long = { λ input output same. same };

    ghost at_end = { λ input output same. Prim.search (rules, common_steps) };

    #[inline(always)]
    fn xor_blocks(input: &[u8], data: &mut [u8], first: usize, blocks: &[[u8; 64]]) {
        let from = &input[64 * first..64 * first + 64 * blocks.len()];
        let part = &mut data[64 * first..64 * first + 64 * blocks.len()];
        for i in 0..blocks.len() {
            // As one vector: a loop over three slices would first compare their addresses.
            let at = 64 * i;
            let bytes: u8x64 = Simd::from_slice(&from[at..at + 64]) ^ Simd::from_slice(&blocks[i]);
            bytes.copy_to_slice(&mut part[at..at + 64]);
        }
    }
}

// Writes the blocks of a tail. This function isn't forced inline: the compiler simplifies it first, and then finds it
// small enough to inline for one block.
fn gen_tail<R: Rounds, V: Variant, B: StreamCipherBackend<R, V>>(
    state: &mut [u32; 16],
    blocks: &mut [[u8; 64]],
    steps: &mut Steps,
)
    requires { length blocks.old < B.PAR_BLOCKS }
    ensures blocks { AreNextBlocks R.COUNT V.layout state.old (length blocks.old) blocks.new }
    ensures state { state.new ≡ state_after V.layout (length blocks.old) state.old }
    ensures steps { Grows
        (for_tail (B.ONE_STEPS * R.COUNT) (length blocks.old)) steps.old steps.new }
{
    B::gen_tail_blocks(state, blocks, steps);
}

// XORs bytes with whole blocks. They are made in `scratch`, first groups by parallel calls and then the tail.
#[inline(always)]
fn apply_through<R: Rounds, V: Variant, B: StreamCipherBackend<R, V>, T: Target>(
    state: &mut [u32; 16],
    scratch: &mut [[u8; 64]],
    input: &[u8],
    data: &mut [u8],
    steps: &mut Steps,
)
    requires whole { length «data».old % 64 ≡ 0 }
    requires input { T.fits (length input.now) (length «data».old) }
    requires scratch { min B.PAR_BLOCKS (length «data».old / 64) ≤ length scratch.old }
    ensures data { «data».new
        ≡ applied R.COUNT V.layout state.old (T.so_far input.now «data».old 0) }
    ensures state { state.new ≡ state_after V.layout (length «data».old / 64) state.old }
    ensures steps { Grows
        (for_whole_blocks B.PAR_BLOCKS (B.PAR_STEPS * R.COUNT) (B.ONE_STEPS * R.COUNT)
        (length «data».old / 64)) steps.old steps.new }
{
    let width = B::PAR_BLOCKS;
    let count = data.len() / 64;
    'groups: for group in 0..count / width {
        let made = &mut scratch[..width];
        B::gen_par_ks_blocks(state, made, steps);
        T::xor_blocks(input, data, width * group, made);
    }
    let rest = count % width;
    let made = &mut scratch[..rest];
    gen_tail::<R, V, B>(state, made, steps);
    T::xor_blocks(input, data, count - rest, made);
}

// XORs bytes with whole blocks. The scratch space holds the blocks of a parallel call, at most 16, or those of a short
// message: a larger one would be zeroed in vain.
#[inline(always)]
fn apply_blocks<R: Rounds, V: Variant, B: StreamCipherBackend<R, V>, T: Target>(
    state: &mut [u32; 16],
    input: &[u8],
    data: &mut [u8],
    steps: &mut Steps,
)
    requires whole { length «data».old % 64 ≡ 0 }
    requires input { T.fits (length input.now) (length «data».old) }
    ensures data { «data».new
        ≡ applied R.COUNT V.layout state.old (T.so_far input.now «data».old 0) }
    ensures state { state.new ≡ state_after V.layout (length «data».old / 64) state.old }
    ensures steps { Grows
        (for_whole_blocks B.PAR_BLOCKS (B.PAR_STEPS * R.COUNT) (B.ONE_STEPS * R.COUNT)
        (length «data».old / 64)) steps.old steps.new }
{
    if (B::PAR_BLOCKS == 1) | (data.len() == 64) {
        apply_through::<R, V, B, T>(state, &mut [[0; 64]; 1], input, data, steps);
    } else if (B::PAR_BLOCKS <= 4) | (data.len() <= 256) {
        apply_through::<R, V, B, T>(state, &mut [[0; 64]; 4], input, data, steps);
    } else if (B::PAR_BLOCKS <= 8) | (data.len() <= 512) {
        apply_through::<R, V, B, T>(state, &mut [[0; 64]; 8], input, data, steps);
    } else {
        apply_through::<R, V, B, T>(state, &mut [[0; 64]; 16], input, data, steps);
    }
}

impl<R: Rounds, V: Variant, B: StreamCipherBackend<R, V>> StreamCipherCore for ChaChaCore<R, V, B> {
    ghost use Rattle.std.specs.Prelude.{refl};

    ghost counter = { state_counter V.layout };

    ghost par_cost = { B.PAR_STEPS * R.COUNT };

    ghost one_cost = { B.ONE_STEPS * R.COUNT };

    ghost block_size = { refl };

    ghost position_is = { λ core. refl };

    fn remaining_blocks(&self) -> Option<usize> {
        V::remaining_blocks(counter::<V>(&self.state))
    }

    fn write_keystream_blocks(&mut self, blocks: &mut [[u8; 64]]) {
        let mut steps = Steps::new();
        let width = B::PAR_BLOCKS;
        let mut done = 0;
        'groups: while blocks.len() - done >= width {
            B::gen_par_ks_blocks(&mut self.state, &mut blocks[done..done + width], &mut steps);
            done += width;
        }
        B::gen_tail_blocks(&mut self.state, &mut blocks[done..], &mut steps);
    }

    fn write_block_counted(&mut self, block: &mut [u8; 64], steps: &mut Steps) {
        B::gen_ks_block(&mut self.state, block, steps);
    }

    fn apply_blocks_counted(&mut self, data: &mut [u8], steps: &mut Steps) {
        apply_blocks::<R, V, B, InPlace>(&mut self.state, &[], data, steps);
    }

    fn apply_blocks_between_counted(&mut self, input: &[u8], output: &mut [u8], steps: &mut Steps) {
        apply_blocks::<R, V, B, Between>(&mut self.state, input, output, steps);
    }
}
