//! The traits of cores.

ghost use Rattle.std.specs.Prelude.{◌≡◌, ◌<◌, ◌+◌, ◌*◌, ◌/◌, ◌%◌, ℕ, [], length, slice_get, slice_index, slice_index_or, Some};
ghost use Rattle.chacha_base.specs.Cipher.{remaining};
ghost use Rattle.chacha_base.specs.ChaCha.{keystream, xor_stream};
ghost use Rattle.chacha_base.specs.Counts.{Grows, for_single, for_whole_blocks};

use crate::bytes::xor_bytes;
use crate::cipher::keystream::Keystream;
use crate::cipher::sizes::{BlockSizeUser, ParBlocksSizeUser};
use crate::rounds::Steps;
use crate::variants::StreamCipherCounter;

/// Hands out the blocks of a keystream, 64 bytes each, one after another in order of counter. Counters wrap; nothing is
/// refused.
pub trait StreamCipherCore: Keystream + BlockSizeUser + ParBlocksSizeUser {
    // The counter of the next block.
    ghost counter: { Self → ℕ };

    // Quarter rounds of a parallel call and of a call for one block.
    ghost par_cost: { ℕ };

    ghost one_cost: { ℕ };

    /// How many blocks are left, from the next one to the one with the greatest counter. `None` where a `usize`
    /// cannot represent that number: only where a counter of 64 bits is 0.
    fn remaining_blocks(&self) -> Option<usize>
        ensures remaining { result ≡ remaining Self.modulus (counter self.now) }
        ensures below { counter self.now < Self.modulus };

    /// Writes the next block.
    final fn write_keystream_block(&mut self, block: &mut [u8; 64])
        ensures block { block.new ≡ Self.block_at (Self.fixed self.old) (counter self.old) }
        ensures fixed { Self.fixed self.new ≡ Self.fixed self.old }
        ensures counter { counter self.new ≡ (counter self.old + 1) % Self.modulus }
    {
        let mut steps = Steps::new();
        self.write_block_counted(block, &mut steps);
    }

    /// XORs a block of bytes with the next block.
    final fn apply_keystream_block(&mut self, block: &mut [u8; 64])
        ensures block { block.new
            ≡ xor_stream (keystream Self.modulus (Self.block_at (Self.fixed self.old)))
            (64 * counter self.old) block.old }
        ensures fixed { Self.fixed self.new ≡ Self.fixed self.old }
        ensures counter { counter self.new ≡ (counter self.old + 1) % Self.modulus }
    {
        let mut steps = Steps::new();
        self.apply_blocks_counted(block, &mut steps);
    }

    /// Writes as many of the next blocks as there is room for, in order.
    fn write_keystream_blocks(&mut self, blocks: &mut [[u8; 64]])
        ensures blocks { (i : ℕ) → i < length blocks.old
            → slice_get blocks.new i
            ≡ Some (Self.block_at (Self.fixed self.old) ((counter self.old + i) % Self.modulus)) }
        ensures fixed { Self.fixed self.new ≡ Self.fixed self.old }
        ensures counter { counter self.new
            ≡ (counter self.old + length blocks.old) % Self.modulus };

    /// XORs blocks of bytes with as many next blocks, in order.
    final fn apply_keystream_blocks(&mut self, blocks: &mut [[u8; 64]])
        ensures blocks { (i : ℕ) → i < length blocks.old
            → slice_get blocks.new i
            ≡ Some (xor_stream (keystream Self.modulus (Self.block_at (Self.fixed self.old)))
            (64 * (counter self.old + i)) (slice_index_or blocks.old i [])) }
        ensures fixed { Self.fixed self.new ≡ Self.fixed self.old }
        ensures counter { counter self.new ≡ (counter self.old + length blocks.old) % Self.modulus }
    {
        let mut made = [[0; 64]; 16];
        let mut done = 0;
        'groups: while blocks.len() - done >= 16 {
            apply_group(self, &mut made, &mut blocks[done..done + 16]);
            done += 16;
        }
        let rest = blocks.len() - done;
        apply_group(self, &mut made[..rest], &mut blocks[done..]);
    }

    /// Writes the next block, and counts its steps.
    fn write_block_counted(&mut self, block: &mut [u8; 64], steps: &mut Steps)
        ensures block { block.new ≡ Self.block_at (Self.fixed self.old) (counter self.old) }
        ensures fixed { Self.fixed self.new ≡ Self.fixed self.old }
        ensures counter { counter self.new ≡ (counter self.old + 1) % Self.modulus }
        ensures steps { Grows (for_single one_cost) steps.old steps.new };

    /// XORs bytes, a multiple of 64 of them, with the next blocks, and counts the steps.
    fn apply_blocks_counted(&mut self, data: &mut [u8], steps: &mut Steps)
        requires { length «data».old % 64 ≡ 0 }
        ensures data { «data».new
            ≡ xor_stream (keystream Self.modulus (Self.block_at (Self.fixed self.old)))
            (64 * counter self.old) «data».old }
        ensures fixed { Self.fixed self.new ≡ Self.fixed self.old }
        ensures counter { counter self.new
            ≡ (counter self.old + length «data».old / 64) % Self.modulus }
        ensures steps { Grows
            (for_whole_blocks Self.PAR_BLOCKS par_cost one_cost (length «data».old / 64))
            steps.old steps.new };

    /// Writes an input, a multiple of 64 bytes, XORed with the next blocks into an output of the same length, and
    /// counts the steps. By default it copies the input and applies the blocks in place.
    fn apply_blocks_between_counted(&mut self, input: &[u8], output: &mut [u8], steps: &mut Steps)
        requires same { length input.now ≡ length output.old }
        requires whole { length output.old % 64 ≡ 0 }
        ensures output { output.new
            ≡ xor_stream (keystream Self.modulus (Self.block_at (Self.fixed self.old)))
            (64 * counter self.old) input.now }
        ensures fixed { Self.fixed self.new ≡ Self.fixed self.old }
        ensures counter { counter self.new
            ≡ (counter self.old + length output.old / 64) % Self.modulus }
        ensures steps { Grows
            (for_whole_blocks Self.PAR_BLOCKS par_cost one_cost (length output.old / 64))
            steps.old steps.new }
    {
        output.copy_from_slice(input);
        self.apply_blocks_counted(output, steps);
    }

    ghost block_size: { Self.BLOCK_SIZE ≡ 64 };

    ghost position_is: { (c : Self) → Self.position c ≡ 64 * counter c };
}

// XORs blocks of bytes with as many next blocks, which are made first.
fn apply_group<C: StreamCipherCore>(core: &mut C, made: &mut [[u8; 64]], blocks: &mut [[u8; 64]])
    requires { length made.old ≡ length blocks.old }
    ensures blocks { (i : ℕ) → i < length blocks.old
        → slice_get blocks.new i ≡ Some (xor_stream
        (slice_index (C.block_at (C.fixed core.old) ((C.counter core.old + i) % C.modulus))) 0
        (slice_index_or blocks.old i [])) }
    ensures fixed { C.fixed core.new ≡ C.fixed core.old }
    ensures counter { C.counter core.new ≡ (C.counter core.old + length blocks.old) % C.modulus }
{
    core.write_keystream_blocks(made);
    for i in 0..blocks.len() {
        xor_bytes(&mut blocks[i], &made[i]);
    }
}

/// A core whose counter can be read and set.
pub trait StreamCipherSeekCore: StreamCipherCore {
    /// The counter's type.
    type Counter: StreamCipherCounter;

    /// The counter of the next block.
    fn get_block_pos(&self) -> Self::Counter
        ensures { Self.Counter.value result ≡ Self.counter self.now };

    /// Sets the counter of the next block; all else stays. No counter is refused.
    fn set_block_pos(&mut self, pos: Self::Counter)
        ensures fixed { Self.fixed self.new ≡ Self.fixed self.old }
        ensures counter { Self.counter self.new ≡ Self.Counter.value pos };

    ghost counters: { Self.modulus ≡ Self.Counter.M };
}
