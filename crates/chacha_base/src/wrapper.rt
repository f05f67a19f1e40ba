//! A byte stream over a core of blocks.

ghost use Rattle.std.specs.Prelude.{◌≡◌, ◌+◌, ◌/◌, ◌%◌, ◌≤◌, ◌<◌, length, min};
ghost use Rattle.chacha_base.specs.ChaCha.{keystream, xor_stream};
ghost use Rattle.chacha_base.specs.Cipher.{limit_of};
ghost use Rattle.chacha_base.specs.Buffered.{left_at, Follow};
ghost use Rattle.chacha_base.specs.Counts.{Grows, for_bytes, for_last_part, for_whole_blocks};

use crate::bytes::xor_bytes;
use crate::cipher::{
    IvSizeUser, KeyIvInit, KeySizeUser, Keystream, OverflowError, SeekNum, StreamCipher,
    StreamCipherCounter, StreamCipherError, StreamCipherSeek, StreamCipherSeekCore,
};
use crate::rounds::Steps;
use std::marker::Model;

/// A cipher over bytes, made of a core that hands out blocks.
///
/// Clauses see it as its fixed part and its position in bytes (`Cipher`). It keeps one block of 64 bytes, so that a
/// message may come in pieces of any size. Its stream has every block of the core once, from the one with counter 0 to
/// the one with the greatest counter (RFC 8439, section 2.3).
#[derive(Drop)]
pub struct StreamCipherCoreWrapper<C: StreamCipherSeekCore> {
    // Its counter is ceil(position / 64), modulo the number of counters.
    core: C,
    // If the position is inside a block, that block.
    buffer: [u8; 64],
    position: u128,
}

impl<C: StreamCipherSeekCore> Model for StreamCipherCoreWrapper<C> {
    ghost use Rattle.chacha_base.specs.Cipher.{Cipher};
    ghost use Rattle.chacha_base.specs.Buffered.{IsBuffered};

    ghost Value = { Cipher };

    ghost view = { λ w. record { fixed = C.fixed w.core; position = w.position } };

    ghost invariant = { λ w. IsBuffered C.modulus (C.block_at (C.fixed w.core))
        (C.counter w.core) w.buffer w.position };
}

impl<C: StreamCipherSeekCore> Keystream for StreamCipherCoreWrapper<C> {
    ghost fixed = { λ w. w.fixed };

    ghost modulus = { C.modulus };

    ghost block_at = { C.block_at };

    ghost position = { λ w. w.position };

    ghost first_position = { 0 };
}

impl<C: StreamCipherSeekCore + KeySizeUser> KeySizeUser for StreamCipherCoreWrapper<C> {
    ghost KEY_SIZE = { C.KEY_SIZE };

    const KEY_SIZE: usize = C::KEY_SIZE;
}

impl<C: StreamCipherSeekCore + IvSizeUser> IvSizeUser for StreamCipherCoreWrapper<C> {
    ghost IV_SIZE = { C.IV_SIZE };

    const IV_SIZE: usize = C::IV_SIZE;
}

impl<C: StreamCipherSeekCore + KeyIvInit> KeyIvInit for StreamCipherCoreWrapper<C> {
    type Key = C::Key;

    type Iv = C::Iv;

    ghost init = { λ key iv. record { fixed = C.fixed (C.init key iv); position = 0 } };

    ghost blocks_of = { C.blocks_of };

    fn new(key: &C::Key, iv: &C::Iv) -> Self {
        let mut core = C::new(key, iv);
        core.set_block_pos(C::Counter::from_u64(0));
        StreamCipherCoreWrapper {
            core,
            buffer: [0; 64],
            position: 0,
        }
    }
}

impl<C: StreamCipherSeekCore> StreamCipher for StreamCipherCoreWrapper<C> {
    ghost use Rattle.std.specs.Prelude.{refl};

    ghost cost = { for_bytes C.PAR_BLOCKS C.par_cost C.one_cost };

    ghost first_is = { refl };

    ghost determined = { λ a b fixed position i.
        record { fixed = fixed i; position = position i } };

    fn check_remaining(&self, len: usize) -> Result<(), StreamCipherError> {
        let remaining = Self::limit() - self.position;
        if len as u128 <= remaining {
            Ok(())
        } else {
            Err(StreamCipherError)
        }
    }

    fn try_apply_keystream_counted(
        &mut self,
        buf: &mut [u8],
        steps: &mut Steps,
    ) -> Result<(), StreamCipherError> {
        // Not by `?`, which also converts the error, nor by an early return: either makes the proof longer.
        match self.check_remaining(buf.len()) {
            Ok(()) => {
                let begun = self.begun(buf.len());
                let (front, rest) = buf.split_at_mut(begun);
                let whole = rest.len() / 64 * 64;
                let (blocks, last) = rest.split_at_mut(whole);
                self.apply_begun(front);
                self.apply_whole(blocks, steps);
                self.apply_last(last, steps);
                Ok(())
            }
            Err(refusal) => Err(refusal),
        }
    }

    fn try_apply_keystream_b2b(
        &mut self,
        input: &[u8],
        output: &mut [u8],
    ) -> Result<(), StreamCipherError> {
        if input.len() != output.len() {
            return Err(StreamCipherError);
        }
        match self.check_remaining(input.len()) {
            Ok(()) => {
                let mut steps = Steps::new();
                let begun = self.begun(input.len());
                let (from_front, from_rest) = input.split_at(begun);
                let (front, rest) = output.split_at_mut(begun);
                let whole = rest.len() / 64 * 64;
                let (from_blocks, from_last) = from_rest.split_at(whole);
                let (blocks, last) = rest.split_at_mut(whole);
                copy_part(from_front, front);
                copy_part(from_last, last);
                self.apply_begun(front);
                self.apply_whole_between(from_blocks, blocks, &mut steps);
                self.apply_last(last, &mut steps);
                Ok(())
            }
            Err(too_long) => Err(too_long),
        }
    }
}

impl<C: StreamCipherSeekCore> StreamCipherSeek for StreamCipherCoreWrapper<C> {
    fn try_seek<T: SeekNum>(&mut self, pos: T) -> Result<(), StreamCipherError> {
        match pos.to_position() {
            Some(position) if position <= Self::limit() => {
                self.move_to(position);
                Ok(())
            }
            _ => Err(StreamCipherError),
        }
    }

    fn try_current_pos<T: SeekNum>(&self) -> Result<T, OverflowError> {
        T::from_position(self.position)
    }
}

impl<C: StreamCipherSeekCore> StreamCipherCoreWrapper<C> {
    // The greatest position.
    fn limit() -> u128
        ensures { result ≡ limit_of C.modulus }
    {
        64 * (u128::from(C::Counter::last()) + 1)
    }

    // How many of `len` bytes belong to the block that the position is in.
    fn begun(&self, len: usize) -> usize
        ensures { result ≡ min len (left_at self.now.position) }
    {
        let left = (64 - self.position % 64) % 64;
        len.min(left as usize)
    }

    // XORs bytes with the unused bytes of the buffered block.
    fn apply_begun(&mut self, bytes: &mut [u8])
        requires { length bytes.old ≤ left_at self.old.position }
        ensures bytes { bytes.new ≡ xor_stream
            (keystream C.modulus (C.block_at self.old.fixed)) self.old.position bytes.old }
        ensures fixed { self.new.fixed ≡ self.old.fixed }
        ensures position { self.new.position ≡ self.old.position + length bytes.old }
    {
        let from = (self.position % 64) as usize;
        xor_bytes(bytes, &self.buffer[from..from + bytes.len()]);
        self.position += bytes.len() as u128;
    }

    // XORs whole blocks of bytes, from the front of a block on.
    fn apply_whole(&mut self, blocks: &mut [u8], steps: &mut Steps)
        requires { (length blocks.old % 64 ≡ 0)
            × Follow self.old.position (length blocks.old) (limit_of C.modulus) }
        ensures bytes { blocks.new ≡ xor_stream
            (keystream C.modulus (C.block_at self.old.fixed)) self.old.position blocks.old }
        ensures fixed { self.new.fixed ≡ self.old.fixed }
        ensures position { self.new.position ≡ self.old.position + length blocks.old }
        ensures steps { Grows
            (for_whole_blocks C.PAR_BLOCKS C.par_cost C.one_cost (length blocks.old / 64))
            steps.old steps.new }
    {
        if !blocks.is_empty() {
            self.core.apply_blocks_counted(blocks, steps);
            self.position += blocks.len() as u128;
        }
    }

    // XORs whole blocks of an input into an output, from the front of a block on.
    fn apply_whole_between(&mut self, input: &[u8], blocks: &mut [u8], steps: &mut Steps)
        requires same { length input.now ≡ length blocks.old }
        requires whole { (length blocks.old % 64 ≡ 0)
            × Follow self.old.position (length blocks.old) (limit_of C.modulus) }
        ensures bytes { blocks.new ≡ xor_stream
            (keystream C.modulus (C.block_at self.old.fixed)) self.old.position input.now }
        ensures fixed { self.new.fixed ≡ self.old.fixed }
        ensures position { self.new.position ≡ self.old.position + length blocks.old }
    {
        if !blocks.is_empty() {
            self.core.apply_blocks_between_counted(input, blocks, steps);
            self.position += blocks.len() as u128;
        }
    }

    // XORs a last part of less than a block, from the front of a block on.
    fn apply_last(&mut self, bytes: &mut [u8], steps: &mut Steps)
        requires { (length bytes.old < 64)
            × Follow self.old.position (length bytes.old) (limit_of C.modulus) }
        ensures bytes { bytes.new ≡ xor_stream
            (keystream C.modulus (C.block_at self.old.fixed)) self.old.position bytes.old }
        ensures fixed { self.new.fixed ≡ self.old.fixed }
        ensures position { self.new.position ≡ self.old.position + length bytes.old }
        ensures steps { Grows (for_last_part C.one_cost (length bytes.old)) steps.old steps.new }
    {
        if !bytes.is_empty() {
            self.core.write_block_counted(&mut self.buffer, steps);
            xor_bytes(bytes, &self.buffer[..bytes.len()]);
            self.position += bytes.len() as u128;
        }
    }

    // Moves to a position. Inside a block, it buffers that block.
    fn move_to(&mut self, position: u128)
        requires { position ≤ limit_of C.modulus }
        ensures fixed { self.new.fixed ≡ self.old.fixed }
        ensures position { self.new.position ≡ position }
    {
        // 0 at the limit, where the core is past its last block.
        let counter = position / 64 % (Self::limit() / 64);
        self.core
            .set_block_pos(C::Counter::from_u64(counter as u64));
        if position % 64 > 0 {
            self.core.write_keystream_block(&mut self.buffer);
        }
        self.position = position;
    }
}

// Copies a part of an input. Most are empty, and `copy_from_slice` of no bytes takes as long as of some.
#[inline(always)]
fn copy_part(input: &[u8], output: &mut [u8])
    requires { length output.old ≡ length input.now }
    ensures { output.new ≡ input.now }
{
    if !input.is_empty() {
        output.copy_from_slice(input);
    }
}

// The sizes of a cipher are those of its core, whatever the core is.
fn sizes_of_cipher<C: StreamCipherSeekCore + KeySizeUser + IvSizeUser>()
    ensures key { ⟦<StreamCipherCoreWrapper<C> as KeySizeUser>⟧.KEY_SIZE ≡ C.KEY_SIZE }
    ensures nonce { ⟦<StreamCipherCoreWrapper<C> as IvSizeUser>⟧.IV_SIZE ≡ C.IV_SIZE }
{}
