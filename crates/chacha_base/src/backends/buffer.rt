//! Writing a block whose words stand in rows.

ghost use Rattle.std.specs.Prelude.{◌≡◌, ◌<◌, ℕ, List, length, slice_index};
ghost use Rattle.chacha_base.specs.ChaCha.{bytes};
ghost use Rattle.chacha_base.specs.Lanes.{quad, block_in_rows};

use crate::backends::vector::{FourVectors, Vector};
use std::simd::prelude::*;

/// Room for a block, as words or as bytes.
pub trait BlockBuffer {
    // The buffer that holds these words.
    ghost of_words: { List ℕ → Self };

    /// Writes a state of which each vector is a row.
    fn write_rows(&mut self, rows: FourVectors<u32x4>)
        ensures { self.new ≡ of_words (block_in_rows slice_index rows 0) };
}

impl BlockBuffer for [u32; 16] {
    ghost of_words = { λ words. words };

    #[inline(always)]
    fn write_rows(&mut self, rows: FourVectors<u32x4>) {
        // One write of sixteen words: with four writes of a row, small fills took 2 percent longer.
        let [a0, a1, a2, a3] = rows.0.to_array();
        let [b0, b1, b2, b3] = rows.1.to_array();
        let [c0, c1, c2, c3] = rows.2.to_array();
        let [d0, d1, d2, d3] = rows.3.to_array();
        *self = [
            a0, a1, a2, a3, b0, b1, b2, b3, c0, c1, c2, c3, d0, d1, d2, d3,
        ];
    }
}

impl BlockBuffer for [u8; 64] {
    ghost of_words = { bytes };

    #[inline(always)]
    fn write_rows(&mut self, rows: FourVectors<u32x4>) {
        let (front, back) = self.split_at_mut(32);
        let (a, b) = front.split_at_mut(16);
        let (c, d) = back.split_at_mut(16);
        write_row(rows.0, a);
        write_row(rows.1, b);
        write_row(rows.2, c);
        write_row(rows.3, d);
    }
}

// Writes a row of words as bytes.
#[inline(always)]
fn write_row(words: u32x4, output: &mut [u8])
    requires { length output.old ≡ 16 }
    ensures { output.new ≡ bytes (quad (slice_index words) 0) }
{
    words.to_le_bytes().copy_to_slice(output);
}

/// Writes one of the states of which four vectors hold the rows.
#[inline(always)]
pub fn write_block<V: Vector, B: BlockBuffer>(rows: FourVectors<V>, g: usize, buffer: &mut B)
    requires { g < V.QUADS }
    ensures { buffer.new ≡ B.of_words (block_in_rows V.lane rows g) }
{
    let FourVectors(a, b, c, d) = rows;
    buffer.write_rows(FourVectors(a.quad(g), b.quad(g), c.quad(g), d.quad(g)));
}
