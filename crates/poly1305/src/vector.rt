//! Four numbers side by side, one in each lane of a vector.

ghost use Rattle.std.specs.Prelude.{◌≡◌, ℕ, ◌+◌, ◌*◌, ◌/◌, ◌%◌, ◌<◌, ◌^◌, slice_index};

use std::simd::prelude::*;

// The products. LLVM multiplies by one instruction only if it sees, in the same basic block, that the factors have 32
// bits: so the masks, which change nothing.
#[inline(always)]
pub fn product(x: u64x4, y: u64x4) -> u64x4
    requires x { (k : ℕ) → k < 4 → slice_index x k < 2 ^ 28 }
    requires y { (k : ℕ) → k < 4 → slice_index y k < 2 ^ 30 }
    ensures value { (k : ℕ) → k < 4 → slice_index result k ≡ slice_index x k * slice_index y k }
    ensures small { (k : ℕ) → k < 4 → slice_index result k < 2 ^ 58 }
{
    let half = u64x4::splat(0xffff_ffff);
    (x & half) * (y & half)
}

#[inline(always)]
pub fn plus(x: u64x4, y: u64x4) -> u64x4
    requires { (k : ℕ) → k < 4 → slice_index x k + slice_index y k < 2 ^ 64 }
    ensures { (k : ℕ) → k < 4 → slice_index result k ≡ slice_index x k + slice_index y k }
{
    x + y
}

#[inline(always)]
pub fn scaled(x: u64x4, by: u64) -> u64x4
    requires { (k : ℕ) → k < 4 → slice_index x k * by < 2 ^ 64 }
    ensures { (k : ℕ) → k < 4 → slice_index result k ≡ slice_index x k * by }
{
    x * u64x4::splat(by)
}

// The low 26 bits, a limb.
#[inline(always)]
pub fn low_limb(x: u64x4) -> u64x4
    ensures { (k : ℕ) → k < 4 → slice_index result k ≡ slice_index x k % 2 ^ 26 }
{
    x & u64x4::splat(0x3ff_ffff)
}

#[inline(always)]
pub fn shift_right(x: u64x4, by: u64) -> u64x4
    requires { by < 64 }
    ensures { (k : ℕ) → k < 4 → slice_index result k ≡ slice_index x k / 2 ^ by }
{
    x >> u64x4::splat(by)
}

#[inline(always)]
pub fn shift_left(x: u64x4, by: u64) -> u64x4
    requires { by < 64 }
    ensures { (k : ℕ) → k < 4 → slice_index result k ≡ slice_index x k * 2 ^ by % 2 ^ 64 }
{
    x << u64x4::splat(by)
}

// The sum of all four.
#[inline(always)]
pub fn sum_of(x: u64x4) -> u64
    requires { (k : ℕ) → k < 4 → slice_index x k < 2 ^ 62 }
    ensures { result ≡ slice_index x 0 + slice_index x 1 + slice_index x 2 + slice_index x 3 }
{
    x.reduce_sum()
}
