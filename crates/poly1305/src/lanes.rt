//! Four accumulators side by side, in limbs of 26 bits, so that a sum of products fits 64 bits. A vector has one limb
//! of each lane:
//!
//! ```text
//!             lane 0   lane 1   lane 2   lane 3     unit
//!      h0       *        *        *        *        1
//!      h1       *        *        *        *        2^26
//!      h2       *        *        *        *        2^52
//!      h3       *        *        *        *        2^78
//!      h4       *        *        *        *        2^104
//!             block 0  block 2  block 1  block 3    of each group of 64 bytes
//! ```

ghost use Rattle.std.specs.Prelude.{◌≡◌, ℕ, ◌+◌, ◌*◌, ◌%◌, ◌/◌, ◌<◌, ◌≤◌, ◌^◌, length, drop, slice_index};
ghost use Rattle.poly1305.specs.Poly1305.{prime, block};
ghost use Rattle.poly1305.specs.Limbs.{value_of};
ghost use Rattle.poly1305.specs.Lanes.{lane, AreBelow, block_of_lane};

use crate::accumulator::{Accumulator, carry_limbs};
use crate::vector::{low_limb, plus, product, scaled, shift_left, shift_right, sum_of};
use std::simd::prelude::*;

// The number h0 + 2^26 h1 + 2^52 h2 + 2^78 h3 + 2^104 h4 in each lane.
#[derive(Clone, Copy)]
pub struct Lanes {
    pub h0: u64x4,
    pub h1: u64x4,
    pub h2: u64x4,
    pub h3: u64x4,
    pub h4: u64x4,
}

// Carries what is above 26 bits, times `factor`, into the next limb.
#[inline(always)]
fn carry_limb(from: u64x4, to: u64x4, factor: u64) -> (u64x4, u64x4)
    requires factor { factor ≤ 5 }
    requires to { (k : ℕ) → k < 4 → slice_index to k < 2 ^ 63 }
    ensures low { (k : ℕ) → k < 4 → slice_index result.0 k ≡ slice_index from k % 2 ^ 26 }
    ensures high { (k : ℕ) → k < 4
        → slice_index result.1 k ≡ slice_index to k + slice_index from k / 2 ^ 26 * factor }
{
    (
        low_limb(from),
        plus(to, scaled(shift_right(from, 26), factor)),
    )
}

// The same numbers modulo 2^130 - 5, in small limbs. A carry out of h4, at 2^130, is 5 at 1.
#[inline(always)]
pub fn carry(d: Lanes) -> Lanes
    requires { (k : ℕ) → k < 4 → AreBelow (2 ^ 62) d k }
    ensures value { (k : ℕ) → k < 4 → lane result k % prime ≡ lane d k % prime }
    ensures small { (k : ℕ) → k < 4 → AreBelow (2 ^ 27) result k }
{
    let (h0, d1) = carry_limb(d.h0, d.h1, 1);
    let (h3, d4) = carry_limb(d.h3, d.h4, 1);
    let (h1, d2) = carry_limb(d1, d.h2, 1);
    let (h4, d0) = carry_limb(d4, h0, 5);
    let (h2, d3) = carry_limb(d2, h3, 1);
    let (h0, h1) = carry_limb(d0, h1, 1);
    let (h3, h4) = carry_limb(d3, h4, 1);
    Lanes { h0, h1, h2, h3, h4 }
}

#[inline(always)]
pub fn sum(x: Lanes, y: Lanes) -> Lanes
    requires x { (k : ℕ) → k < 4 → AreBelow (2 ^ 61) x k }
    requires y { (k : ℕ) → k < 4 → AreBelow (2 ^ 61) y k }
    ensures value { (k : ℕ) → k < 4 → lane result k ≡ lane x k + lane y k }
    ensures small { (b c k : ℕ) → k < 4
        → AreBelow b x k → AreBelow c y k → AreBelow (b + c) result k }
{
    Lanes {
        h0: plus(x.h0, y.h0),
        h1: plus(x.h1, y.h1),
        h2: plus(x.h2, y.h2),
        h3: plus(x.h3, y.h3),
        h4: plus(x.h4, y.h4),
    }
}

// One limb of products: h0 r0 + h1 r1 + h2 r2 + h3 r3 + h4 r4.
#[inline(always)]
fn dot(h: Lanes, r0: u64x4, r1: u64x4, r2: u64x4, r3: u64x4, r4: u64x4) -> u64x4
    requires h { (k : ℕ) → k < 4 → AreBelow (2 ^ 28) h k }
    requires r0 { (k : ℕ) → k < 4 → slice_index r0 k < 2 ^ 30 }
    requires r1 { (k : ℕ) → k < 4 → slice_index r1 k < 2 ^ 30 }
    requires r2 { (k : ℕ) → k < 4 → slice_index r2 k < 2 ^ 30 }
    requires r3 { (k : ℕ) → k < 4 → slice_index r3 k < 2 ^ 30 }
    requires r4 { (k : ℕ) → k < 4 → slice_index r4 k < 2 ^ 30 }
    ensures value { (k : ℕ) → k < 4 → slice_index result k
        ≡ slice_index h.h0 k * slice_index r0 k + slice_index h.h1 k * slice_index r1 k
        + slice_index h.h2 k * slice_index r2 k + slice_index h.h3 k * slice_index r3 k
        + slice_index h.h4 k * slice_index r4 k }
    ensures small { (k : ℕ) → k < 4 → slice_index result k < 2 ^ 61 }
{
    let d01 = plus(product(h.h0, r0), product(h.h1, r1));
    let d23 = plus(product(h.h2, r2), product(h.h3, r3));
    plus(plus(d01, d23), product(h.h4, r4))
}

// The products modulo 2^130 - 5, before carries: a limb at 2^130 is 5 at 1.
#[inline(always)]
pub fn products(h: Lanes, r: Lanes) -> Lanes
    requires h { (k : ℕ) → k < 4 → AreBelow (2 ^ 28) h k }
    requires r { (k : ℕ) → k < 4 → AreBelow (2 ^ 27) r k }
    ensures value { (k : ℕ) → k < 4 → lane result k % prime ≡ lane h k * lane r k % prime }
    ensures small { (k : ℕ) → k < 4 → AreBelow (2 ^ 61) result k }
{
    let s1 = scaled(r.h1, 5);
    let s2 = scaled(r.h2, 5);
    let s3 = scaled(r.h3, 5);
    let s4 = scaled(r.h4, 5);
    Lanes {
        h0: dot(h, r.h0, s4, s3, s2, s1),
        h1: dot(h, r.h1, r.h0, s4, s3, s2),
        h2: dot(h, r.h2, r.h1, r.h0, s4, s3),
        h3: dot(h, r.h3, r.h2, r.h1, r.h0, s4),
        h4: dot(h, r.h4, r.h3, r.h2, r.h1, r.h0),
    }
}

// The numbers low + 2^64 high + 2^128 top in limbs.
#[inline(always)]
fn limbs(low64: u64x4, high64: u64x4, top: u64x4) -> Lanes
    requires { (k : ℕ) → k < 4 → slice_index top k ≤ 4 }
    ensures value { (k : ℕ) → k < 4 → lane result k
        ≡ slice_index low64 k + 2 ^ 64 * slice_index high64 k + 2 ^ 128 * slice_index top k }
    ensures small { (k : ℕ) → k < 4 → AreBelow (2 ^ 27) result k }
{
    Lanes {
        h0: low_limb(low64),
        h1: low_limb(shift_right(low64, 26)),
        h2: plus(shift_right(low64, 52), low_limb(shift_left(high64, 12))),
        h3: low_limb(shift_right(high64, 14)),
        h4: plus(shift_right(high64, 40), shift_left(top, 24)),
    }
}

// Four accumulators side by side.
#[inline(always)]
pub fn side_by_side(h: Accumulator, i: Accumulator, j: Accumulator, k: Accumulator) -> Lanes
    requires { (h.h2 ≤ 4) × ((i.h2 ≤ 4) × ((j.h2 ≤ 4) × (k.h2 ≤ 4))) }
    ensures lane_0 { lane result 0 ≡ value_of h }
    ensures lane_1 { lane result 1 ≡ value_of i }
    ensures lane_2 { lane result 2 ≡ value_of j }
    ensures lane_3 { lane result 3 ≡ value_of k }
    ensures small { (k : ℕ) → k < 4 → AreBelow (2 ^ 27) result k }
{
    limbs(
        u64x4::from_array([h.h0, i.h0, j.h0, k.h0]),
        u64x4::from_array([h.h1, i.h1, j.h1, k.h1]),
        u64x4::from_array([h.h2, i.h2, j.h2, k.h2]),
    )
}

// The four blocks of a group, the 64 bytes from `at` on. Blocks in the order 0, 2, 1, 3 take the fewest shuffles.
#[inline(always)]
pub fn load(bytes: &[u8], at: usize) -> Lanes
    requires { at + 64 ≤ length bytes.now }
    ensures value { (k : ℕ) → k < 4 → lane result k ≡ block (drop at bytes.now) (block_of_lane k) }
    ensures small { (k : ℕ) → k < 4 → AreBelow (2 ^ 27) result k }
{
    let x = u64x4::from_le_bytes(u8x32::from_slice(&bytes[at..]));
    let y = u64x4::from_le_bytes(u8x32::from_slice(&bytes[at + 32..]));
    limbs(
        x.shuffle(y, [0, 4, 2, 6]),
        x.shuffle(y, [1, 5, 3, 7]),
        u64x4::splat(1),
    )
}

// The number d0 + 2^26 d1 + 2^52 d2 + 2^78 d3 + 2^104 d4 modulo 2^130 - 5.
#[inline(always)]
fn number_of(d: [u64; 5]) -> Accumulator
    requires { (k : ℕ) → slice_index d k < 2 ^ 63 }
    ensures value { value_of result % prime
        ≡ (slice_index d 0 + 2 ^ 26 * slice_index d 1 + 2 ^ 52 * slice_index d 2
        + 2 ^ 78 * slice_index d 3 + 2 ^ 104 * slice_index d 4) % prime }
    ensures small { result.h2 ≤ 4 }
{
    let low = u128::from(d[0]) + (u128::from(d[1]) << 26) + (u128::from(d[2]) << 52);
    let high = (u128::from(d[3]) << 14) + (u128::from(d[4]) << 40);
    carry_limbs(low, high, 0)
}

// The sum of the four numbers modulo 2^130 - 5.
#[inline(always)]
pub fn sum_of_lanes(d: Lanes) -> Accumulator
    requires { (k : ℕ) → k < 4 → AreBelow (2 ^ 61) d k }
    ensures value { value_of result % prime ≡ (lane d 0 + lane d 1 + lane d 2 + lane d 3) % prime }
    ensures small { result.h2 ≤ 4 }
{
    number_of([
        sum_of(d.h0),
        sum_of(d.h1),
        sum_of(d.h2),
        sum_of(d.h3),
        sum_of(d.h4),
    ])
}

// The number in lane 0 modulo 2^130 - 5.
#[inline(always)]
pub fn first_lane(d: Lanes) -> Accumulator
    requires { AreBelow (2 ^ 61) d 0 }
    ensures value { value_of result % prime ≡ lane d 0 % prime }
    ensures small { result.h2 ≤ 4 }
{
    number_of([d.h0[0], d.h1[0], d.h2[0], d.h3[0], d.h4[0]])
}
