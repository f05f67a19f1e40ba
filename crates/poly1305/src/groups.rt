//! Long texts, in groups of four blocks. Each lane takes one block of each group, so no product waits for another:
//!
//! ```text
//! block by block   h = (h + block) r
//! a group          lane = (lane + its block) r^4
//! two groups       lane = (lane + its block) r^8 + its next block r^4     one carry for both
//! last group       h = sum of (lane + its block) times r^4, r^2, r^3, r
//! ```
//!
//! Between groups, the weighted sum of the lanes is r^4 times the accumulator (`Holds`). Loops keep the products before
//! their carries, since a carry belongs to the basic block of the product after it (`vector::product`).

ghost use Rattle.std.specs.Prelude.{◌≡◌, ℕ, ◌+◌, ◌*◌, ◌/◌, ◌%◌, ◌<◌, ◌≤◌, ◌^◌, length, drop};
ghost use Rattle.poly1305.specs.Poly1305.{prime, block, accumulator};
ghost use Rattle.poly1305.specs.Limbs.{value_of, r_value};
ghost use Rattle.poly1305.specs.Lanes.{lane, AreBelow, Holds, block_of_lane};
ghost use Rattle.poly1305.specs.Groups.{ArePowers};

use crate::accumulator::{Accumulator, absorb_blocks, times};
use crate::factors::Factors;
use crate::lanes::{Lanes, carry, first_lane, load, products, side_by_side, sum, sum_of_lanes};
use crate::multiplier::Multiplier;

// The bytes from which lanes serve. At x86-64-v3 they pay from 300 bytes on, at v2 from 700.
const LONG: usize = 512;

const ZERO: Accumulator = Accumulator {
    h0: 0,
    h1: 0,
    h2: 0,
};

// The powers of r. A factor comes from limbs of 64 bits: one straight from `products` would lose its mask.
#[inline(always)]
fn powers(r: Multiplier) -> Factors
    ensures { ArePowers (r_value r) result }
{
    let first = Accumulator {
        h0: r.r0,
        h1: r.r1,
        h2: 0,
    };
    let second = times(first, r);
    let third = times(second, r);
    let fourth = times(third, r);
    let fourths = side_by_side(fourth, fourth, fourth, fourth);
    let eighth = first_lane(products(fourths, fourths));
    Factors {
        fourth: fourths,
        eighth: side_by_side(eighth, eighth, eighth, eighth),
        last: side_by_side(fourth, second, third, first),
    }
}

// Each lane with its block of the group from `at` on, times its factor.
#[inline(always)]
fn absorb_group(d: Lanes, factor: Lanes, bytes: &[u8], at: usize) -> Lanes
    requires room { at + 64 ≤ length bytes.now }
    requires d { (k : ℕ) → k < 4 → AreBelow (2 ^ 62) d k }
    requires factor { (k : ℕ) → k < 4 → AreBelow (2 ^ 27) factor k }
    ensures value { (k : ℕ) → k < 4 → lane result k % prime
        ≡ (lane d k + block (drop at bytes.now) (block_of_lane k)) * lane factor k % prime }
    ensures small { (k : ℕ) → k < 4 → AreBelow (2 ^ 61) result k }
{
    products(sum(carry(d), load(bytes, at)), factor)
}

// The lanes after two groups more, with one carry.
#[inline(always)]
fn absorb_pair(d: Lanes, factors: Factors, pair: &[u8; 128]) -> Lanes
    requires { (k : ℕ) → k < 4 → AreBelow (2 ^ 62) d k }
    ensures value { (r a : ℕ) → ArePowers r factors
        → Holds r d a → Holds r result (accumulator r a pair.now 8) }
    ensures small { (k : ℕ) → k < 4 → AreBelow (2 ^ 62) result k }
{
    sum(
        absorb_group(d, factors.eighth, pair, 0),
        products(load(pair, 64), factors.fourth),
    )
}

// The lanes after all pairs of groups of `bytes`.
#[inline(always)]
fn absorb_pairs(mut d: Lanes, factors: Factors, bytes: &[u8]) -> Lanes
    requires { (k : ℕ) → k < 4 → AreBelow (2 ^ 62) d k }
    ensures value { (r a : ℕ) → ArePowers r factors
        → Holds r d a → Holds r result (accumulator r a bytes.now (8 * (length bytes.now / 128))) }
    ensures small { (k : ℕ) → k < 4 → AreBelow (2 ^ 62) result k }
{
    let (pairs, _) = bytes.as_chunks::<128>();
    for pair in pairs {
        d = absorb_pair(d, factors, pair);
    }
    d
}

// The lanes after all groups of `bytes`.
#[inline(always)]
fn absorb_groups(d: Lanes, factors: Factors, bytes: &[u8]) -> Lanes
    requires { (k : ℕ) → k < 4 → AreBelow (2 ^ 62) d k }
    ensures value { (r a : ℕ) → ArePowers r factors
        → Holds r d a → Holds r result (accumulator r a bytes.now (4 * (length bytes.now / 64))) }
    ensures small { (k : ℕ) → k < 4 → AreBelow (2 ^ 62) result k }
{
    let after = absorb_pairs(d, factors, bytes);
    let at = bytes.len() / 128 * 128;
    if bytes.len() - at < 64 {
        return after;
    }
    absorb_group(after, factors.fourth, bytes, at)
}

// The accumulator after the last group, where each lane comes to the sum.
#[inline(always)]
fn absorb_last_group(d: Lanes, factors: Factors, bytes: &[u8], at: usize) -> Accumulator
    requires room { at + 64 ≤ length bytes.now }
    requires d { (k : ℕ) → k < 4 → AreBelow (2 ^ 62) d k }
    ensures value { (r a : ℕ) → ArePowers r factors → Holds r d a
        → value_of result % prime ≡ accumulator r a (drop at bytes.now) 4 }
    ensures small { result.h2 ≤ 4 }
{
    sum_of_lanes(absorb_group(d, factors.last, bytes, at))
}

// The accumulator after all groups of `bytes`.
#[inline(never)]
fn absorb_in_lanes(h: Accumulator, r: Multiplier, bytes: &[u8]) -> Accumulator
    requires h { h.h2 ≤ 4 }
    requires some { 64 ≤ length bytes.now }
    ensures value { value_of result % prime
        ≡ accumulator (r_value r) (value_of h % prime) bytes.now (4 * (length bytes.now / 64)) }
    ensures small { result.h2 ≤ 4 }
{
    let factors = powers(r);
    let last = (bytes.len() / 64 - 1) * 64;
    let first = side_by_side(h, ZERO, ZERO, ZERO);
    absorb_last_group(
        absorb_groups(first, factors, &bytes[..last]),
        factors,
        bytes,
        last,
    )
}

// The accumulator after all whole blocks of `bytes`, in lanes. Inlined, it would give short texts a frame of a KiB.
#[inline(never)]
fn absorb_long(h: Accumulator, r: Multiplier, bytes: &[u8]) -> Accumulator
    requires h { h.h2 ≤ 4 }
    requires some { 64 ≤ length bytes.now }
    ensures value { value_of result % prime
        ≡ accumulator (r_value r) (value_of h % prime) bytes.now (length bytes.now / 16) }
    ensures small { result.h2 ≤ 4 }
{
    let (_, rest) = bytes.split_at(bytes.len() / 64 * 64);
    absorb_blocks(absorb_in_lanes(h, r, bytes), r, rest)
}

// The accumulator after all whole blocks of `bytes`. A call of it would take as long as a block.
#[inline(always)]
pub fn absorb_all(h: Accumulator, r: Multiplier, bytes: &[u8]) -> Accumulator
    requires { h.h2 ≤ 4 }
    ensures value { value_of result % prime
        ≡ accumulator (r_value r) (value_of h % prime) bytes.now (length bytes.now / 16) }
    ensures small { result.h2 ≤ 4 }
{
    if bytes.len() < LONG {
        absorb_blocks(h, r, bytes)
    } else {
        absorb_long(h, r, bytes)
    }
}
