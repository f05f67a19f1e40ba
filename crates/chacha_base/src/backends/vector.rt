//! SIMD vectors of words, and the quarter round of four of them.

ghost use Rattle.std.specs.Prelude.{◌≡◌, ◌≤◌, ◌<◌, ℕ, ◌+◌, ◌*◌, ⊤, bit_xor, slice_index};
ghost use Rattle.chacha_base.specs.ChaCha.{add, rotl, quarter};
ghost use Rattle.chacha_base.specs.Lanes.{quad, interleaved_low, interleaved_high, rotated, lanes_at, sums_at};

use crate::rounds::Steps;
use std::alloc::AllocError;
use std::simd::prelude::*;

/// A vector of words, one in each lane. Quad g is the lanes 4 g to 4 g + 3.
pub trait Vector: Copy {
    // The word in a lane.
    ghost lane: { Self → ℕ → ℕ };

    ghost QUADS: { ℕ };

    /// Quads in a vector.
    const QUADS: usize;

    /// The vector of the first of these words, one for each lane.
    fn from_words(words: &[u32; 16]) -> Self
        ensures { (j : ℕ) → j < 4 * QUADS → lane result j ≡ slice_index words.now j };

    /// The sums of the words in each lane.
    fn plus(self, other: Self) -> Self
        ensures { (j : ℕ) → j < 4 * QUADS → lane result j ≡ add (lane self j) (lane other j) };

    /// The words in each lane XORed and rotated to the left.
    fn xor_rotated(self, other: Self, by: u32) -> Self
        requires some { 0 < by }
        requires most { by < 32 }
        ensures { (j : ℕ) → j < 4 * QUADS
            → lane result j ≡ rotl (bit_xor (lane self j) (lane other j)) by };

    /// The vector with the words of each quad rotated to the left by `by` places.
    fn rotated(self, by: usize) -> Self
        ensures { (g : ℕ) → g < QUADS → quad (lane result) g ≡ rotated by (quad (lane self) g) };

    /// The words of quad g.
    fn quad(self, g: usize) -> u32x4
        requires { g < QUADS }
        ensures { quad (slice_index result) 0 ≡ quad (lane self) g };

    /// `xor_rotated` by 16, as is fastest in columns of this width.
    ///
    /// LLVM moves a permutation of bytes through an XOR of words if an operand is itself a permutation, and then
    /// permutes both operands. It leaves an XOR of bytes or of 16-bit halves alone.
    fn xor_rotated_16(self, other: Self) -> Self
        ensures { (j : ℕ) → j < 4 * QUADS
            → lane result j ≡ rotl (bit_xor (lane self j) (lane other j)) 16 };

    /// The same, by 8.
    fn xor_rotated_8(self, other: Self) -> Self
        ensures { (j : ℕ) → j < 4 * QUADS
            → lane result j ≡ rotl (bit_xor (lane self j) (lane other j)) 8 };

    /// Interleaves each quad with the same quad of another vector: the first vector has the first two words of both, by
    /// turns, and the second the last two.
    fn interleaved(self, other: Self) -> (Self, Self)
        ensures low { (g : ℕ) → g < QUADS → quad (lane result.0) g
            ≡ interleaved_low (quad (lane self) g) (quad (lane other) g) }
        ensures high { (g : ℕ) → g < QUADS → quad (lane result.1) g
            ≡ interleaved_high (quad (lane self) g) (quad (lane other) g) };

    ghost quads_at_most: { QUADS ≤ 4 };
}

/// Words a, b, c and d of a quarter round in each lane. In rows these are the rows of states, in columns a column or a
/// diagonal of the state in each lane.
pub struct FourVectors<V>(pub V, pub V, pub V, pub V);

// By hand, as a copy: what a derive writes clones each field.
impl<V: Copy> Clone for FourVectors<V> {
    ghost is_clone = { λ x y. y ≡ x };

    ghost is_infallible = { λ _. ⊤ };

    fn clone(&self) -> Result<FourVectors<V>, AllocError> {
        Ok(*self)
    }
}

impl<V: Copy> Copy for FourVectors<V> {}

/// How a quarter round rotates words by 16 and by 8, so by whole bytes.
pub trait RotateBytes<V: Vector> {
    /// The words in each lane XORed and rotated to the left by 16.
    fn xor_rotated_16(one: V, other: V) -> V
        ensures { (j : ℕ) → j < 4 * V.QUADS
            → V.lane result j ≡ rotl (bit_xor (V.lane one j) (V.lane other j)) 16 };

    /// The same, rotated by 8.
    fn xor_rotated_8(one: V, other: V) -> V
        ensures { (j : ℕ) → j < 4 * V.QUADS
            → V.lane result j ≡ rotl (bit_xor (V.lane one j) (V.lane other j)) 8 };
}

/// By shifts, which is faster in rows.
pub struct ByShifts;

impl<V: Vector> RotateBytes<V> for ByShifts {
    #[inline(always)]
    fn xor_rotated_16(one: V, other: V) -> V {
        one.xor_rotated(other, 16)
    }

    #[inline(always)]
    fn xor_rotated_8(one: V, other: V) -> V {
        one.xor_rotated(other, 8)
    }
}

/// By permutations of bytes or halves, which are faster in columns.
pub struct ByBytes;

impl<V: Vector> RotateBytes<V> for ByBytes {
    #[inline(always)]
    fn xor_rotated_16(one: V, other: V) -> V {
        one.xor_rotated_16(other)
    }

    #[inline(always)]
    fn xor_rotated_8(one: V, other: V) -> V {
        one.xor_rotated_8(other)
    }
}

/// A quarter round in each lane (RFC 8439, section 2.1). They count as one. `B` rotates by 16 and by 8.
#[inline(always)]
pub fn quarter_round<V: Vector, B: RotateBytes<V>>(
    start: FourVectors<V>,
    steps: &mut Steps,
) -> FourVectors<V>
    ensures lanes { (j : ℕ) → j < 4 * V.QUADS → lanes_at V.lane result j
        ≡ quarter (V.lane start.0 j) (V.lane start.1 j) (V.lane start.2 j) (V.lane start.3 j) }
    ensures steps { steps.new ≡ record steps.old { rounds = steps.old.rounds + 1 } }
{
    let FourVectors(a, b, c, d) = start;
    let a1 = a.plus(b);
    let d1 = B::xor_rotated_16(d, a1);
    let c1 = c.plus(d1);
    let b1 = b.xor_rotated(c1, 12);
    let a2 = a1.plus(b1);
    let d2 = B::xor_rotated_8(d1, a2);
    let c2 = c1.plus(d2);
    let b2 = b1.xor_rotated(c2, 7);
    steps.add_round();
    FourVectors(a2, b2, c2, d2)
}

/// The sums of the words in each lane.
#[inline(always)]
pub fn sums<V: Vector>(one: FourVectors<V>, other: FourVectors<V>) -> FourVectors<V>
    ensures { (j : ℕ) → j < 4 * V.QUADS
        → lanes_at V.lane result j ≡ sums_at V.lane one other j }
{
    let FourVectors(a, b, c, d) = one;
    FourVectors(
        a.plus(other.0),
        b.plus(other.1),
        c.plus(other.2),
        d.plus(other.3),
    )
}

// The lanes of two vectors of any width, XORed and rotated to the left.
#[inline(always)]
fn lanes_xor_rotated<const N: usize>(
    one: Simd<u32, N>,
    other: Simd<u32, N>,
    by: u32,
) -> Simd<u32, N>
    requires some { 0 < by }
    requires most { by < 32 }
    ensures { (j : ℕ) → j < N
        → slice_index result j
        ≡ rotl (bit_xor (slice_index one.entry j) (slice_index other.entry j)) by }
{
    let mixed = one ^ other;
    (mixed << Simd::splat(by)) | (mixed >> Simd::splat(32 - by))
}

impl Vector for u32x4 {
    ghost use Rattle.std.proofs.Common.{lit≤};

    ghost lane = { λ vector j. slice_index vector j };

    ghost QUADS = { 1 };

    const QUADS: usize = 1;

    ghost quads_at_most = { lit≤ tt };

    #[inline(always)]
    fn from_words(words: &[u32; 16]) -> u32x4 {
        Simd::from_slice(words)
    }

    #[inline(always)]
    fn plus(self, other: u32x4) -> u32x4 {
        self + other
    }

    #[inline(always)]
    fn xor_rotated(self, other: u32x4, by: u32) -> u32x4 {
        lanes_xor_rotated(self, other, by)
    }

    #[inline(always)]
    fn rotated(self, by: usize) -> u32x4 {
        match by % 4 {
            0 => self,
            1 => self.swizzle([1, 2, 3, 0]),
            2 => self.swizzle([2, 3, 0, 1]),
            _ => self.swizzle([3, 0, 1, 2]),
        }
    }

    #[inline(always)]
    fn quad(self, _g: usize) -> u32x4 {
        self
    }

    // By shifts: below x86-64-v3, halves or bytes take 1.07 to 1.12 of the time.
    #[inline(always)]
    fn xor_rotated_16(self, other: u32x4) -> u32x4 {
        self.xor_rotated(other, 16)
    }

    #[inline(always)]
    fn xor_rotated_8(self, other: u32x4) -> u32x4 {
        let bytes = self.to_le_bytes() ^ other.to_le_bytes();
        u32x4::from_le_bytes(bytes.swizzle([3, 0, 1, 2, 7, 4, 5, 6, 11, 8, 9, 10, 15, 12, 13, 14]))
    }

    #[inline(always)]
    fn interleaved(self, other: u32x4) -> (u32x4, u32x4) {
        let low = self.shuffle(other, [0, 4, 1, 5]);
        let high = self.shuffle(other, [2, 6, 3, 7]);
        (low, high)
    }
}

impl Vector for u32x8 {
    ghost use Rattle.std.proofs.Common.{lit≤};

    ghost lane = { λ vector j. slice_index vector j };

    ghost QUADS = { 2 };

    const QUADS: usize = 2;

    ghost quads_at_most = { lit≤ tt };

    #[inline(always)]
    fn from_words(words: &[u32; 16]) -> u32x8 {
        Simd::from_slice(words)
    }

    #[inline(always)]
    fn plus(self, other: u32x8) -> u32x8 {
        self + other
    }

    #[inline(always)]
    fn xor_rotated(self, other: u32x8, by: u32) -> u32x8 {
        lanes_xor_rotated(self, other, by)
    }

    #[inline(always)]
    fn rotated(self, by: usize) -> u32x8 {
        match by % 4 {
            0 => self,
            1 => self.swizzle([1, 2, 3, 0, 5, 6, 7, 4]),
            2 => self.swizzle([2, 3, 0, 1, 6, 7, 4, 5]),
            _ => self.swizzle([3, 0, 1, 2, 7, 4, 5, 6]),
        }
    }

    #[inline(always)]
    fn quad(self, g: usize) -> u32x4 {
        match g {
            0 => self.swizzle([0, 1, 2, 3]),
            _ => self.swizzle([4, 5, 6, 7]),
        }
    }

    #[inline(always)]
    fn xor_rotated_16(self, other: u32x8) -> u32x8 {
        let one = u16x16::from_le_bytes(self.to_le_bytes());
        let two = u16x16::from_le_bytes(other.to_le_bytes());
        let swapped = (one ^ two).swizzle([1, 0, 3, 2, 5, 4, 7, 6, 9, 8, 11, 10, 13, 12, 15, 14]);
        u32x8::from_le_bytes(swapped.to_le_bytes())
    }

    #[inline(always)]
    fn xor_rotated_8(self, other: u32x8) -> u32x8 {
        let bytes = self.to_le_bytes() ^ other.to_le_bytes();
        u32x8::from_le_bytes(bytes.swizzle([
            3, 0, 1, 2, 7, 4, 5, 6, 11, 8, 9, 10, 15, 12, 13, 14, 19, 16, 17, 18, 23, 20, 21, 22,
            27, 24, 25, 26, 31, 28, 29, 30,
        ]))
    }

    #[inline(always)]
    fn interleaved(self, other: u32x8) -> (u32x8, u32x8) {
        let low = self.shuffle(other, [0, 8, 1, 9, 4, 12, 5, 13]);
        let high = self.shuffle(other, [2, 10, 3, 11, 6, 14, 7, 15]);
        (low, high)
    }
}

impl Vector for u32x16 {
    ghost use Rattle.std.proofs.Common.{lit≤};

    ghost lane = { λ vector j. slice_index vector j };

    ghost QUADS = { 4 };

    const QUADS: usize = 4;

    ghost quads_at_most = { lit≤ tt };

    #[inline(always)]
    fn from_words(words: &[u32; 16]) -> u32x16 {
        Simd::from_slice(words)
    }

    #[inline(always)]
    fn plus(self, other: u32x16) -> u32x16 {
        self + other
    }

    #[inline(always)]
    fn xor_rotated(self, other: u32x16, by: u32) -> u32x16 {
        lanes_xor_rotated(self, other, by)
    }

    #[inline(always)]
    fn rotated(self, by: usize) -> u32x16 {
        match by % 4 {
            0 => self,
            1 => self.swizzle([1, 2, 3, 0, 5, 6, 7, 4, 9, 10, 11, 8, 13, 14, 15, 12]),
            2 => self.swizzle([2, 3, 0, 1, 6, 7, 4, 5, 10, 11, 8, 9, 14, 15, 12, 13]),
            _ => self.swizzle([3, 0, 1, 2, 7, 4, 5, 6, 11, 8, 9, 10, 15, 12, 13, 14]),
        }
    }

    #[inline(always)]
    fn quad(self, g: usize) -> u32x4 {
        match g {
            0 => self.swizzle([0, 1, 2, 3]),
            1 => self.swizzle([4, 5, 6, 7]),
            2 => self.swizzle([8, 9, 10, 11]),
            _ => self.swizzle([12, 13, 14, 15]),
        }
    }

    #[inline(always)]
    fn xor_rotated_16(self, other: u32x16) -> u32x16 {
        let one = u16x32::from_le_bytes(self.to_le_bytes());
        let two = u16x32::from_le_bytes(other.to_le_bytes());
        let swapped = (one ^ two).swizzle([
            1, 0, 3, 2, 5, 4, 7, 6, 9, 8, 11, 10, 13, 12, 15, 14, 17, 16, 19, 18, 21, 20, 23, 22,
            25, 24, 27, 26, 29, 28, 31, 30,
        ]);
        u32x16::from_le_bytes(swapped.to_le_bytes())
    }

    #[inline(always)]
    fn xor_rotated_8(self, other: u32x16) -> u32x16 {
        let bytes = self.to_le_bytes() ^ other.to_le_bytes();
        u32x16::from_le_bytes(bytes.swizzle([
            3, 0, 1, 2, 7, 4, 5, 6, 11, 8, 9, 10, 15, 12, 13, 14, 19, 16, 17, 18, 23, 20, 21, 22,
            27, 24, 25, 26, 31, 28, 29, 30, 35, 32, 33, 34, 39, 36, 37, 38, 43, 40, 41, 42, 47, 44,
            45, 46, 51, 48, 49, 50, 55, 52, 53, 54, 59, 56, 57, 58, 63, 60, 61, 62,
        ]))
    }

    #[inline(always)]
    fn interleaved(self, other: u32x16) -> (u32x16, u32x16) {
        let low = self.shuffle(
            other,
            [0, 16, 1, 17, 4, 20, 5, 21, 8, 24, 9, 25, 12, 28, 13, 29],
        );
        let high = self.shuffle(
            other,
            [2, 18, 3, 19, 6, 22, 7, 23, 10, 26, 11, 27, 14, 30, 15, 31],
        );
        (low, high)
    }
}
