//! Groups of blocks in rows: a vector for each row of a state, and a quad for each block.

ghost use Rattle.std.specs.Prelude.{◌≡◌, ◌<◌, ℕ, ◌*◌, [], ◌∷◌, slice_index};
ghost use Rattle.chacha_base.specs.Lanes.{quad, state_row, rows_rotated, block_in_rows};

use crate::backends::buffer::{BlockBuffer, write_block};
use crate::backends::group::Group;
use crate::backends::vector::{ByShifts, FourVectors, Vector, quarter_round, sums};
use crate::rounds::Steps;

/// States in rows, one in each quad. A round of the diagonals first rotates the rows, so that each diagonal becomes a
/// column, and then rotates them back. Row `FIXED_ROW` stays in place. With row 0 fixed:
///
/// ```text
///   a:   0   1   2   3         0   1   2   3
///   b:   4   5   6   7   ->    5   6   7   4
///   c:   8   9  10  11        10  11   8   9
///   d:  12  13  14  15        15  12  13  14
/// ```
///
/// A quarter round reads row 1 (b) first and writes it last, so if that row is fixed, the others rotate meanwhile.
pub struct Rows<V, const FIXED_ROW: usize>(FourVectors<V>);

// The vector that has these four words in each quad.
#[inline(always)]
fn repeated<V: Vector>(w0: u32, w1: u32, w2: u32, w3: u32) -> V
    ensures { (g : ℕ) → g < V.QUADS → quad (V.lane result) g ≡ w0 ∷ w1 ∷ w2 ∷ w3 ∷ [] }
{
    V::from_words(&[
        w0, w1, w2, w3, w0, w1, w2, w3, w0, w1, w2, w3, w0, w1, w2, w3,
    ])
}

// Writes four values to the words of quad g.
#[inline(always)]
fn set_row(words: &mut [u32; 16], g: usize, values: &[u32; 4])
    requires { g < 4 }
    ensures here { state_row words.new g ≡ state_row values.now 0 }
    ensures elsewhere { (h : ℕ) → h < 4 → ¬ (h ≡ g)
        → state_row words.new h ≡ state_row words.old h }
{
    words[4 * g] = values[0];
    words[4 * g + 1] = values[1];
    words[4 * g + 2] = values[2];
    words[4 * g + 3] = values[3];
}

// Rotates the four rows of each block to the left, by a, b, c and d places.
#[inline(always)]
fn rows_rotated<V: Vector>(
    rows: FourVectors<V>,
    a: usize,
    b: usize,
    c: usize,
    d: usize,
) -> FourVectors<V>
    ensures { (g : ℕ) → g < V.QUADS
        → block_in_rows V.lane result g ≡ rows_rotated a b c d (block_in_rows V.lane rows g) }
{
    FourVectors(
        rows.0.rotated(a),
        rows.1.rotated(b),
        rows.2.rotated(c),
        rows.3.rotated(d),
    )
}

impl<V: Vector, const FIXED_ROW: usize> Group for Rows<V, FIXED_ROW> {
    ghost BLOCKS = { V.QUADS };

    ghost ROUND_STEPS = { 1 };

    ghost words_of = { λ x g. block_in_rows V.lane x.0 g };

    #[inline(always)]
    fn blocks(_: usize) -> usize {
        V::QUADS
    }

    #[inline(always)]
    fn column_round(self, steps: &mut Steps) -> Rows<V, FIXED_ROW> {
        let Rows(rows) = self;
        Rows(quarter_round::<V, ByShifts>(rows, steps))
    }

    #[inline(always)]
    fn diagonal_round(self, steps: &mut Steps) -> Rows<V, FIXED_ROW> {
        let Rows(rows) = self;
        let left = 4 - FIXED_ROW % 4;
        let diagonalized = rows_rotated(rows, left, left + 1, left + 2, left + 3);
        let mixed = quarter_round::<V, ByShifts>(diagonalized, steps);
        let right = 4 + FIXED_ROW % 4;
        Rows(rows_rotated(mixed, right, right - 1, right - 2, right - 3))
    }

    #[inline(always)]
    fn start(state: &[u32; 16], last_rows: &[[u32; 4]]) -> Rows<V, FIXED_ROW> {
        let [w0, w1, w2, w3, w4, w5, w6, w7, w8, w9, w10, w11, _, _, _, _] = *state;
        let mut d = [0; 16];
        'each: for g in 0..V::QUADS {
            set_row(&mut d, g, &last_rows[g]);
        }
        Rows(FourVectors(
            repeated(w0, w1, w2, w3),
            repeated(w4, w5, w6, w7),
            repeated(w8, w9, w10, w11),
            V::from_words(&d),
        ))
    }

    #[inline(always)]
    fn copied(&self) -> Rows<V, FIXED_ROW> {
        Rows(self.0)
    }

    #[inline(always)]
    fn sums(self, other: Rows<V, FIXED_ROW>) -> Rows<V, FIXED_ROW> {
        let Rows(rows) = self;
        let Rows(others) = other;
        Rows(sums(rows, others))
    }

    #[inline(always)]
    fn store<B: BlockBuffer>(self, buffers: &mut [B]) {
        let Rows(rows) = self;
        'each: for g in 0..V::QUADS {
            write_block(rows, g, &mut buffers[g]);
        }
    }
}
