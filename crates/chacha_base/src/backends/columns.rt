//! Groups of blocks in columns: a vector for each word of a state, and a lane for each block.

ghost use Rattle.std.specs.Prelude.{◌≡◌, ◌<◌, ℕ, ◌+◌, ◌*◌, [], ◌∷◌, length, slice_index, slice_index_or};
ghost use Rattle.chacha_base.specs.ChaCha.{columns, diagonals, rounds};
ghost use Rattle.chacha_base.specs.Lanes.{block_in_columns, quad, words_at, block_in_rows};

use crate::backends::buffer::{BlockBuffer, write_block};
use crate::backends::group::Group;
use crate::backends::vector::{ByBytes, FourVectors, Vector, quarter_round, sums};
use crate::rounds::Steps;

/// States in columns, one in each lane: vector r of column k has word 4 r + k of each state.
pub struct Columns<V>(
    pub FourVectors<V>,
    pub FourVectors<V>,
    pub FourVectors<V>,
    pub FourVectors<V>,
);

// Column k of each start state. Its first three words are the same for all blocks; the last is that of the block's own
// last row.
#[inline(always)]
fn column<V: Vector>(state: &[u32; 16], last_rows: &[[u32; 4]], k: usize) -> FourVectors<V>
    requires each { length last_rows.now ≡ 4 * V.QUADS }
    requires within { k < 4 }
    ensures a { (j : ℕ) → j < 4 * V.QUADS → V.lane result.0 j ≡ slice_index state.now k }
    ensures b { (j : ℕ) → j < 4 * V.QUADS → V.lane result.1 j ≡ slice_index state.now (4 + k) }
    ensures c { (j : ℕ) → j < 4 * V.QUADS → V.lane result.2 j ≡ slice_index state.now (8 + k) }
    ensures d { (j : ℕ) → j < 4 * V.QUADS
        → V.lane result.3 j ≡ slice_index (slice_index_or last_rows.now j []) k }
{
    let mut words = [0; 16];
    'each: for g in 0..4 * V::QUADS {
        words[g] = last_rows[g][k];
    }
    FourVectors(
        V::from_words(&[state[k]; 16]),
        V::from_words(&[state[4 + k]; 16]),
        V::from_words(&[state[8 + k]; 16]),
        V::from_words(&words),
    )
}

// Transposes four vectors, quad by quad: quad g of result k has the words that lane 4 g + k of the four vectors had.
// For the first quad, where word i of block j is ij:
//
//   w0:  00  01  02  03         00  10  20  30
//   w1:  10  11  12  13   ->    01  11  21  31
//   w2:  20  21  22  23         02  12  22  32
//   w3:  30  31  32  33         03  13  23  33
#[inline(always)]
fn transposed<V: Vector>(w0: V, w1: V, w2: V, w3: V) -> FourVectors<V>
    ensures first { (g : ℕ) → g < V.QUADS
        → quad (V.lane result.0) g ≡ words_at V.lane w0 w1 w2 w3 (4 * g) }
    ensures second { (g : ℕ) → g < V.QUADS
        → quad (V.lane result.1) g ≡ words_at V.lane w0 w1 w2 w3 (4 * g + 1) }
    ensures third { (g : ℕ) → g < V.QUADS
        → quad (V.lane result.2) g ≡ words_at V.lane w0 w1 w2 w3 (4 * g + 2) }
    ensures fourth { (g : ℕ) → g < V.QUADS
        → quad (V.lane result.3) g ≡ words_at V.lane w0 w1 w2 w3 (4 * g + 3) }
{
    let (low_02, high_02) = w0.interleaved(w2);
    let (low_13, high_13) = w1.interleaved(w3);
    let (first, second) = low_02.interleaved(low_13);
    let (third, fourth) = high_02.interleaved(high_13);
    FourVectors(first, second, third, fourth)
}

// Blocks in rows, in four parts: quad g of part k has block 4 g + k.
type RowParts<V> = (
    FourVectors<V>,
    FourVectors<V>,
    FourVectors<V>,
    FourVectors<V>,
);

// Turns blocks in columns into blocks in rows.
#[inline(always)]
fn in_rows<V: Vector>(states: Columns<V>) -> RowParts<V>
    ensures first { (g : ℕ) → g < V.QUADS
        → block_in_rows V.lane result.0 g ≡ block_in_columns V.lane states (4 * g) }
    ensures second { (g : ℕ) → g < V.QUADS
        → block_in_rows V.lane result.1 g ≡ block_in_columns V.lane states (4 * g + 1) }
    ensures third { (g : ℕ) → g < V.QUADS
        → block_in_rows V.lane result.2 g ≡ block_in_columns V.lane states (4 * g + 2) }
    ensures fourth { (g : ℕ) → g < V.QUADS
        → block_in_rows V.lane result.3 g ≡ block_in_columns V.lane states (4 * g + 3) }
{
    let Columns(k, l, m, n) = states;
    let a = transposed(k.0, l.0, m.0, n.0);
    let b = transposed(k.1, l.1, m.1, n.1);
    let c = transposed(k.2, l.2, m.2, n.2);
    let d = transposed(k.3, l.3, m.3, n.3);
    (
        FourVectors(a.0, b.0, c.0, d.0),
        FourVectors(a.1, b.1, c.1, d.1),
        FourVectors(a.2, b.2, c.2, d.2),
        FourVectors(a.3, b.3, c.3, d.3),
    )
}

// Writes blocks 4 g to 4 g + 3: quad g of each part.
#[inline(always)]
fn write_blocks<V: Vector, B: BlockBuffer>(rows: RowParts<V>, g: usize, buffers: &mut [B])
    requires within { g < V.QUADS }
    requires room { length buffers.old ≡ 4 }
    ensures { buffers.new ≡ B.of_words (block_in_rows V.lane rows.0 g)
        ∷ B.of_words (block_in_rows V.lane rows.1 g)
        ∷ B.of_words (block_in_rows V.lane rows.2 g)
        ∷ B.of_words (block_in_rows V.lane rows.3 g) ∷ [] }
{
    write_block(rows.0, g, &mut buffers[0]);
    write_block(rows.1, g, &mut buffers[1]);
    write_block(rows.2, g, &mut buffers[2]);
    write_block(rows.3, g, &mut buffers[3]);
}

impl<V: Vector> Group for Columns<V> {
    ghost BLOCKS = { 4 * V.QUADS };

    ghost ROUND_STEPS = { 4 };

    ghost words_of = { block_in_columns V.lane };

    #[inline(always)]
    fn blocks(_: usize) -> usize {
        4 * V::QUADS
    }

    #[inline(always)]
    fn column_round(self, steps: &mut Steps) -> Columns<V> {
        let Columns(k, l, m, n) = self;
        Columns(
            quarter_round::<V, ByBytes>(k, steps),
            quarter_round::<V, ByBytes>(l, steps),
            quarter_round::<V, ByBytes>(m, steps),
            quarter_round::<V, ByBytes>(n, steps),
        )
    }

    #[inline(always)]
    fn diagonal_round(self, steps: &mut Steps) -> Columns<V> {
        let Columns(k, l, m, n) = self;
        // The fourth diagonal first: it needs word a of the column that was computed last, and a is ready first.
        let s = quarter_round::<V, ByBytes>(FourVectors(n.0, k.1, l.2, m.3), steps);
        let p = quarter_round::<V, ByBytes>(FourVectors(k.0, l.1, m.2, n.3), steps);
        let q = quarter_round::<V, ByBytes>(FourVectors(l.0, m.1, n.2, k.3), steps);
        let r = quarter_round::<V, ByBytes>(FourVectors(m.0, n.1, k.2, l.3), steps);
        Columns(
            FourVectors(p.0, s.1, r.2, q.3),
            FourVectors(q.0, p.1, s.2, r.3),
            FourVectors(r.0, q.1, p.2, s.3),
            FourVectors(s.0, r.1, q.2, p.3),
        )
    }

    #[inline(always)]
    fn start(state: &[u32; 16], last_rows: &[[u32; 4]]) -> Columns<V> {
        Columns(
            column(state, last_rows, 0),
            column(state, last_rows, 1),
            column(state, last_rows, 2),
            column(state, last_rows, 3),
        )
    }

    #[inline(always)]
    fn copied(&self) -> Columns<V> {
        Columns(self.0, self.1, self.2, self.3)
    }

    #[inline(always)]
    fn sums(self, other: Columns<V>) -> Columns<V> {
        let Columns(k, l, m, n) = self;
        let Columns(p, q, r, s) = other;
        Columns(sums(k, p), sums(l, q), sums(m, r), sums(n, s))
    }

    #[inline(always)]
    fn store<B: BlockBuffer>(self, buffers: &mut [B]) {
        let rows = in_rows(self);
        'each: for g in 0..V::QUADS {
            write_blocks(rows, g, &mut buffers[4 * g..4 * g + 4]);
        }
    }
}
