//! Numbers of double rounds, and the quarter round (RFC 8439, sections 2.1 to 2.3).

ghost use Rattle.std.specs.Prelude.{◌≡◌, ◌≢◌, ◌<◌, ℕ, ◌+◌, ◌*◌, slice_index};
ghost use Rattle.chacha_base.specs.ChaCha.{rotl, quarter, quarter_of, quarter_round, columns, diagonals, rounds};

mod steps;

pub use steps::Steps;

/// How many double rounds a cipher makes (RFC 8439, section 2.3). A double round is a round of the columns and one of
/// the diagonals, so `COUNT` is half the number in a cipher's name. Anyone may implement it, for any `usize`, 0
/// included. The number is stated twice, as in `ghost COUNT = { 3 };` for clauses and `const COUNT: usize = 3;` for the
/// code.
pub trait Rounds: Copy {
    ghost COUNT: { ℕ };

    /// The number of double rounds.
    const COUNT: usize;
}

/// Four double rounds (this crate); RFC 8439 defines only ten.
#[derive(Clone, Copy, Debug)]
pub struct R8;

impl Rounds for R8 {
    ghost COUNT = { 4 };

    const COUNT: usize = 4;
}

/// Six double rounds (this crate); RFC 8439 defines only ten.
#[derive(Clone, Copy, Debug)]
pub struct R12;

impl Rounds for R12 {
    ghost COUNT = { 6 };

    const COUNT: usize = 6;
}

/// Ten double rounds, those of ChaCha20 (RFC 8439, section 2.3).
#[derive(Clone, Copy, Debug)]
pub struct R20;

impl Rounds for R20 {
    ghost COUNT = { 10 };

    const COUNT: usize = 10;
}

// The numbers of double rounds of the named types: facts that hold by computation.
fn named_counts()
    ensures r8 { ⟦<R8 as Rounds>⟧.COUNT ≡ 4 }
    ensures r12 { ⟦<R12 as Rounds>⟧.COUNT ≡ 6 }
    ensures r20 { ⟦<R20 as Rounds>⟧.COUNT ≡ 10 }
{}

// A word's rotation to the left.
#[inline(always)]
#[tactic(auto, using(crate::proofs::WordLemmas::rotate_left_is))]
fn rotated(word: u32, by: u32) -> u32
    requires some { 0 < by }
    requires most { by < 32 }
    ensures { result ≡ rotl word by }
{
    word.rotate_left(by)
}

#[inline(always)]
#[tactic(auto, unfolding(crate::specs::ChaCha::quarter))]
fn quarter_words(a: u32, b: u32, c: u32, d: u32) -> (u32, u32, u32, u32)
    ensures { result ≡ quarter a b c d }
{
    let a1 = a.wrapping_add(b);
    let d1 = rotated(d ^ a1, 16);
    let c1 = c.wrapping_add(d1);
    let b1 = rotated(b ^ c1, 12);
    let a2 = a1.wrapping_add(b1);
    let d2 = rotated(d1 ^ a2, 8);
    let c2 = c1.wrapping_add(d2);
    let b2 = rotated(b1 ^ c2, 7);
    (a2, b2, c2, d2)
}

/// The quarter round on the words of a state at four indices (RFC 8439, section 2.2), which the caller proves below 16
/// and different. It counts as one quarter round.
#[inline(always)]
pub fn quarter_round(
    a: usize,
    b: usize,
    c: usize,
    d: usize,
    state: &mut [u32; 16],
    steps: &mut Steps,
)
    requires within { (a < 16) × (b < 16) × (c < 16) × (d < 16) }
    requires apart { (a ≢ b) × (a ≢ c) × (a ≢ d) × (b ≢ c) × (b ≢ d) × (c ≢ d) }
    ensures words { (
      slice_index state.new a,
      slice_index state.new b,
      slice_index state.new c,
      slice_index state.new d,
    )
        ≡ quarter_of state.old a b c d }
    ensures others { (i : ℕ) → i ≢ a → i ≢ b → i ≢ c → i ≢ d
        → slice_index state.new i ≡ slice_index state.old i }
    ensures state { state.new ≡ quarter_round state.old a b c d }
    ensures steps { steps.new ≡ record steps.old { rounds = steps.old.rounds + 1 } }
{
    let (new_a, new_b, new_c, new_d) = quarter_words(state[a], state[b], state[c], state[d]);
    state[a] = new_a;
    state[b] = new_b;
    state[c] = new_c;
    state[d] = new_d;
    steps.add_round();
}

#[inline(always)]
fn column_round(state: &mut [u32; 16], steps: &mut Steps)
    ensures state { state.new ≡ columns state.old }
    ensures steps { steps.new ≡ record steps.old { rounds = steps.old.rounds + 4 } }
{
    quarter_round(0, 4, 8, 12, state, steps);
    quarter_round(1, 5, 9, 13, state, steps);
    quarter_round(2, 6, 10, 14, state, steps);
    quarter_round(3, 7, 11, 15, state, steps);
}

#[inline(always)]
fn diagonal_round(state: &mut [u32; 16], steps: &mut Steps)
    ensures state { state.new ≡ diagonals state.old }
    ensures steps { steps.new ≡ record steps.old { rounds = steps.old.rounds + 4 } }
{
    quarter_round(0, 5, 10, 15, state, steps);
    quarter_round(1, 6, 11, 12, state, steps);
    quarter_round(2, 7, 8, 13, state, steps);
    quarter_round(3, 4, 9, 14, state, steps);
}

/// `count` double rounds on a state, each of the columns and then of the diagonals (RFC 8439, section 2.3). Each counts
/// as eight quarter rounds. Nothing is refused.
#[inline(always)]
#[tactic(auto, unfolding(crate::specs::ChaCha::rounds))]
pub fn double_rounds(count: usize, state: &mut [u32; 16], steps: &mut Steps)
    ensures state { state.new ≡ rounds count state.old }
    ensures steps { steps.new ≡ record steps.old { rounds = steps.old.rounds + 8 * count } }
{
    'rounds: for _round in 0..count {
        column_round(state, steps);
        diagonal_round(state, steps);
    }
}
