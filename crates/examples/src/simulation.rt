//! Draws that can be repeated, of exactly one word each: numbers below a bound, one without those before it, and the
//! sum of dice; a generator for each worker; and a run that is stored and resumed (this crate). Dice, shuffles and
//! samples are in the toolchain's `rand`, which takes some of its numbers from two words.
//!
//! `rng.old` and `rng.new` are the generator before and after the call. `next_u64 n g` is a pair: the next word of 64
//! bits of the generator g, which makes n double rounds, and the generator after it. `repeated (next_u64 n) k g` is the
//! pair of the list of the next k words and the generator after them. `.0` and `.1` are the two parts of a pair. So
//! each contract says which words a function reads and what it makes of them: the same seed gives the same run.

ghost use Rattle.std.specs.Prelude.{◌≡◌, ℕ, ◌<◌, ◌≤◌, ◌+◌, ◌*◌, ◌/◌, ◌^◌, ◌++◌, length, slice_index, map, All};
ghost use Rattle.std.specs.Int.{w64, to_le_bytes};
ghost use Rattle.std.specs.List.{sum_by};
ghost use Rattle.chacha20.specs.Generator.{next_u64, repeated, of_seed};

use chacha20::cipher::RngBackend;
use chacha20::{ChaCha20Rng, ChaChaRng, Rounds, Seed};

/// Draws a number below a bound: the next word of 64 bits times the bound, divided by 2^64. It draws exactly one word.
/// So it is not quite uniform: some numbers come from one more of the 2^64 words than others. The chance of each is
/// 1 / bound, within a factor of 1 ± bound / 2^64.
pub fn below<R: Rounds, B: RngBackend<R>>(rng: &mut ChaChaRng<R, B>, bound: u64) -> u64
    requires { 0 < bound }
    ensures below { result < bound }
    ensures value { result ≡ (next_u64 R.COUNT rng.old).0 * bound / 2 ^ 64 }
    ensures moved { rng.new ≡ (next_u64 R.COUNT rng.old).1 }
{
    let product = u128::from(rng.next_u64()) * u128::from(bound);
    (product >> 64) as u64
}

/// Draws a number below a bound for each place of a slice.
pub fn fill_below<R: Rounds, B: RngBackend<R>>(
    rng: &mut ChaChaRng<R, B>,
    bound: u64,
    numbers: &mut [u64],
)
    requires { 0 < bound }
    ensures below { All (λ number. number < bound) numbers.new }
    ensures value { numbers.new ≡ map (λ word. word * bound / 2 ^ 64)
        (repeated (next_u64 R.COUNT) (length numbers.old) rng.old).0 }
    ensures moved { rng.new ≡ (repeated (next_u64 R.COUNT) (length numbers.old) rng.old).1 }
{
    'each: for i in 0..numbers.len() {
        numbers[i] = below(rng, bound);
    }
}

/// Rolls so many dice by `below`, and returns their sum.
pub fn total<R: Rounds, B: RngBackend<R>>(rng: &mut ChaChaRng<R, B>, count: u32) -> u64
    ensures most { result ≤ 6 * count }
    ensures value { result ≡ sum_by (λ word. word * 6 / 2 ^ 64 + 1)
        (repeated (next_u64 R.COUNT) count rng.old).0 }
    ensures moved { rng.new ≡ (repeated (next_u64 R.COUNT) count rng.old).1 }
{
    let mut sum = 0;
    'each: for i in 0..count {
        sum += below(rng, 6) + 1;
    }
    sum
}

/// The number at this index, counted from 0, that a seed's generator draws below a bound, without those before it. `m`
/// is any count of numbers that has it.
pub fn number_at(seed: Seed, bound: u64, index: u64) -> u64
    requires { 0 < bound }
    ensures { (m : ℕ) → index < m
        → result ≡ slice_index (repeated (next_u64 10) m (of_seed seed)).0 index * bound / 2 ^ 64 }
{
    let mut rng = ChaCha20Rng::from_seed(seed);
    rng.set_word_pos(2 * u128::from(index));
    below(&mut rng, bound)
}

/// The generator of one of several workers that share a seed: it starts at the first word of the stream with the
/// worker's number. What a worker draws doesn't depend on the other workers, nor on how many there are.
pub fn worker(seed: Seed, number: u64) -> ChaCha20Rng
    ensures value { result ≡ record { seed = seed; stream = number; word_pos = 0 } }
    // The nonce of a worker's blocks is the 8 bytes of its stream: no other number has the same.
    ensures apart { (other : ℕ) → other < 2 ^ 64
        → to_le_bytes w64 other ≡ to_le_bytes w64 result.stream → other ≡ number }
{
    let mut rng = ChaCha20Rng::from_seed(seed);
    rng.set_stream(number);
    rng
}

/// Draws numbers in two parts, and stores the run between them. Numbers and generator are those of one unbroken run.
pub fn fill_in_two<R: Rounds, B: RngBackend<R>>(
    rng: &mut ChaChaRng<R, B>,
    bound: u64,
    first: &mut [u64],
    rest: &mut [u64],
)
    requires { 0 < bound }
    ensures value { first.new ++ rest.new ≡ map (λ word. word * bound / 2 ^ 64)
        (repeated (next_u64 R.COUNT) (length first.old + length rest.old) rng.old).0 }
    ensures moved { rng.new
        ≡ (repeated (next_u64 R.COUNT) (length first.old + length rest.old) rng.old).1 }
{
    fill_below(rng, bound, first);
    let stored = rng.serialize_state();
    *rng = ChaChaRng::deserialize_state(&stored);
    fill_below(rng, bound, rest);
}
