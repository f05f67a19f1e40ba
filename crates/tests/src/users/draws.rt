//! Other draws by the toolchain's `rand`, and that the generators of its `rand_chacha` are ours.

ghost use Rattle.std.specs.Prelude.{◌≡◌, IfOk, IsPermutation};
ghost use Rattle.rand.specs.Sample.{IsSampleOf};

use chacha20::backends::Lanes8;
use chacha20::cipher::RngBackend;
use chacha20::{ChaCha12Rng, ChaCha20Rng, ChaChaRng, R20, Rounds, Seed};
use rand::seq::index::IndexVec;
use rand::seq::{SliceRandom, index};
use rand_chacha::ChaChaXRng;
use rand_core::{Rng, SeedableRng};
use std::alloc::{AllocError, Allocator};

fn shuffle<T>(rng: &mut ChaCha20Rng, items: &mut [T])
    ensures { IsPermutation items.old items.new }
{
    items.shuffle(rng);
}

// Six different numbers below 49.
fn lottery<A: Allocator + Clone>(alloc: A, rng: &mut ChaCha20Rng) -> Result<IndexVec<A>, AllocError>
    ensures { IfOk result (IsSampleOf 49 6) }
{
    index::sample(alloc, rng, 49, 6)
}

// Generators of both libraries answer alike, for each number of rounds, backend, seed, stream and position.
fn same_stream<R: Rounds, B: RngBackend<R>, const DOUBLE_ROUNDS: u32>(
    seed: Seed,
    stream: u64,
    word_pos: u128,
) -> (ChaChaRng<R, B>, ChaChaXRng<DOUBLE_ROUNDS>)
    requires { R.COUNT ≡ DOUBLE_ROUNDS }
    ensures { ⟦<ChaChaRng<R, B> as Rng>⟧.stream result.0
        ≡ ⟦<ChaChaXRng<DOUBLE_ROUNDS> as Rng>⟧.stream result.1 }
{
    let mut ours = ChaChaRng::from_seed(seed);
    ours.set_stream(stream);
    ours.set_word_pos(word_pos);
    let mut theirs = ChaChaXRng::from_seed(seed);
    theirs.set_stream(stream);
    theirs.set_word_pos(word_pos);
    (ours, theirs)
}

// From the tests of the Rust crate `rand` 0.10 (`test_stdrng_construction`).
#[test]
fn published(rt: HostRuntime) {
    let mut seed = [0; 32];
    [seed[0], seed[4], seed[8], seed[9], seed[12], seed[13]] = [1, 23, 200, 1, 210, 30];
    let mut rng = ChaCha12Rng::from_seed(seed);
    assert_eq!(rt; rng.next_u64(), 10719222850664546238);
}

// Whether both generators sample the same. No clause says which sample comes of a stream.
fn same_sample(rt: &HostRuntime, stream: u64) -> Result<bool, AllocError> {
    let (mut ours, mut theirs) = same_stream::<R20, Lanes8, 10>([0; 32], stream, 1);
    let sample = lottery(rt.alloc(), &mut ours)?;
    let other = index::sample(rt.alloc(), &mut theirs, 49, 6)?;
    Ok(sample.as_slice() == other.as_slice())
}

#[test]
fn equal_samples(rt: HostRuntime) {
    let mut equal = 0u32;
    for stream in 0..100 {
        if same_sample(&rt, stream) == Ok(true) {
            equal = equal.saturating_add(1);
        }
    }
    assert!(rt; equal == 100);
}
