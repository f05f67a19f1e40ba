//! The loops, for each kind of cipher, core and generator over a backend.

ghost use Rattle.std.specs.Prelude.{◌<◌};

use super::loops::{
    Applies, Called, Verdict, blocks, cuts, fronts, generator_fronts, last_bytes, parts,
    words_around_the_wrap,
};
use chacha20::backends::Soft;
use chacha20::cipher::{
    KeyIvInit, RngBackend, StreamCipherBackend, StreamCipherCore, StreamCipherSeekCore,
};
use chacha20::rand_core::SeedableRng;
use chacha20::variants::{Ietf, Legacy, Variant};
use chacha20::{
    ChaChaCore, ChaChaRng, Key, LegacyNonce, Nonce, R20, Rounds, Seed, StreamCipherCoreWrapper,
    XChaChaCore, XNonce, hchacha,
};
use known_answers::R0;
use known_answers::published::{
    DERIVED_NONCE, FROM_1, FROM_80, LEGACY_KEYSTREAM, LEGACY_NONCE, X_NONCE, X_NONCE_FRONT,
};

const KEY: Key = [0x42; 32];

// A new cipher over a core, which is called directly or by lists.
fn called<K>(key: &Key, nonce: &K::Iv, by_lists: bool) -> Called<K>
where
    K: KeyIvInit<Key = Key> + StreamCipherSeekCore + Drop,
{
    Called {
        cipher: StreamCipherCoreWrapper::new(key, nonce),
        by_lists,
    }
}

/// The kinds with a nonce of 12 or of 24 bytes and so many rounds.
pub fn ietf<R: Rounds, B: StreamCipherBackend<R, Ietf>>(verdict: &mut Verdict) {
    ietf_over::<R, ChaChaCore<R, Ietf, B>, XChaChaCore<R, B>>(verdict);
}

fn ietf_over<R, K, X>(verdict: &mut Verdict)
where
    R: Rounds,
    K: KeyIvInit<Key = Key, Iv = Nonce> + StreamCipherSeekCore + Drop,
    X: KeyIvInit<Key = Key, Iv = XNonce> + StreamCipherSeekCore + Drop,
{
    cuts_both_ways::<Nonce, K>(&[7; 12], verdict);
    cuts_both_ways::<XNonce, X>(&[7; 24], verdict);
    let subkey = hchacha::<R>(&FROM_80, &X_NONCE_FRONT);
    let mut there = called::<K>(&subkey, &DERIVED_NONCE, false);
    let is_undone = undoes(&mut there, &mut called::<X>(&FROM_80, &X_NONCE, false));
    verdict.note_unless(is_undone, "130 bytes of XChaCha", 0);
}

fn cuts_both_ways<N, K>(nonce: &N, verdict: &mut Verdict)
where
    K: KeyIvInit<Key = Key, Iv = N> + StreamCipherSeekCore + Drop,
{
    cuts(&mut called::<K>(&KEY, nonce, false), verdict);
    cuts(&mut called::<K>(&KEY, nonce, true), verdict);
}

// XChaCha is ChaCha under the key that `hchacha` derives (draft-irtf-cfrg-xchacha, 2.3).
fn undoes<C: Applies, X: Applies>(there: &mut C, back: &mut X) -> bool {
    let mut bytes = [0; 130];
    there.apply(&mut bytes) & back.apply(&mut bytes) & (bytes == [0; 130])
}

/// The legacy cipher: all cuts, and two parts of its published stream.
pub fn legacy<K>(step: usize, verdict: &mut Verdict)
where
    K: KeyIvInit<Key = Key, Iv = LegacyNonce> + StreamCipherSeekCore + Drop,
{
    let mut by_lists = called::<K>(&FROM_1, &LEGACY_NONCE, true);
    parts_and_cuts(&mut by_lists, 17, verdict);
    let mut direct = called::<K>(&FROM_1, &LEGACY_NONCE, false);
    parts_and_cuts(&mut direct, step, verdict);
}

fn parts_and_cuts<C: Applies>(cipher: &mut C, step: usize, verdict: &mut Verdict) {
    parts(cipher, LEGACY_KEYSTREAM, step, verdict);
    verdict.note_unless(cipher.seek_to(0), "a seek to the start", 0);
    cuts(cipher, verdict);
}

/// Cores in both layouts, beside those over `Soft`.
pub fn beside_soft<R, B>(verdict: &mut Verdict)
where
    R: Rounds,
    B: StreamCipherBackend<R, Ietf> + StreamCipherBackend<R, Legacy> + RngBackend<R>,
{
    beside::<Nonce, ChaChaCore<R, Ietf, B>, ChaChaCore<R, Ietf, Soft>>(&[7; 12], verdict);
    seeded_beside::<ChaChaCore<R, Legacy, B>, ChaChaCore<R, Legacy, Soft>>(verdict);
}

/// The same of what has 20 rounds only.
pub fn beside_soft_20<B>(verdict: &mut Verdict)
where
    B: StreamCipherBackend<R20, Ietf> + StreamCipherBackend<R20, Legacy> + RngBackend<R20>,
{
    beside::<XNonce, XChaChaCore<R20, B>, XChaChaCore<R20, Soft>>(&[7; 24], verdict);
    beside::<LegacyNonce, ChaChaCore<R20, Legacy, B>, ChaChaCore<R20, Legacy, Soft>>(
        &[7; 8], verdict,
    );
    generator_fronts::<R20, B, Soft>(KEY, verdict);
}

// Blocks from five before 2^32 on, and fronts of the stream.
fn beside<N, K, S>(nonce: &N, verdict: &mut Verdict)
where
    K: KeyIvInit<Key = Key, Iv = N> + StreamCipherSeekCore + Drop,
    S: KeyIvInit<Key = Key, Iv = N> + StreamCipherSeekCore<Counter = K::Counter> + Drop,
    requires { 4294967291 < K.Counter.M }
{
    let (mut core, mut plain) = (K::new(&KEY, nonce), S::new(&KEY, nonce));
    blocks(&mut core, &mut plain, 0xffff_fffb, verdict);
    let mut cipher = called::<K>(&KEY, nonce, false);
    fronts(&mut cipher, &mut called::<S>(&KEY, nonce, false), verdict);
}

fn seeded_beside<K, S>(verdict: &mut Verdict)
where
    K: SeedableRng<Seed = Seed> + StreamCipherSeekCore<Counter = u64> + Drop,
    S: SeedableRng<Seed = Seed> + StreamCipherSeekCore<Counter = u64> + Drop,
{
    let (mut core, mut plain) = (K::from_seed(KEY), S::from_seed(KEY));
    blocks(&mut core, &mut plain, 0xffff_fffb, verdict);
}

// The block with the greatest counter is one of those that are left. A `usize` can't hold 2^64.
#[test]
fn remaining_blocks(rt: HostRuntime) {
    assert!(rt; Ietf::remaining_blocks(0) == Some(4294967296));
    assert!(rt; Ietf::remaining_blocks(4294967295) == Some(1));
    assert!(rt; Legacy::remaining_blocks(0).is_none());
    assert!(rt; Legacy::remaining_blocks(1) == Some(18446744073709551615));
    assert!(rt; Legacy::remaining_blocks(18446744073709551615) == Some(1));
}

fn before_the_wrap<B: RngBackend<R0>>() -> ChaChaRng<R0, B> {
    let mut rng = ChaChaRng::<R0, B>::from_seed([0; 32]);
    rng.set_stream(0x8000_0001_0000_0003);
    rng.set_block_pos(u64::MAX - 1);
    rng
}

/// A core of zeros makes blocks of zeros and the counter.
pub fn zeroized<B: StreamCipherBackend<R0, Ietf>>(verdict: &mut Verdict) {
    let mut core = ChaChaCore::<R0, Ietf, B>::new(&KEY, &[7; 12]);
    core.zeroize();
    let mut blocks = [[1; 64]; 2];
    core.write_keystream_blocks(&mut blocks);
    let mut second = [0; 64];
    second[48] = 2;
    let right = (blocks == [[0; 64], second]) & (core.get_block_pos() == 2);
    verdict.note_unless(right, "two blocks", 0);
}

/// Generators.
pub fn generators<B: RngBackend<R0>>(verdict: &mut Verdict) {
    let (mut asked, mut unasked) = (before_the_wrap::<B>(), before_the_wrap::<B>());
    words_around_the_wrap(&mut asked, &mut unasked, verdict);
    last_bytes::<R0, B>(verdict);
}
