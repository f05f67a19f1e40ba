//! Facts on the named ciphers and generators, which hold by computation. A named type with a wrong number of rounds,
//! layout, size, text or cost would break one of them.

ghost use Rattle.std.specs.Prelude.{◌≡◌, ◌*◌, ◌^◌, ℕ, List, length, take, replicate, Some, codes};
ghost use Rattle.rand_core.specs.Steps.{stream_of};
ghost use Rattle.rand_core.specs.Pcg32Seed.{pcg32_seed};
ghost use Rattle.chacha_base.specs.ChaCha.{keystream, chacha_stream, start, ietf, legacy};
ghost use Rattle.chacha_base.specs.Cipher.{limit_of};
ghost use Rattle.chacha_base.specs.Counts.{for_bytes};
ghost use Rattle.chacha20.specs.Generator.{of_seed, reads};
ghost use Rattle.chacha20.specs.XChaCha.{hchacha, subnonce, xchacha_stream};

// By the root's names, so that an export under another's name fails.
use crate::{
    ChaCha8, ChaCha8Rng, ChaCha12, ChaCha12Rng, ChaCha20, ChaCha20Legacy, ChaCha20Rng, ChaChaCore,
    ChaChaRng, XChaCha8, XChaCha12, XChaCha20, XChaChaCore,
};
use chacha_base::cipher::{
    IvSizeUser, KeyIvInit, KeySizeUser, Keystream, RngBackend, StreamCipher, StreamCipherBackend,
    StreamCipherCore,
};
use chacha_base::rounds::{R8, R12, R20, Rounds};
use chacha_base::variants::{Ietf, Legacy, Variant};
use chacha_base::wrapper::StreamCipherCoreWrapper;
use rand_core::{Rng, SeedableRng};
use std::fmt;

// The keystream that a key and a nonce define. No source has bytes of XChaCha8 and XChaCha12, so their clauses show
// that the subkey has the stream's number of rounds.
fn ciphers()
    ensures chacha8 { (λ key nonce. keystream ⟦<ChaCha8 as Keystream>⟧.modulus
        (⟦<ChaCha8 as KeyIvInit>⟧.blocks_of key nonce)) ≡ chacha_stream 4 ietf }
    ensures chacha12 { (λ key nonce. keystream ⟦<ChaCha12 as Keystream>⟧.modulus
        (⟦<ChaCha12 as KeyIvInit>⟧.blocks_of key nonce)) ≡ chacha_stream 6 ietf }
    ensures chacha20 { (λ key nonce. keystream ⟦<ChaCha20 as Keystream>⟧.modulus
        (⟦<ChaCha20 as KeyIvInit>⟧.blocks_of key nonce)) ≡ chacha_stream 10 ietf }
    ensures chacha20_legacy { (λ key nonce. keystream ⟦<ChaCha20Legacy as Keystream>⟧.modulus
        (⟦<ChaCha20Legacy as KeyIvInit>⟧.blocks_of key nonce)) ≡ chacha_stream 10 legacy }
    ensures xchacha8 { ◌≡◌ {A = List ℕ → List ℕ → ℕ → ℕ}
        (λ key nonce. keystream ⟦<XChaCha8 as Keystream>⟧.modulus
        (⟦<XChaCha8 as KeyIvInit>⟧.blocks_of key nonce))
        (λ key nonce. chacha_stream 4 ietf (hchacha 4 key (take 16 nonce)) (subnonce nonce)) }
    ensures xchacha12 { ◌≡◌ {A = List ℕ → List ℕ → ℕ → ℕ}
        (λ key nonce. keystream ⟦<XChaCha12 as Keystream>⟧.modulus
        (⟦<XChaCha12 as KeyIvInit>⟧.blocks_of key nonce))
        (λ key nonce. chacha_stream 6 ietf (hchacha 6 key (take 16 nonce)) (subnonce nonce)) }
    ensures xchacha20 { (λ key nonce. keystream ⟦<XChaCha20 as Keystream>⟧.modulus
        (⟦<XChaCha20 as KeyIvInit>⟧.blocks_of key nonce)) ≡ xchacha_stream 10 }
{}

// The length of each keystream in bytes, where calls are refused, and the sizes of nonces.
fn limits()
    ensures chacha8 { limit_of ⟦<ChaCha8 as Keystream>⟧.modulus ≡ 2 ^ 38 }
    ensures chacha12 { limit_of ⟦<ChaCha12 as Keystream>⟧.modulus ≡ 2 ^ 38 }
    ensures chacha20 { limit_of ⟦<ChaCha20 as Keystream>⟧.modulus ≡ 2 ^ 38 }
    ensures chacha20_legacy { limit_of ⟦<ChaCha20Legacy as Keystream>⟧.modulus
        ≡ 1180591620717411303424 }
    ensures xchacha8 { limit_of ⟦<XChaCha8 as Keystream>⟧.modulus ≡ 2 ^ 38 }
    ensures xchacha12 { limit_of ⟦<XChaCha12 as Keystream>⟧.modulus ≡ 2 ^ 38 }
    ensures xchacha20 { limit_of ⟦<XChaCha20 as Keystream>⟧.modulus ≡ 2 ^ 38 }
    ensures chacha8_nonce { ⟦<ChaCha8 as IvSizeUser>⟧.IV_SIZE ≡ 12 }
    ensures chacha12_nonce { ⟦<ChaCha12 as IvSizeUser>⟧.IV_SIZE ≡ 12 }
    ensures chacha20_nonce { ⟦<ChaCha20 as IvSizeUser>⟧.IV_SIZE ≡ 12 }
    ensures chacha20_legacy_nonce { ⟦<ChaCha20Legacy as IvSizeUser>⟧.IV_SIZE ≡ 8 }
    ensures xchacha8_nonce { ⟦<XChaCha8 as IvSizeUser>⟧.IV_SIZE ≡ 24 }
    ensures xchacha12_nonce { ⟦<XChaCha12 as IvSizeUser>⟧.IV_SIZE ≡ 24 }
    ensures xchacha20_nonce { ⟦<XChaCha20 as IvSizeUser>⟧.IV_SIZE ≡ 24 }
{}

// The words that a seed, a stream and a word position define, as all reads take them, and the texts of `Debug`, the
// same for every seed, stream and position.
fn generators()
    ensures chacha8_rng { ⟦<ChaCha8Rng as Rng>⟧.stream ≡ stream_of (reads 4) }
    ensures chacha12_rng { ⟦<ChaCha12Rng as Rng>⟧.stream ≡ stream_of (reads 6) }
    ensures chacha20_rng { ⟦<ChaCha20Rng as Rng>⟧.stream ≡ stream_of (reads 10) }
    ensures chacha8_rng_text { ⟦<ChaCha8Rng as fmt::Debug>⟧.debug_output
        ≡ (λ _. Some (codes "ChaCha8Rng { ... }")) }
    ensures chacha12_rng_text { ⟦<ChaCha12Rng as fmt::Debug>⟧.debug_output
        ≡ (λ _. Some (codes "ChaCha12Rng { ... }")) }
    ensures chacha20_rng_text { ⟦<ChaCha20Rng as fmt::Debug>⟧.debug_output
        ≡ (λ _. Some (codes "ChaCha20Rng { ... }")) }
{}

// Where every generator and its core start for a seed, and which seed they take for a number.
fn seeds<R: Rounds, B: RngBackend<R>>()
    ensures rng { ⟦<ChaChaRng<R, B> as SeedableRng>⟧.of_seed ≡ of_seed }
    ensures rng_number { ⟦<ChaChaRng<R, B> as SeedableRng>⟧.seed_of_u64 ≡ pcg32_seed 32 }
    ensures core { ⟦<ChaChaCore<R, Legacy, B> as SeedableRng>⟧.of_seed
        ≡ (λ seed. start legacy seed (replicate 8 0) 0) }
    ensures core_number { ⟦<ChaChaCore<R, Legacy, B> as SeedableRng>⟧.seed_of_u64
        ≡ pcg32_seed 32 }
{}

// The texts of `Debug` of the cores, the same for every state. The last is of `ChaCha20Legacy` and of `ChaCha20Rng`.
fn core_texts<B>()
    ensures chacha8 { ⟦<ChaChaCore<R8, Ietf, B> as fmt::Debug>⟧.debug_output
        ≡ (λ _. Some (codes "ChaChaCore<R: 4, V: 32-bit)> { ... }")) }
    ensures chacha12 { ⟦<ChaChaCore<R12, Ietf, B> as fmt::Debug>⟧.debug_output
        ≡ (λ _. Some (codes "ChaChaCore<R: 6, V: 32-bit)> { ... }")) }
    ensures chacha20 { ⟦<ChaChaCore<R20, Ietf, B> as fmt::Debug>⟧.debug_output
        ≡ (λ _. Some (codes "ChaChaCore<R: 10, V: 32-bit)> { ... }")) }
    ensures chacha8_rng { ⟦<ChaChaCore<R8, Legacy, B> as fmt::Debug>⟧.debug_output
        ≡ (λ _. Some (codes "ChaChaCore<R: 4, V: 64-bit)> { ... }")) }
    ensures chacha12_rng { ⟦<ChaChaCore<R12, Legacy, B> as fmt::Debug>⟧.debug_output
        ≡ (λ _. Some (codes "ChaChaCore<R: 6, V: 64-bit)> { ... }")) }
    ensures chacha20_legacy { ⟦<ChaChaCore<R20, Legacy, B> as fmt::Debug>⟧.debug_output
        ≡ (λ _. Some (codes "ChaChaCore<R: 10, V: 64-bit)> { ... }")) }
{}

// The constants for sizes are those of the types of keys and nonces.
fn sizes(
    key: &<ChaCha20 as KeyIvInit>::Key,
    nonce: &<ChaCha20 as KeyIvInit>::Iv,
    legacy_key: &<ChaCha20Legacy as KeyIvInit>::Key,
    legacy_nonce: &<ChaCha20Legacy as KeyIvInit>::Iv,
    extended_key: &<XChaCha20 as KeyIvInit>::Key,
    extended_nonce: &<XChaCha20 as KeyIvInit>::Iv,
)
    ensures key { length key.now ≡ ⟦<ChaCha20 as KeySizeUser>⟧.KEY_SIZE }
    ensures nonce { length nonce.now ≡ ⟦<ChaCha20 as IvSizeUser>⟧.IV_SIZE }
    ensures legacy_key { length legacy_key.now ≡ ⟦<ChaCha20Legacy as KeySizeUser>⟧.KEY_SIZE }
    ensures legacy_nonce { length legacy_nonce.now ≡ ⟦<ChaCha20Legacy as IvSizeUser>⟧.IV_SIZE }
    ensures extended_key { length extended_key.now ≡ ⟦<XChaCha20 as KeySizeUser>⟧.KEY_SIZE }
    ensures extended_nonce { length extended_nonce.now ≡ ⟦<XChaCha20 as IvSizeUser>⟧.IV_SIZE }
{}

// What a core counts, and a cipher over it, with any backend, and where the core starts.
fn core_costs<R: Rounds, V: Variant, B: StreamCipherBackend<R, V>>()
    ensures par { ⟦<ChaChaCore<R, V, B> as StreamCipherCore>⟧.par_cost ≡ B.PAR_STEPS * R.COUNT }
    ensures one { ⟦<ChaChaCore<R, V, B> as StreamCipherCore>⟧.one_cost ≡ B.ONE_STEPS * R.COUNT }
    ensures first { ⟦<ChaChaCore<R, V, B> as Keystream>⟧.first_position ≡ 0 }
    ensures cipher { ⟦<StreamCipherCoreWrapper<ChaChaCore<R, V, B>> as StreamCipher>⟧.cost
        ≡ for_bytes B.PAR_BLOCKS (B.PAR_STEPS * R.COUNT) (B.ONE_STEPS * R.COUNT) }
{}

// The same of a core with nonces of 24 bytes.
fn extended_core_costs<R: Rounds, B: StreamCipherBackend<R, Ietf>>()
    ensures par { ⟦<XChaChaCore<R, B> as StreamCipherCore>⟧.par_cost ≡ B.PAR_STEPS * R.COUNT }
    ensures one { ⟦<XChaChaCore<R, B> as StreamCipherCore>⟧.one_cost ≡ B.ONE_STEPS * R.COUNT }
    ensures first { ⟦<XChaChaCore<R, B> as Keystream>⟧.first_position ≡ 0 }
    ensures cipher { ⟦<StreamCipherCoreWrapper<XChaChaCore<R, B>> as StreamCipher>⟧.cost
        ≡ for_bytes B.PAR_BLOCKS (B.PAR_STEPS * R.COUNT) (B.ONE_STEPS * R.COUNT) }
{}
