//! What callers learn from public contracts alone.

ghost use Rattle.std.specs.Prelude.{◌≡◌, ◌+◌, ◌≤◌, ◌<◌, ℕ, ◌*◌, length, slice_get, Some, IsOk, OnOk};
ghost use Rattle.chacha20.specs.State.{fixed_words, state_counter};
ghost use Rattle.chacha20.specs.Cipher.{limit_of};
ghost use Rattle.chacha20.specs.Counts.{Grows, for_bytes};

use chacha20::backends::{Columns8, Lanes4, Lanes8, Lanes16, Rows8, Soft};
use chacha20::cipher::{
    KeyIvInit, RngBackend, StreamCipher, StreamCipherBackend, StreamCipherCore, StreamCipherError,
    StreamCipherSeek,
};
use chacha20::variants::{Ietf, Variant};
use chacha20::{
    ChaCha20, ChaCha20Legacy, ChaChaCore, Key, R20, Rounds, Steps, StreamCipherCoreWrapper,
    XChaCha20,
};
use key_file::{key_of, line_of};

type Ietf20<B> = StreamCipherCoreWrapper<ChaChaCore<R20, Ietf, B>>;

// A cipher that has sought back to its position is the one that was there, by a law of ciphers.
fn apply_and_seek_back<C: StreamCipherSeek>(cipher: &mut C, position: u128, bytes: &mut [u8])
    requires position { C.position cipher.old ≡ position }
    requires fits { position + length bytes.old ≤ limit_of C.modulus }
    ensures { cipher.new ≡ cipher.old }
{
    cipher.apply_keystream(bytes);
    cipher.seek(position);
}

// A key that was written as a line is read back.
fn key_back(key: &Key) -> Option<Key>
    ensures { result ≡ Some key.now }
{
    key_of(&line_of(key))
}

// Two backends: the same block, and the same state after it.
fn same_block<R: Rounds, V: Variant, A: StreamCipherBackend<R, V>, B: StreamCipherBackend<R, V>>(
    state: &mut [u32; 16],
    block: &mut [u8; 64],
    other_state: &mut [u32; 16],
    other_block: &mut [u8; 64],
    steps: &mut Steps,
)
    requires { state.old ≡ other_state.old }
    ensures block { block.new ≡ other_block.new }
    ensures state { state.new ≡ other_state.new }
{
    A::gen_ks_block(state, block, steps);
    B::gen_ks_block(other_state, other_block, steps);
}

// Two backends of one width: the same blocks of a parallel call, and the same state after them.
fn same_group<R: Rounds, V: Variant, A: StreamCipherBackend<R, V>, B: StreamCipherBackend<R, V>>(
    state: &mut [u32; 16],
    blocks: &mut [[u8; 64]],
    other_state: &mut [u32; 16],
    other_blocks: &mut [[u8; 64]],
    steps: &mut Steps,
)
    requires widths { A.PAR_BLOCKS ≡ B.PAR_BLOCKS }
    requires states { state.old ≡ other_state.old }
    requires group { length blocks.old ≡ A.PAR_BLOCKS }
    requires other_group { length other_blocks.old ≡ B.PAR_BLOCKS }
    ensures blocks { (i : ℕ) → i < length blocks.old
        → slice_get blocks.new i ≡ slice_get other_blocks.new i }
    ensures state { state.new ≡ other_state.new }
{
    A::gen_par_ks_blocks(state, blocks, steps);
    B::gen_par_ks_blocks(other_state, other_blocks, steps);
}

// Two backends, whatever their widths: the same blocks of a tail that is shorter than both, and the same state after
// them.
fn same_tail<R: Rounds, V: Variant, A: StreamCipherBackend<R, V>, B: StreamCipherBackend<R, V>>(
    state: &mut [u32; 16],
    blocks: &mut [[u8; 64]],
    other_state: &mut [u32; 16],
    other_blocks: &mut [[u8; 64]],
    steps: &mut Steps,
)
    requires states { state.old ≡ other_state.old }
    requires lengths { length blocks.old ≡ length other_blocks.old }
    requires tail { length blocks.old < A.PAR_BLOCKS }
    requires other_tail { length other_blocks.old < B.PAR_BLOCKS }
    ensures blocks { (i : ℕ) → i < length blocks.old
        → slice_get blocks.new i ≡ slice_get other_blocks.new i }
    ensures state { state.new ≡ other_state.new }
{
    A::gen_tail_blocks(state, blocks, steps);
    B::gen_tail_blocks(other_state, other_blocks, steps);
}

// Cores over two backends, whatever their widths: the same blocks, and after them the same fixed part and counter.
// Clauses of a core's calls speak of nothing else.
fn same_blocks<R: Rounds, V: Variant, A: StreamCipherBackend<R, V>, B: StreamCipherBackend<R, V>>(
    core: &mut ChaChaCore<R, V, A>,
    blocks: &mut [[u8; 64]],
    other_core: &mut ChaChaCore<R, V, B>,
    other_blocks: &mut [[u8; 64]],
)
    requires cores { core.old ≡ other_core.old }
    requires lengths { length blocks.old ≡ length other_blocks.old }
    ensures blocks { (i : ℕ) → i < length blocks.old
        → slice_get blocks.new i ≡ slice_get other_blocks.new i }
    ensures fixed { fixed_words V.layout core.new ≡ fixed_words V.layout other_core.new }
    ensures counter { state_counter V.layout core.new ≡ state_counter V.layout other_core.new }
{
    core.write_keystream_blocks(blocks);
    other_core.write_keystream_blocks(other_blocks);
}

// Two backends: the same words of a generator, and the same state after them.
fn same_words<R: Rounds, A: RngBackend<R>, B: RngBackend<R>>(
    state: &mut [u32; 16],
    words: &mut [u32; 64],
    other_state: &mut [u32; 16],
    other_words: &mut [u32; 64],
    steps: &mut Steps,
)
    requires { state.old ≡ other_state.old }
    ensures words { words.new ≡ other_words.new }
    ensures state { state.new ≡ other_state.new }
{
    A::gen_ks_blocks(state, words, steps);
    B::gen_ks_blocks(other_state, other_words, steps);
}

// Applies a fresh cipher to nine blocks and a last part of ten bytes. It counts what its backend's constants say.
fn apply_586_bytes<B: StreamCipherBackend<R20, Ietf>>(
    steps: &mut Steps,
) -> Result<(), StreamCipherError>
    ensures accepted { IsOk result }
    ensures steps { OnOk result (Grows
        (for_bytes B.PAR_BLOCKS (B.PAR_STEPS * 10) (B.ONE_STEPS * 10) 0 586)
        steps.old steps.new) }
{
    Ietf20::<B>::new(&[0; 32], &[0; 12]).try_apply_keystream_counted(&mut [0; 586], steps)
}

// What that is over each backend: parallel calls and others at most, and quarter rounds.

// Nine parallel calls of one block, and the last part.
fn apply_586_bytes_soft(steps: &mut Steps) -> Result<(), StreamCipherError>
    ensures accepted { IsOk result }
    ensures par { steps.new.par ≤ steps.old.par + 9 }
    ensures other { steps.new.other ≤ steps.old.other + 1 }
    ensures rounds { steps.new.rounds ≡ steps.old.rounds + 800 }
{
    apply_586_bytes::<Soft>(steps)
}

// Two parallel calls of four blocks, a tail of one, and the last part.
fn apply_586_bytes_lanes4(steps: &mut Steps) -> Result<(), StreamCipherError>
    ensures accepted { IsOk result }
    ensures par { steps.new.par ≤ steps.old.par + 2 }
    ensures other { steps.new.other ≤ steps.old.other + 2 }
    ensures rounds { steps.new.rounds ≡ steps.old.rounds + 320 }
{
    apply_586_bytes::<Lanes4>(steps)
}

// The same, with half the quarter rounds.
fn apply_586_bytes_lanes8(steps: &mut Steps) -> Result<(), StreamCipherError>
    ensures accepted { IsOk result }
    ensures par { steps.new.par ≤ steps.old.par + 2 }
    ensures other { steps.new.other ≤ steps.old.other + 2 }
    ensures rounds { steps.new.rounds ≡ steps.old.rounds + 160 }
{
    apply_586_bytes::<Lanes8>(steps)
}

// A parallel call of eight blocks, a tail of one, and the last part.
fn apply_586_bytes_rows8(steps: &mut Steps) -> Result<(), StreamCipherError>
    ensures accepted { IsOk result }
    ensures par { steps.new.par ≤ steps.old.par + 1 }
    ensures other { steps.new.other ≤ steps.old.other + 2 }
    ensures rounds { steps.new.rounds ≡ steps.old.rounds + 480 }
{
    apply_586_bytes::<Rows8>(steps)
}

// A tail of nine blocks, and the last part.
fn apply_586_bytes_lanes16(steps: &mut Steps) -> Result<(), StreamCipherError>
    ensures accepted { IsOk result }
    ensures par { steps.new.par ≤ steps.old.par + 0 }
    ensures other { steps.new.other ≤ steps.old.other + 10 }
    ensures rounds_from { steps.old.rounds + 40 ≤ steps.new.rounds }
    ensures rounds_to { steps.new.rounds ≤ steps.old.rounds + 200 }
{
    apply_586_bytes::<Lanes16>(steps)
}

// A parallel call of eight blocks, a tail of one, and the last part.
fn apply_586_bytes_columns8(steps: &mut Steps) -> Result<(), StreamCipherError>
    ensures accepted { IsOk result }
    ensures par { steps.new.par ≤ steps.old.par + 1 }
    ensures other { steps.new.other ≤ steps.old.other + 2 }
    ensures rounds { steps.new.rounds ≡ steps.old.rounds + 120 }
{
    apply_586_bytes::<Columns8>(steps)
}

// Bounds on what the named ciphers count, at every position: those of `Lanes16`.
fn named_costs()
    ensures chacha20 { ⟦<ChaCha20 as StreamCipher>⟧.cost ≡ for_bytes 16 80 20 }
    ensures chacha20_legacy { ⟦<ChaCha20Legacy as StreamCipher>⟧.cost ≡ for_bytes 16 80 20 }
    ensures xchacha20 { ⟦<XChaCha20 as StreamCipher>⟧.cost ≡ for_bytes 16 80 20 }
{}

// Exact numbers of one backend, which the traits leave to it.

// A tail of nine blocks: eight quarter rounds for each of ten double rounds.
fn tail_of_nine_lanes16(state: &mut [u32; 16], blocks: &mut [[u8; 64]; 9], steps: &mut Steps)
    ensures { steps.new.rounds ≡ steps.old.rounds + 80 }
{
    <Lanes16 as StreamCipherBackend<R20, Ietf>>::gen_tail_blocks(state, blocks, steps);
}

// A tail of five blocks, as six in rows: four quarter rounds for each double round.
fn tail_of_five_columns8(state: &mut [u32; 16], blocks: &mut [[u8; 64]; 5], steps: &mut Steps)
    ensures { steps.new.rounds ≡ steps.old.rounds + 40 }
{
    <Columns8 as StreamCipherBackend<R20, Ietf>>::gen_tail_blocks(state, blocks, steps);
}

// The words of a generator: four.
fn words_lanes8(state: &mut [u32; 16], words: &mut [u32; 64], steps: &mut Steps)
    ensures { steps.new.rounds ≡ steps.old.rounds + 40 }
{
    <Lanes8 as RngBackend<R20>>::gen_ks_blocks(state, words, steps);
}
