//! Lists of calls on a generator.

ghost use Rattle.std.specs.Prelude.{◌≡◌, IsTrue, All, length};
ghost use Rattle.chacha20.specs.Generator.{GeneratorState, same_generator};
ghost use Rattle.chacha20.specs.GeneratorRuns.{rng_outcome, rng_run, InData};

use crate::rng::{ChaChaRng, Seed, SerializedRngState};
use chacha_base::cipher::RngBackend;
use chacha_base::rounds::Rounds;

/// A call on a generator. Ranges and lengths are in bytes; `at` is a place in the data. Word positions count words of
/// 32 bits, and block positions blocks of 16 words.
#[derive(Clone, Copy, Debug, PartialEq, Eq)]
pub enum RngCall {
    /// `next_u32`
    NextU32,
    /// `next_u64`
    NextU64,
    /// `fill_bytes` on `data[at..at + len]`
    Fill { at: usize, len: usize },
    /// `get_word_pos`
    GetWordPos,
    /// `set_word_pos`
    SetWordPos(u128),
    /// `get_block_pos`
    GetBlockPos,
    /// `set_block_pos`
    SetBlockPos(u64),
    /// `get_stream`
    GetStream,
    /// `set_stream`
    SetStream(u64),
    /// `get_seed`
    GetSeed,
    /// `serialize_state`
    Serialize,
    /// `serialize_state`, and then `deserialize_state` of it in the generator's place
    Reload,
}

/// The answer to a call on a generator.
#[derive(Clone, Copy, Debug, PartialEq, Eq)]
pub enum RngAnswer {
    /// The call has no answer.
    Done,
    /// A word.
    U32(u32),
    /// Two words, a block position or a stream.
    U64(u64),
    /// A word position.
    U128(u128),
    /// A seed of 32 bytes.
    Seed(Seed),
    /// A state of 49 bytes.
    State(SerializedRngState),
}

fn call_rng<R: Rounds, B: RngBackend<R>>(
    rng: &mut ChaChaRng<R, B>,
    data: &mut [u8],
    call: RngCall,
) -> RngAnswer
    requires { InData (length «data».old) call }
    ensures { rng_outcome R.COUNT rng.old «data».old call
        ≡ record { answer = result; rng = rng.new; bytes = «data».new } }
{
    match call {
        RngCall::NextU32 => RngAnswer::U32(rng.next_u32()),
        RngCall::NextU64 => RngAnswer::U64(rng.next_u64()),
        RngCall::Fill { at, len } => {
            rng.fill_bytes(&mut data[at..at + len]);
            RngAnswer::Done
        }
        RngCall::GetWordPos => RngAnswer::U128(rng.get_word_pos()),
        RngCall::SetWordPos(word_pos) => {
            rng.set_word_pos(word_pos);
            RngAnswer::Done
        }
        RngCall::GetBlockPos => RngAnswer::U64(rng.get_block_pos()),
        RngCall::SetBlockPos(block_pos) => {
            rng.set_block_pos(block_pos);
            RngAnswer::Done
        }
        RngCall::GetStream => RngAnswer::U64(rng.get_stream()),
        RngCall::SetStream(stream) => {
            rng.set_stream(stream);
            RngAnswer::Done
        }
        RngCall::GetSeed => RngAnswer::Seed(rng.get_seed()),
        RngCall::Serialize => RngAnswer::State(rng.serialize_state()),
        RngCall::Reload => {
            *rng = ChaChaRng::deserialize_state(&rng.serialize_state());
            RngAnswer::Done
        }
    }
}

/// Makes the calls in order, from the generator's state on, and writes the answer to each at its place, over what was
/// there. No call is refused. The caller proves that all ranges lie in the data, and that there are as many answers as
/// calls.
pub fn run_rng<R: Rounds, B: RngBackend<R>>(
    rng: &mut ChaChaRng<R, B>,
    data: &mut [u8],
    calls: &[RngCall],
    answers: &mut [RngAnswer],
)
    requires ranges { All (InData (length «data».old)) calls.now }
    requires places { length answers.old ≡ length calls.now }
    ensures run { (answers.new, rng.new, «data».new)
        ≡ rng_run R.COUNT rng.old «data».old calls.now }

    // An equal generator gives the same answers, whatever its buffer holds.
    ensures equality { (other : GeneratorState) → IsTrue (same_generator rng.old other)
        → (answers.new, rng.new, «data».new) ≡ rng_run R.COUNT other «data».old calls.now }
{
    'calls: for i in 0..calls.len() {
        answers[i] = call_rng(rng, data, calls[i]);
    }
}
