//! Calls on generators, each beside a second one.

ghost use Rattle.std.specs.Prelude.{◌↔◌, ◌≤◌, ◌+◌, IsTrue, All};
ghost use Rattle.chacha20.specs.GeneratorRuns.{InData};

use crate::calls::{Answer, Call};
use crate::check::{Answers, FromText, Subject, Way};
use crate::text::{Operand, split_word};
use chacha20::cipher::RngBackend;
use chacha20::rand_core::{CryptoRng, TryRng};
use chacha20::{ChaChaRng, RngAnswer, RngCall, Rounds, run_rng};

/// A generator, and a second one to compare it with.
#[derive(Drop)]
pub struct Pair<R: Rounds, B> {
    first: ChaChaRng<R, B>,
    second: ChaChaRng<R, B>,
}

// Of `seed S`, or of a stored state, `state S`.
fn read_generator<R: Rounds, B: RngBackend<R>>(made_of: &'static str) -> Option<ChaChaRng<R, B>> {
    let (kind, bytes) = split_word(made_of);
    match kind {
        "seed" => Some(ChaChaRng::from_seed(Operand::read(bytes)?)),
        "state" => Some(ChaChaRng::deserialize_state(&Operand::read(bytes)?)),
        _ => None,
    }
}

impl<R: Rounds, B: RngBackend<R>> FromText for Pair<R, B> {
    fn read(made_of: &'static str) -> Option<Self> {
        Some(Pair {
            first: read_generator(made_of)?,
            second: read_generator(made_of)?,
        })
    }
}

impl<R: Rounds, B: RngBackend<R>> Subject for Pair<R, B> {
    fn make(&mut self, way: Way, call: Call, _: &[u8], data: &mut [u8]) -> Answer {
        match call {
            Call::Rng(call) => of_answer(make_call(&mut self.first, way, call, data)),
            Call::OnSecond(call) => of_answer(make_call(&mut self.second, way, call, &mut [])),
            Call::MakeSecond(made_of) => match read_generator(made_of) {
                Some(second) => {
                    self.second = second;
                    Answer::Done
                }
                None => Answer::Missing,
            },
            Call::SeedSecond(_) => {
                let mut seed = [0; 32];
                if data.len() == 32 {
                    seed.copy_from_slice(data);
                }
                self.second = ChaChaRng::from_seed(seed);
                Answer::Done
            }
            Call::EqualsSecond => Answer::Equal(self.first == self.second),
            Call::NoCalls => Answer::Done,
            _ => Answer::Missing,
        }
    }

    fn make_list(&mut self, calls: &[Call], input: &[u8], data: &mut [u8], made: &mut Answers) {
        let count = calls.len().min(128);
        let (list, mut answers) = list_of(calls, data.len());
        run_rng(&mut self.first, data, &list[..count], &mut answers[..count]);
        for i in 0..count {
            made[i] = match (calls[i], answers[i]) {
                (Call::Rng(_), answer) => of_answer(answer),
                (Call::EqualsSecond, RngAnswer::State(state)) => {
                    Answer::Equal(ChaChaRng::deserialize_state(&state) == self.second)
                }
                (call, _) => self.make(Way::AsList, call, input, call.range().of_mut(data)),
            };
        }
    }
}

// A list has no `==`: it stores the state, to be compared. All ranges lie in the data. The room for answers is made
// here, since LLVM stores each by itself: so it does once, and not for each generator.
#[inline(never)]
fn list_of(calls: &[Call], bytes: usize) -> ([RngCall; 128], [RngAnswer; 128])
    ensures { All (InData bytes) result.0 }
{
    let mut list = [RngCall::Serialize; 128];
    'each: for i in 0..calls.len().min(128) {
        match calls[i] {
            Call::Rng(call) if in_data(call, bytes) => list[i] = call,
            _ => {}
        }
    }
    (list, [RngAnswer::Done; 128])
}

fn make_call<R: Rounds, B: RngBackend<R>>(
    rng: &mut ChaChaRng<R, B>,
    way: Way,
    call: RngCall,
    data: &mut [u8],
) -> RngAnswer {
    let through = match way {
        Way::ThroughRng => read(rng, call, data),
        Way::ThroughTryRng => try_read(rng, call, data),
        _ => None,
    };
    match through {
        Some(answer) => answer,
        None => call_own(rng, call, data),
    }
}

fn of_answer(answer: RngAnswer) -> Answer {
    match answer {
        RngAnswer::Done => Answer::Done,
        RngAnswer::U32(number) => Answer::Number(u128::from(number)),
        RngAnswer::U64(number) => Answer::Number(u128::from(number)),
        RngAnswer::U128(number) => Answer::Number(number),
        RngAnswer::Seed(seed) => Answer::Seed(seed),
        RngAnswer::State(state) => Answer::State(state),
    }
}

#[inline(never)]
fn call_own<R: Rounds, B: RngBackend<R>>(
    rng: &mut ChaChaRng<R, B>,
    call: RngCall,
    data: &mut [u8],
) -> RngAnswer {
    match call {
        RngCall::NextU32 => return RngAnswer::U32(rng.next_u32()),
        RngCall::NextU64 => return RngAnswer::U64(rng.next_u64()),
        RngCall::GetWordPos => return RngAnswer::U128(rng.get_word_pos()),
        RngCall::GetBlockPos => return RngAnswer::U64(rng.get_block_pos()),
        RngCall::GetStream => return RngAnswer::U64(rng.get_stream()),
        RngCall::GetSeed => return RngAnswer::Seed(rng.get_seed()),
        RngCall::Serialize => return RngAnswer::State(rng.serialize_state()),
        RngCall::Fill { .. } => rng.fill_bytes(data),
        RngCall::SetWordPos(position) => rng.set_word_pos(position),
        RngCall::SetBlockPos(position) => rng.set_block_pos(position),
        RngCall::SetStream(stream) => rng.set_stream(stream),
        RngCall::Reload => *rng = ChaChaRng::deserialize_state(&rng.serialize_state()),
    }
    RngAnswer::Done
}

// A read of any generator that is fit for keys.
#[inline(never)]
fn read<G: CryptoRng>(rng: &mut G, call: RngCall, data: &mut [u8]) -> Option<RngAnswer> {
    match call {
        RngCall::NextU32 => Some(RngAnswer::U32(rng.next_u32())),
        RngCall::NextU64 => Some(RngAnswer::U64(rng.next_u64())),
        RngCall::Fill { .. } => {
            rng.fill_bytes(data);
            Some(RngAnswer::Done)
        }
        _ => None,
    }
}

// A read that may fail. One that fails gives a state, which no read gives.
#[inline(never)]
fn try_read<G: TryRng>(rng: &mut G, call: RngCall, data: &mut [u8]) -> Option<RngAnswer> {
    let read = match call {
        RngCall::NextU32 => rng.try_next_u32().map(|word| RngAnswer::U32(word)),
        RngCall::NextU64 => rng.try_next_u64().map(|words| RngAnswer::U64(words)),
        RngCall::Fill { .. } => rng.try_fill_bytes(data).map(|_| RngAnswer::Done),
        _ => return None,
    };
    Some(read.unwrap_or(RngAnswer::State([0xff; 49])))
}

fn in_data(call: RngCall, bytes: usize) -> bool
    ensures { IsTrue result ↔ InData bytes call }
{
    match call {
        RngCall::Fill { at, len } => at <= bytes && len <= bytes - at,
        _ => true,
    }
}
