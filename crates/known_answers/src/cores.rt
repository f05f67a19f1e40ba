//! Calls on cores.

ghost use Rattle.std.specs.Prelude.{◌≤◌};

use crate::calls::{Answer, Call};
use crate::check::{FromText, Subject, Way};
use crate::text::{Operand, read_keyed};
use chacha20::cipher::{
    RngBackend, StreamCipherBackend, StreamCipherCounter, StreamCipherSeekCore,
};
use chacha20::rand_core::SeedableRng;
use chacha20::variants::{Ietf, Legacy, Variant};
use chacha20::{ChaChaCore, RngCall, Rounds};

impl<R: Rounds, B> FromText for ChaChaCore<R, Ietf, B> {
    fn read(made_of: &'static str) -> Option<Self> {
        read_keyed(made_of)
    }
}

impl<R: Rounds, B: RngBackend<R>> FromText for ChaChaCore<R, Legacy, B> {
    fn read(made_of: &'static str) -> Option<Self> {
        let seed = Operand::read(made_of.strip_prefix("seed ")?)?;
        Some(ChaChaCore::from_seed(seed))
    }
}

impl<R: Rounds, V: Variant, B: StreamCipherBackend<R, V>> Subject for ChaChaCore<R, V, B>
where
    ChaChaCore<R, V, B>: FromText,
{
    fn make(&mut self, way: Way, call: Call, _: &[u8], data: &mut [u8]) -> Answer {
        make_call(self, way, call, data)
    }
}

fn make_call<K: StreamCipherSeekCore>(
    core: &mut K,
    way: Way,
    call: Call,
    data: &mut [u8],
) -> Answer {
    match call {
        Call::Rng(RngCall::GetBlockPos) => Answer::Number(core.get_block_pos().to_u64() as u128),
        Call::Rng(RngCall::SetBlockPos(number)) if number <= K::Counter::last() => {
            core.set_block_pos(K::Counter::from_u64(number));
            Answer::Done
        }
        Call::RemainingBlocks => match core.remaining_blocks() {
            Some(count) => Answer::Number(count as u128),
            None => Answer::Overflow,
        },
        Call::WriteBlock(_) => make_block(core, way, data),
        Call::WriteBlocks(_) => make_blocks(core, way, data),
        _ => Answer::Missing,
    }
}

#[inline(never)]
fn make_block<K: StreamCipherSeekCore>(core: &mut K, way: Way, data: &mut [u8]) -> Answer {
    match data.first_chunk_mut::<64>() {
        Some(block) if matches!(way, Way::Applying) => {
            *block = [0; 64];
            core.apply_keystream_block(block);
        }
        Some(block) => core.write_keystream_block(block),
        None => return Answer::Missing,
    }
    Answer::Done
}

#[inline(never)]
fn make_blocks<K: StreamCipherSeekCore>(core: &mut K, way: Way, data: &mut [u8]) -> Answer {
    let (blocks, _) = data.as_chunks_mut::<64>();
    if matches!(way, Way::Applying) {
        blocks.fill([0; 64]);
        core.apply_keystream_blocks(blocks);
    } else {
        core.write_keystream_blocks(blocks);
    }
    Answer::Done
}
