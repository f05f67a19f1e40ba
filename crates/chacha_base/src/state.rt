//! Reads, sets and advances the counter of a state of sixteen words (RFC 8439, section 2.3). Nothing is refused.

ghost use Rattle.std.specs.Prelude.{◌≡◌, ◌<◌};
ghost use Rattle.chacha_base.specs.ChaCha.{modulus};
ghost use Rattle.chacha_base.specs.State.{state_counter, fixed_words, state_at, state_after};

use crate::variants::{StreamCipherCounter, Variant};
use std::simd::prelude::*;

/// The counter of a state.
#[inline(always)]
pub fn counter<V: Variant>(state: &[u32; 16]) -> V::Counter
    ensures value { V.Counter.value result ≡ state_counter V.layout state.now }
    ensures below { state_counter V.layout state.now < modulus V.layout }
{
    V::get_block_pos(&state[12..])
}

/// Sets the counter of a state. The other words stay.
#[inline(always)]
pub fn set_counter<V: Variant>(state: &mut [u32; 16], counter: V::Counter)
    ensures state { state.new ≡ state_at V.layout (V.Counter.value counter) state.old }
    ensures fixed { fixed_words V.layout state.new ≡ fixed_words V.layout state.old }
    ensures counter { state_counter V.layout state.new ≡ V.Counter.value counter }
{
    V::set_block_pos(&mut state[12..], counter);
}

/// As `set_counter`, but writes the last row as one vector. A backend reads the row as a vector, and would wait for a
/// word that was written alone.
#[inline(always)]
pub fn set_counter_in_row<V: Variant>(state: &mut [u32; 16], counter: V::Counter)
    ensures state { state.new ≡ state_at V.layout (V.Counter.value counter) state.old }
    ensures fixed { fixed_words V.layout state.new ≡ fixed_words V.layout state.old }
    ensures counter { state_counter V.layout state.new ≡ V.Counter.value counter }
{
    let mut kept = [u32::MAX; 4];
    V::set_block_pos(&mut kept, V::Counter::from_u64(0));
    let mut set = [0; 4];
    V::set_block_pos(&mut set, counter);
    // Masks, since the compiler writes a word alone if the word is put into a vector.
    let row = (u32x4::from_slice(&state[12..]) & u32x4::from_array(kept)) | u32x4::from_array(set);
    row.copy_to_slice(&mut state[12..]);
}

/// Advances the counter of a state by a number of blocks. It wraps at 2^32 or 2^64, as the variant says. The other
/// words stay.
#[inline(always)]
pub fn advance<V: Variant>(state: &mut [u32; 16], blocks: usize)
    ensures { state.new ≡ state_after V.layout blocks state.old }
{
    let next = counter::<V>(state).advanced_by(blocks);
    set_counter::<V>(state, next);
}
