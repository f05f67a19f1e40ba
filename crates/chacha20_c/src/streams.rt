//! libsodium's `crypto_secretstream_xchacha20poly1305`, over the 44 bytes that its state begins with.

ghost use Rattle.std.specs.Prelude.{◌≡◌, ◌≢◌, ◌↔◌, ◌⊎◌, ◌≤◌, ◌<◌, ◌+◌, ◌^◌, length};
ghost use Rattle.secretstream.specs.Stream.{start, message_of, IsMessage, after, rekeyed};
ghost use Rattle.secretstream.specs.StateBytes.{state_of};

use crate::backend::Backend;
use chacha20::Key;
use secretstream::{Error, Header, StateBytes, pull_bytes, push_bytes, rekey_bytes, start_bytes};

/// Writes the first state of the stream with this header, for either side. No other stream under the key has the
/// header. `state` overlaps no other argument.
#[unsafe(no_mangle)]
pub extern "C" fn chacha20_secretstream_start(key: &Key, header: &Header, state: &mut StateBytes)
    ensures { state_of state.new ≡ start key.now header.now }
{
    *state = start_bytes(key, header);
}

/// Writes the next message of the text `input` into `output`, which has 17 bytes more, and moves the state. Returns 0.
/// Where it hasn't, or the text has more than 2^38 - 128 bytes, it returns 1 and writes nothing. `state` and `output`
/// overlap no other argument.
#[unsafe(no_mangle)]
pub extern "C" fn chacha20_secretstream_push(
    state: &mut StateBytes,
    aad: &[u8],
    output: &mut [u8],
    input: &[u8],
    tag: u8,
) -> u32
    ensures accepted { result ≡ 0 ↔ ((length output.old ≡ length input.now + 17)
        × (128 + length input.now ≤ 2 ^ 38)) }
    ensures message { result ≡ 0
        → output.new ≡ message_of (state_of state.old) aad.now tag input.now }
    ensures next { result ≡ 0
        → state_of state.new ≡ after (state_of state.old) aad.now tag input.now }
    ensures refused { result ≢ 0
        → (result ≡ 1) × (state.new ≡ state.old) × (output.new ≡ output.old) }
{
    if output.len() < 17 || output.len() - 17 != input.len() {
        return 1;
    }
    match push_bytes::<Backend>(state, aad, tag, input, output) {
        Ok(()) => 0,
        Err(_) => 1,
    }
}

/// Writes the text of the next message `input` into `output`, which has 17 bytes less, and its tag byte, and moves the
/// state. Returns 0. Where it hasn't, or has more than 2^38 - 128 bytes, it returns 1, and where `input` isn't the next
/// message of any text, 2; then it writes nothing. `state`, `output` and `tag` overlap no other argument.
#[unsafe(no_mangle)]
pub extern "C" fn chacha20_secretstream_pull(
    state: &mut StateBytes,
    aad: &[u8],
    output: &mut [u8],
    input: &[u8],
    tag: &mut u8,
) -> u32
    ensures accepted { result ≡ 0 ↔ ((length input.now ≡ length output.old + 17)
        × IsMessage (state_of state.old) aad.now input.now) }
    ensures refused { result ≡ 1 ↔ ((length input.now ≢ length output.old + 17)
        ⊎ (2 ^ 38 < 128 + length output.old)) }
    ensures wrong { result ≡ 2 ↔ ((length input.now ≡ length output.old + 17)
        × (128 + length output.old ≤ 2 ^ 38)
        × ¬ IsMessage (state_of state.old) aad.now input.now) }
    ensures opened { result ≡ 0
        → input.now ≡ message_of (state_of state.old) aad.now tag.new output.new }
    ensures next { result ≡ 0
        → state_of state.new ≡ after (state_of state.old) aad.now tag.new output.new }
    ensures kept { result ≢ 0
        → (state.new ≡ state.old) × (output.new ≡ output.old) × (tag.new ≡ tag.old) }
{
    if input.len() < 17 || input.len() - 17 != output.len() {
        return 1;
    }
    match pull_bytes::<Backend>(state, aad, input, output) {
        Ok(byte) => {
            *tag = byte;
            0
        }
        Err(Error::TooLong) => 1,
        Err(Error::Forged) => 2,
    }
}

/// Takes another key, as after a message whose tag byte has bit 1 set. The other side has to call it at the same place.
#[unsafe(no_mangle)]
pub extern "C" fn chacha20_secretstream_rekey(state: &mut StateBytes)
    ensures { state_of state.new ≡ rekeyed (state_of state.old) }
{
    rekey_bytes::<Backend>(state);
}
