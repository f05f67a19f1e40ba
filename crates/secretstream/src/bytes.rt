//! Streams over the bytes of a state, for callers in other languages, who keep these between calls.

ghost use Rattle.std.specs.Prelude.{◌≡◌, ◌↔◌, ◌≤◌, ◌<◌, ◌+◌, ◌^◌, length, IsOk, IfOk, OnOk, OnErr, IsErrOf};
ghost use Rattle.secretstream.specs.Stream.{start, message_of, IsMessage, after, rekeyed};
ghost use Rattle.secretstream.specs.StateBytes.{state_of};

use crate::error::Error;
use crate::state::{Header, State};
use chacha20::cipher::StreamCipherBackend;
use chacha20::{Ietf, Key, R20};

/// A key of 32 bytes, a counter of 4, little-endian, and an inner nonce of 8: what libsodium's state begins with. Any
/// bytes are a state, and different ones are different states.
pub type StateBytes = [u8; 44];

/// The first state of the stream with this header, for either side.
pub fn start_bytes(key: &Key, header: &Header) -> StateBytes
    ensures { state_of result ≡ start key.now header.now }
{
    State::start(key, header).bytes()
}

/// `PushStream::push` with any tag byte, by a backend of the caller's choice.
pub fn push_bytes<B: StreamCipherBackend<R20, Ietf>>(
    state: &mut StateBytes,
    aad: &[u8],
    tag: u8,
    text: &[u8],
    output: &mut [u8],
) -> Result<(), Error>
    requires { length output.old ≡ length text.now + 17 }
    ensures accepted { IsOk result ↔ (128 + length text.now ≤ 2 ^ 38) }
    ensures too_long { IsErrOf result Error.TooLong ↔ (2 ^ 38 < 128 + length text.now) }
    ensures message { OnOk result
        (output.new ≡ message_of (state_of state.old) aad.now tag text.now) }
    ensures next { OnOk result
        (state_of state.new ≡ after (state_of state.old) aad.now tag text.now) }
    ensures refused { OnErr result ((state.new ≡ state.old) × (output.new ≡ output.old)) }
{
    let mut now = State::from_bytes(state);
    now.push::<B>(aad, tag, text, output)?;
    *state = now.bytes();
    Ok(())
}

/// `PullStream::pull`, which returns the tag byte, by a backend of the caller's choice.
pub fn pull_bytes<B: StreamCipherBackend<R20, Ietf>>(
    state: &mut StateBytes,
    aad: &[u8],
    message: &[u8],
    output: &mut [u8],
) -> Result<u8, Error>
    requires { length message.now ≡ length output.old + 17 }
    ensures accepted { IsOk result ↔ IsMessage (state_of state.old) aad.now message.now }
    ensures too_long { IsErrOf result Error.TooLong ↔ (2 ^ 38 < 128 + length output.old) }
    ensures forged { IsErrOf result Error.Forged ↔ ((128 + length output.old ≤ 2 ^ 38)
        × ¬ IsMessage (state_of state.old) aad.now message.now) }
    ensures message { IfOk result (λ tag. message.now
        ≡ message_of (state_of state.old) aad.now tag output.new) }
    ensures next { IfOk result (λ tag. state_of state.new
        ≡ after (state_of state.old) aad.now tag output.new) }
    ensures refused { OnErr result ((state.new ≡ state.old) × (output.new ≡ output.old)) }
{
    let mut now = State::from_bytes(state);
    match now.pull::<B>(aad, message, output) {
        Ok(tag) => {
            *state = now.bytes();
            Ok(tag)
        }
        Err(refusal) => Err(refusal),
    }
}

/// Takes another key, as after a message whose tag byte has bit 1 set. The other side has to call it at the same place.
pub fn rekey_bytes<B: StreamCipherBackend<R20, Ietf>>(state: &mut StateBytes)
    ensures { state_of state.new ≡ rekeyed (state_of state.old) }
{
    let mut now = State::from_bytes(state);
    now.rekey::<B>();
    *state = now.bytes();
}
