//! Calls on ciphers.

ghost use Rattle.std.specs.Prelude.{◌↔◌, ◌≤◌, ◌+◌, IsTrue, All};
ghost use Rattle.chacha20.specs.Runs.{InSlices};

use crate::calls::{Answer, Call, Range, Type};
use crate::check::{Answers, FromText, Subject, Way};
use crate::text::{Operand, read_keyed};
use chacha20::cipher::{
    KeyIvInit, SeekNum, StreamCipher, StreamCipherError, StreamCipherSeek, StreamCipherSeekCore,
};
use chacha20::{CipherAnswer, CipherCall, StreamCipherCoreWrapper, run_cipher};

impl<K> FromText for StreamCipherCoreWrapper<K>
where
    K: KeyIvInit + StreamCipherSeekCore,
    K::Key: Operand,
    K::Iv: Operand,
{
    fn read(made_of: &'static str) -> Option<Self> {
        read_keyed(made_of)
    }
}

impl<K> Subject for StreamCipherCoreWrapper<K>
where
    K: KeyIvInit + StreamCipherSeekCore + Drop,
    K::Key: Operand,
    K::Iv: Operand,
{
    // A call by a `try_` form, or by the form without where it may be called.
    fn make(&mut self, way: Way, call: Call, input: &[u8], data: &mut [u8]) -> Answer {
        make_call(self, matches!(way, Way::Directly), call, input, data)
    }

    fn make_list(&mut self, calls: &[Call], input: &[u8], data: &mut [u8], made: &mut Answers) {
        let mut answers = [CipherAnswer::Overflow; 128];
        let count = calls.len().min(128);
        let list = list_of(calls, input.len(), data.len());
        run_cipher(self, input, data, &list[..count], &mut answers[..count]);
        note_listed(calls, &answers, made);
    }
}

fn make_call<C: StreamCipherSeek>(
    cipher: &mut C,
    tries: bool,
    call: Call,
    input: &[u8],
    data: &mut [u8],
) -> Answer {
    match call {
        Call::Cipher(call) => make_listed_call(cipher, tries, call, input, data),
        Call::NoCalls => Answer::Done,
        Call::InType(Type::U32, position) => make_in::<u32, C>(cipher, tries, position),
        Call::InType(Type::U64, position) => make_in::<u64, C>(cipher, tries, position),
        Call::InType(Type::Usize, position) => make_in::<usize, C>(cipher, tries, position),
        _ => Answer::Missing,
    }
}

// A call that a list can have too.
#[inline(never)]
fn make_listed_call<C: StreamCipherSeek>(
    cipher: &mut C,
    tries: bool,
    call: CipherCall,
    input: &[u8],
    data: &mut [u8],
) -> Answer {
    let input = from(call).of(input);
    if !tries && is_made_without_try(cipher, call, input, data) {
        return Answer::Done;
    }
    match call {
        CipherCall::CheckRemaining(len) => of_outcome(cipher.check_remaining(len)),
        CipherCall::Apply { .. } => of_outcome(cipher.try_apply_keystream(data)),
        CipherCall::Write { .. } => of_outcome(cipher.try_write_keystream(data)),
        CipherCall::ApplyFrom { .. } => of_outcome(cipher.try_apply_keystream_b2b(input, data)),
        CipherCall::Seek(position) => seek(cipher, tries, position),
        CipherCall::SeekI32(position) => seek(cipher, tries, position),
        CipherCall::Pos => position::<u128, C>(cipher, tries),
        CipherCall::PosI32 => position::<i32, C>(cipher, tries),
    }
}

// The range that a call reads.
fn from(call: CipherCall) -> Range {
    match call {
        CipherCall::ApplyFrom { from, from_len, .. } => Range {
            at: from,
            len: from_len,
        },
        _ => Range { at: 0, len: 0 },
    }
}

// The forms without `try_` may be called where the `try_` forms succeed.
#[inline(never)]
fn is_made_without_try<C: StreamCipher>(
    cipher: &mut C,
    call: CipherCall,
    input: &[u8],
    data: &mut [u8],
) -> bool {
    if cipher.check_remaining(data.len()).is_err() {
        return false;
    }
    match call {
        CipherCall::Apply { .. } => cipher.apply_keystream(data),
        CipherCall::Write { .. } => cipher.write_keystream(data),
        CipherCall::ApplyFrom { .. } if input.len() == data.len() => {
            cipher.apply_keystream_b2b(input, data);
        }
        _ => return false,
    }
    true
}

// The first `try_seek` shows that the position may be sought, the second takes the cipher elsewhere.
#[inline(never)]
fn seek<T: SeekNum, C: StreamCipherSeek>(cipher: &mut C, tries: bool, position: T) -> Answer {
    let elsewhere = u32::from(position.to_position() == Some(0));
    let outcome = cipher.try_seek(position);
    if !tries && outcome.is_ok() && cipher.try_seek(elsewhere).is_ok() {
        cipher.seek(position);
    }
    of_outcome(outcome)
}

// A seek, or without a position to seek the current one.
fn make_in<T: SeekNum, C: StreamCipherSeek>(
    cipher: &mut C,
    tries: bool,
    sought: Option<u128>,
) -> Answer {
    match sought {
        Some(sought) => match T::from_position(sought) {
            Ok(sought) => seek(cipher, tries, sought),
            Err(_) => Answer::Missing,
        },
        None => position::<T, C>(cipher, tries),
    }
}

fn position<T: SeekNum, C: StreamCipherSeek>(cipher: &C, tries: bool) -> Answer {
    match cipher.try_current_pos::<T>() {
        Ok(_) if !tries => of_position(cipher.current_pos::<T>()),
        Ok(position) => of_position(position),
        Err(_) => Answer::Overflow,
    }
}

fn of_outcome(outcome: Result<(), StreamCipherError>) -> Answer {
    match outcome {
        Ok(()) => Answer::Done,
        Err(_) => Answer::Refused,
    }
}

// No position is negative.
fn of_position<T: SeekNum>(position: T) -> Answer {
    Answer::Number(position.to_position().unwrap_or(u128::MAX))
}

// A list has positions in `i32` and `u128` only. All ranges lie in slices of these lengths.
#[inline(never)]
fn list_of(calls: &[Call], input: usize, bytes: usize) -> [CipherCall; 128]
    ensures { All (InSlices input bytes) result }
{
    let mut list = [CipherCall::Pos; 128];
    'each: for i in 0..calls.len().min(128) {
        match calls[i] {
            Call::Cipher(call) if in_slices(call, input, bytes) => list[i] = call,
            Call::InType(_, Some(position)) => list[i] = CipherCall::Seek(position),
            _ => {}
        }
    }
    list
}

fn note_listed(calls: &[Call], answers: &[CipherAnswer; 128], made: &mut Answers) {
    for i in 0..calls.len().min(128) {
        made[i] = match (answers[i], calls[i]) {
            (CipherAnswer::Done, _) => Answer::Done,
            (CipherAnswer::Refused, _) => Answer::Refused,
            (CipherAnswer::Overflow, _) => Answer::Overflow,
            (CipherAnswer::PositionI32(position), _) => of_position(position),
            (_, Call::NoCalls) => Answer::Done,
            (CipherAnswer::Position(position), Call::InType(in_type, _))
                if position > in_type.max() => Answer::Overflow,
            (CipherAnswer::Position(position), _) => Answer::Number(position),
        };
    }
}

// Whether the ranges of a call lie in slices of these lengths.
fn in_slices(call: CipherCall, input: usize, bytes: usize) -> bool
    ensures { IsTrue result ↔ InSlices input bytes call }
{
    match call {
        CipherCall::Apply { at, len } | CipherCall::Write { at, len } => in_range(at, len, bytes),
        CipherCall::ApplyFrom {
            from,
            from_len,
            at,
            len,
        } => in_range(from, from_len, input) && in_range(at, len, bytes),
        _ => true,
    }
}

// Whether a range lies in a slice of this length.
fn in_range(at: usize, len: usize, bytes: usize) -> bool
    ensures { IsTrue result ↔ (at + len ≤ bytes) }
{
    at <= bytes && len <= bytes - at
}
