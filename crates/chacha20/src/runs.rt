//! Lists of calls: one contract that speaks of any list of calls on a cipher, from any state on, and one
//! that speaks of any list of calls on a generator.

ghost use Rattle.std.specs.Prelude.{◌≡◌, ◌≤◌, ◌<◌, ◌+◌, ◌^◌, ℕ, List, [], ◌∷◌, All, length, sum, OnOk, OnErr};
ghost use Rattle.chacha_base.specs.ChaCha.{keystream};
ghost use Rattle.chacha_base.specs.Cipher.{limit_of};
ghost use Rattle.chacha20.specs.declared.runs.CipherCall.TheVariants.{Apply, Seek};
ghost use Rattle.chacha20.specs.declared.runs.CipherAnswer.TheVariants.{Done, Refused};
ghost use Rattle.chacha20.specs.Runs.{setting, cipher_outcome, cipher_run, InSlices, pieces};

mod rng;

use chacha_base::cipher::{
    StreamCipher, StreamCipherError, StreamCipherSeek, StreamCipherSeekCore,
};
use chacha_base::wrapper::StreamCipherCoreWrapper;
pub use rng::{RngAnswer, RngCall, run_rng};

/// A call on a cipher. Ranges, lengths and positions are in bytes; `at` is a place in the data, `from` one in the
/// input.
#[derive(Clone, Copy, Debug, PartialEq, Eq)]
pub enum CipherCall {
    /// `check_remaining`
    CheckRemaining(usize),
    /// `try_apply_keystream` on `data[at..at + len]`
    Apply {
        at: usize,
        len: usize,
    },
    /// `try_write_keystream` on `data[at..at + len]`
    Write {
        at: usize,
        len: usize,
    },
    /// `try_apply_keystream_b2b` from `input[from..from + from_len]` to `data[at..at + len]`
    ApplyFrom {
        from: usize,
        from_len: usize,
        at: usize,
        len: usize,
    },
    /// `try_seek`
    Seek(u128),
    /// `try_seek`
    SeekI32(i32),
    /// `try_current_pos`
    Pos,
    /// `try_current_pos`
    PosI32,
}

/// The answer to a call on a cipher.
#[derive(Clone, Copy, Debug, PartialEq, Eq)]
pub enum CipherAnswer {
    /// Accepted.
    Done,
    /// Refused; nothing changed.
    Refused,
    /// The position in bytes.
    Position(u128),
    /// The position in bytes.
    PositionI32(i32),
    /// The type cannot represent the position.
    Overflow,
}

// The answer to a call that is accepted or refused.
fn answer(outcome: Result<(), StreamCipherError>) -> CipherAnswer
    ensures done { OnOk outcome (result ≡ Done) }
    ensures refused { OnErr outcome (result ≡ Refused) }
{
    match outcome {
        Ok(()) => CipherAnswer::Done,
        Err(_) => CipherAnswer::Refused,
    }
}

// For a cipher of any type: at the type of `run_cipher` each call here would prove the bounds of its trait.
fn call_cipher<S: StreamCipherSeek>(
    cipher: &mut S,
    input: &[u8],
    data: &mut [u8],
    call: CipherCall,
) -> CipherAnswer
    requires ranges { InSlices (length input.now) (length «data».old) call }
    requires limit { limit_of S.modulus < 2 ^ 128 }
    ensures { cipher_outcome (setting S.modulus S.block_at input.now)
        (record { fixed = S.fixed cipher.old; position = S.position cipher.old }) «data».old call
        ≡ record {
          answer = result;
          cipher = record { fixed = S.fixed cipher.new; position = S.position cipher.new };
          bytes = «data».new;
        } }
{
    match call {
        CipherCall::CheckRemaining(len) => answer(cipher.check_remaining(len)),
        CipherCall::Apply { at, len } => answer(cipher.try_apply_keystream(
            &mut data[at..at + len],
        )),
        CipherCall::Write { at, len } => answer(cipher.try_write_keystream(
            &mut data[at..at + len],
        )),
        CipherCall::ApplyFrom {
            from,
            from_len,
            at,
            len,
        } => answer(cipher.try_apply_keystream_b2b(
            &input[from..from + from_len],
            &mut data[at..at + len],
        )),
        CipherCall::Seek(position) => answer(cipher.try_seek(position)),
        CipherCall::SeekI32(position) => answer(cipher.try_seek(position)),
        CipherCall::Pos => match cipher.try_current_pos() {
            Ok(position) => CipherAnswer::Position(position),
            Err(_) => CipherAnswer::Overflow,
        },
        CipherCall::PosI32 => match cipher.try_current_pos() {
            Ok(position) => CipherAnswer::PositionI32(position),
            Err(_) => CipherAnswer::Overflow,
        },
    }
}

/// Makes the calls in order, from the cipher's state on, and writes the answer to each at its place, over what was
/// there. A refused call leaves cipher and data as they were. The caller proves that all ranges lie in the slices, and
/// that there are as many answers as calls.
pub fn run_cipher<C: StreamCipherSeekCore>(
    cipher: &mut StreamCipherCoreWrapper<C>,
    input: &[u8],
    data: &mut [u8],
    calls: &[CipherCall],
    answers: &mut [CipherAnswer],
)
    requires ranges { All (InSlices (length input.now) (length «data».old)) calls.now }
    requires places { length answers.old ≡ length calls.now }
    ensures run { (answers.new, cipher.new, «data».new)
        ≡ cipher_run (setting C.modulus C.block_at input.now) cipher.old «data».old calls.now }

    // Applying the keystream to a range, seeking back and applying it again leaves the range as it was.
    ensures seek_back { (at len : ℕ)
        → calls.now ≡ Apply at len ∷ Seek cipher.old.position ∷ Apply at len ∷ []
        → answers.new ≡ Done ∷ Done ∷ Done ∷ []
        → (cipher.new ≡ record cipher.old { position = cipher.old.position + len })
        × («data».new ≡ «data».old) }

    // Applying the keystream to a range in pieces of any lengths is as applying it once, where that is accepted.
    ensures cut_anywhere { (at : ℕ) (lens : List ℕ) → calls.now ≡ pieces at lens
        → let whole = cipher_outcome (setting C.modulus C.block_at input.now) cipher.old «data».old
        (Apply at (sum lens)) in
        whole.answer ≡ Done → (cipher.new ≡ whole.cipher) × («data».new ≡ whole.bytes) }
{
    'calls: for i in 0..calls.len() {
        answers[i] = call_cipher(cipher, input, data, calls[i]);
    }
}
