//! The ciphers, generators and cores that a case can name, over any backend.

use crate::check::{ANSWER, Failure, UNREADABLE, check};
use crate::generators::Pair;
use crate::report::{Verdicts, note};
use crate::text::{Bytes, Case, Operand, split_keyed};
use crate::{Makes, R0};
use chacha20::cipher::{KeyIvInit, RngBackend, StreamCipherBackend, StreamCipherSeekCore};
use chacha20::variants::{Ietf, Legacy};
use chacha20::{ChaChaCore, R8, R12, R20, Rounds, StreamCipherCoreWrapper, XChaChaCore, hchacha};

/// What checks cases: a pair of backends, ciphers and cores over the first, generators over the second.
pub trait Cases {
    /// The first line of a case that is wrong.
    fn check(case: &Case) -> Result<(), Failure>;
}

impl<B, G> Cases for (B, G)
where
    B: Makes<R0> + Makes<R8> + Makes<R12> + Makes<R20>,
    G: RngBackend<R0> + RngBackend<R8> + RngBackend<R12> + RngBackend<R20>,
{
    fn check(case: &Case) -> Result<(), Failure> {
        if case.subject.ends_with("Rng") {
            check_generator::<G>(case)
        } else if case.subject.ends_with("Core") {
            check_core::<B>(case)
        } else {
            check_cipher::<B>(case)
        }
    }
}

/// Runs the cases of a text.
#[inline(never)]
pub fn run_text<C: Cases>(text: &'static str) -> Verdicts {
    let mut verdicts = [None; 32];
    for paragraph in text.split("\n\n") {
        let case = Case::read(paragraph.trim());
        note(&mut verdicts, case.title, C::check(&case));
    }
    verdicts
}

fn check_generator<B>(case: &Case) -> Result<(), Failure>
where
    B: RngBackend<R0> + RngBackend<R8> + RngBackend<R12> + RngBackend<R20>,
{
    match case.subject {
        "ChaCha20Rng" => check::<Pair<R20, B>>(case),
        "ChaCha12Rng" => check::<Pair<R12, B>>(case),
        "ChaCha8Rng" => check::<Pair<R8, B>>(case),
        "ChaCha0Rng" => check::<Pair<R0, B>>(case),
        _ => wrong(case, case.subject, UNREADABLE),
    }
}

fn check_core<B: Makes<R0>>(case: &Case) -> Result<(), Failure> {
    match case.subject {
        "ChaCha0Core" => check::<ChaChaCore<R0, Ietf, B>>(case),
        "ChaCha0LegacyCore" => check::<ChaChaCore<R0, Legacy, B>>(case),
        _ => wrong(case, case.subject, UNREADABLE),
    }
}

fn check_cipher<B>(case: &Case) -> Result<(), Failure>
where
    B: StreamCipherBackend<R0, Ietf>
        + StreamCipherBackend<R8, Ietf>
        + StreamCipherBackend<R12, Ietf>
        + StreamCipherBackend<R20, Ietf>
        + StreamCipherBackend<R20, Legacy>,
{
    match case.subject {
        "ChaCha20" => check_ietf::<R20, B>(case),
        "ChaCha12" => check_ietf::<R12, B>(case),
        "ChaCha8" => check_ietf::<R8, B>(case),
        "ChaCha0" => check_ietf::<R0, B>(case),
        "ChaCha20Legacy" => check_over::<ChaChaCore<R20, Legacy, B>>(case),
        "XChaCha20" => check_over::<XChaChaCore<R20, B>>(case),
        "hchacha" => check_subkey(case),
        _ => wrong(case, case.subject, UNREADABLE),
    }
}

// At a parameter `R` the bounds of `check` are proved once, not for each number of rounds.
fn check_ietf<R: Rounds, B: StreamCipherBackend<R, Ietf>>(case: &Case) -> Result<(), Failure> {
    check_over::<ChaChaCore<R, Ietf, B>>(case)
}

fn check_over<K>(case: &Case) -> Result<(), Failure>
where
    K: KeyIvInit + StreamCipherSeekCore + Drop,
    K::Key: Operand,
    K::Iv: Operand,
{
    check::<StreamCipherCoreWrapper<K>>(case)
}

// The only line gives what `hchacha` derives from a key and a nonce.
fn check_subkey(case: &Case) -> Result<(), Failure> {
    let (key, nonce) = split_keyed(case.made_of);
    let subkey = Bytes::read(case.lines.strip_prefix("subkey -> ").unwrap_or(""));
    match (Operand::read(key), Operand::read(nonce)) {
        (Some(key), Some(nonce)) if subkey.are(&hchacha::<R20>(&key, &nonce)) == Some(true) => {
            Ok(())
        }
        _ => wrong(case, case.lines, ANSWER),
    }
}

fn wrong(case: &Case, line: &'static str, fault: &'static str) -> Result<(), Failure> {
    let title = case.title;
    Err(Failure { title, line, fault })
}
