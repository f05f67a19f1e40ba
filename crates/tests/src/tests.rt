//! Each case and each loop over each backend; and the wrapper over a user's own core.

mod kinds;
mod loops;
mod report;
mod texts;
mod toy_cipher;
mod wrong;

use crate::width3::Width3;
use chacha20::backends::{Columns8, Lanes4, Lanes8, Lanes16, Rows8, Soft};
use chacha20::variants::Legacy;
use chacha20::{ChaChaCore, R8, R12, R20};
use known_answers::cases::CASES;
use known_answers::check::Failure;
use known_answers::more_cases::MORE_CASES;
use known_answers::report::Verdicts;
use known_answers::subjects::{Cases, run_text};
use known_answers::{Makes, R0};
use loops::Verdict;
use std::alloc::Global;
use std::process::Abort;

// Stops the test at the first line that is wrong, or the first loop that fails.
fn run_all<B>(rt: &impl Abort, alloc: Global, backend: &str)
where
    B: Makes<R0> + Makes<R8> + Makes<R12> + Makes<R20>,
{
    run_cases::<(B, B)>(rt, backend);
    let mut verdict = Verdict::new();
    run_loops::<B>(&mut verdict);
    texts::over::<B>(alloc, &mut verdict);
    stop_if_broken(rt, backend, &verdict);
}

fn run_cases<C: Cases>(rt: &impl Abort, backend: &str) {
    stop_at_failure(rt, backend, &run_text::<C>(CASES));
    stop_at_failure(rt, backend, &run_text::<C>(MORE_CASES));
}

fn run_loops<B>(verdict: &mut Verdict)
where
    B: Makes<R0> + Makes<R8> + Makes<R12> + Makes<R20>,
{
    verdict.begin("8 rounds");
    kinds::ietf::<R8, B>(verdict);
    verdict.begin("12 rounds");
    kinds::ietf::<R12, B>(verdict);
    verdict.begin("20 rounds");
    kinds::ietf::<R20, B>(verdict);
    verdict.begin("legacy");
    kinds::legacy::<ChaChaCore<R20, Legacy, B>>(17, verdict);
    verdict.begin("no rounds");
    kinds::beside_soft::<R0, B>(verdict);
    verdict.begin("20 rounds");
    kinds::beside_soft::<R20, B>(verdict);
    verdict.begin("20 rounds only");
    kinds::beside_soft_20::<B>(verdict);
    verdict.begin("generators");
    kinds::generators::<B>(verdict);
    verdict.begin("a core of zeros");
    kinds::zeroized::<B>(verdict);
}

fn stop_if_broken(rt: &impl Abort, backend: &str, verdict: &Verdict) {
    let Verdict {
        kind,
        check,
        number,
    } = verdict;
    if !check.is_empty() {
        panic!(rt; "{backend}, {kind}: {check}, {number}");
    }
}

fn stop_at_failure(rt: &impl Abort, backend: &str, verdicts: &Verdicts) {
    for i in 0..32usize {
        let verdict = verdicts[i];
        if let Some(Err(Failure { title, line, fault })) = verdict {
            panic!(rt; "{backend}: {title}, at '{line}': {fault}");
        }
    }
}

#[test]
fn soft(rt: HostRuntime) {
    run_all::<Soft>(&rt, rt.alloc(), "Soft");
}

#[test]
fn lanes4(rt: HostRuntime) {
    run_all::<Lanes4>(&rt, rt.alloc(), "Lanes4");
}

#[test]
fn lanes8(rt: HostRuntime) {
    run_all::<Lanes8>(&rt, rt.alloc(), "Lanes8");
}

#[test]
fn rows8(rt: HostRuntime) {
    run_all::<Rows8>(&rt, rt.alloc(), "Rows8");
}

#[test]
fn lanes16(rt: HostRuntime) {
    run_all::<Lanes16>(&rt, rt.alloc(), "Lanes16");
}

#[test]
fn columns8(rt: HostRuntime) {
    run_all::<Columns8>(&rt, rt.alloc(), "Columns8");
}

#[test]
fn width3(rt: HostRuntime) {
    run_all::<Width3>(&rt, rt.alloc(), "Width3");
}

// Between all places. `rt try` stops a test after a minute, too soon for this one.
#[test]
fn soft_between_all_places(rt: HostRuntime) {
    let mut verdict = Verdict::new();
    verdict.begin("legacy");
    kinds::legacy::<ChaChaCore<R20, Legacy, Soft>>(1, &mut verdict);
    stop_if_broken(&rt, "Soft", &verdict);
}
