//! What the program `vectors` prints, and how it ends.

ghost use Rattle.std.specs.Prelude.{◌≡◌, ◌↔◌, ◌<◌, All, IfSome, IsOk, IsTrue};
ghost use Rattle.std.specs.Process.{exit_status};

use crate::check::Failure;
use std::process::ExitCode;

/// What the cases of each number came to: the first line that is wrong, or none; nothing for a number without cases. At
/// 0 are those without a number.
pub type Verdicts = [Option<Result<(), Failure>>; 32];

/// Notes what a case came to.
pub(crate) fn note(verdicts: &mut Verdicts, title: &str, outcome: Result<(), Failure>) {
    let number = number_of(title);
    match verdicts[number] {
        Some(Err(_)) => {}
        _ => verdicts[number] = Some(outcome),
    }
}

// The number behind `case`; 0 where there is none below 32.
fn number_of(title: &str) -> usize
    ensures { result < 32 }
{
    let (name, _) = title.split_once('.').unwrap_or((title, ""));
    match name.strip_prefix("case ").unwrap_or("").parse::<usize>() {
        Ok(number) if number < 32 => number,
        _ => 0,
    }
}

fn all_right(verdicts: &Verdicts) -> bool
    ensures { IsTrue result ↔ All (λ verdict. IfSome verdict IsOk) verdicts.now }
{
    'each: for i in 0..verdicts.len() {
        if let Some(Err(_)) = verdicts[i] {
            return false;
        }
    }
    true
}

// Success exactly where the lines could be printed and each verdict is right.
fn status_of(printed: bool, verdicts: &Verdicts) -> ExitCode
    ensures { exit_status result ≡ 0
        ↔ (IsTrue printed × All (λ verdict. IfSome verdict IsOk) verdicts.now) }
{
    if printed && all_right(verdicts) {
        ExitCode::SUCCESS
    } else {
        ExitCode::FAILURE
    }
}

/// Prints the ciphertext of case 1, then a line for each verdict: `row N ok` or `row N bad`. The status is success
/// where the lines could be printed and none is bad.
pub fn report(rt: &impl Print, ciphertext: &[u8; 16], verdicts: &Verdicts) -> ExitCode
    ensures { exit_status result ≡ 0 → All (λ verdict. IfSome verdict IsOk) verdicts.now }
{
    let number = u128::from_be_bytes(*ciphertext);
    let mut printed = println!(rt; "{number:032x}").is_ok();
    for number in 0..32usize {
        if let Some(outcome) = verdicts[number] {
            let word = if outcome.is_ok() { "ok" } else { "bad" };
            printed &= println!(rt; "row {number} {word}").is_ok();
        }
    }
    status_of(printed, verdicts)
}
