//! Runs a case on its subject, in each way to make its calls.

use crate::calls::{Answer, Call, Range, Slices, read_call};
use crate::text::{Bytes, Case, Data, read_number, split_word};

/// A way to make calls.
#[derive(Clone, Copy)]
pub enum Way {
    /// A cipher's by the `try_` forms, a generator's by its own functions; a core writes blocks.
    Directly,
    /// A cipher's by the forms without `try_`, where they may be called.
    WithoutTry,
    /// A generator's reads through `Rng`, and through `TryRng`.
    ThroughRng,
    ThroughTryRng,
    /// A core applies blocks to zeros.
    Applying,
    /// All calls by `run_cipher` or `run_rng`.
    AsList,
}

/// What a case's second line can describe.
pub trait FromText: Sized {
    fn read(made_of: &'static str) -> Option<Self>;
}

/// What a case is about: a cipher, a generator or a core. It has no contract, so that the proofs of the interpreter
/// show only that it is safe.
pub trait Subject: FromText + Drop {
    /// Makes a call, but not as a list. `data` is what it may change.
    fn make(&mut self, way: Way, call: Call, input: &[u8], data: &mut [u8]) -> Answer;

    /// Makes calls, at most 128, by one list.
    fn make_list(&mut self, _: &[Call], _: &[u8], _: &mut [u8], _: &mut Answers) {}
}

/// An answer for each call.
pub type Answers = [Answer; 128];

/// A line that is wrong: the case's title, the line, and what is wrong with it.
#[derive(Clone, Copy)]
pub struct Failure {
    pub title: &'static str,
    pub line: &'static str,
    /// One of the three below, or the way in which the calls so far don't do as the direct ones.
    pub fault: &'static str,
}

/// The line is not one that `cases` describes, or has too many calls or bytes before it.
pub const UNREADABLE: &str = "unreadable";

/// The direct call answers otherwise.
pub const ANSWER: &str = "another answer";

/// It leaves other bytes.
pub const BYTES: &str = "other bytes";

// The ways to make a subject's calls beside `Directly`, and the fault where one differs.
fn ways_of(subject: &str) -> &'static [(Way, &'static str)] {
    if subject.ends_with("Rng") {
        &[
            (Way::ThroughRng, "otherwise through Rng"),
            (Way::ThroughTryRng, "otherwise through TryRng"),
            (Way::AsList, "otherwise as a list"),
        ]
    } else if subject.ends_with("Core") {
        &[(Way::Applying, "otherwise applied")]
    } else {
        &[
            (Way::WithoutTry, "otherwise without try_"),
            (Way::AsList, "otherwise as a list"),
        ]
    }
}

/// The first line of a case that is wrong.
pub fn check<S: Subject>(case: &Case) -> Result<(), Failure> {
    let mut script = Script::read(case);
    for i in 0..script.count.min(128) {
        let (line, call) = (script.lines[i], script.calls[i]);
        let direct = run::<S>(&script, i, Way::Directly);
        script.judge(line, call, direct.0[i], &direct.1);
        for (way, fault) in ways_of(case.subject) {
            let is_same = run::<S>(&script, i, *way) == direct;
            script.note_unless(line, Some(is_same), fault);
        }
    }
    script.verdict
}

// What a new subject answers to the calls up to one, and makes of the data.
fn run<S: Subject>(script: &Script, last: usize, way: Way) -> (Answers, Data) {
    let Slices { input, data } = &script.slices;
    let mut bytes = data.bytes;
    let mut answers = script.unanswered;
    let calls = script.calls.get(..=last).unwrap_or(&[]);
    let input = input.bytes.get(..input.len).unwrap_or(&[]);
    let slice = bytes.get_mut(..data.len).unwrap_or(&mut []);
    if let Some(mut subject) = S::read(script.case.made_of) {
        if let Way::AsList = way {
            subject.make_list(calls, input, slice, &mut answers);
        } else {
            for i in 0..calls.len().min(128) {
                if let Call::NoCalls = calls[i] {
                    subject.make_list(&[], input, slice, &mut answers);
                }
                let changed = calls[i].range().of_mut(slice);
                answers[i] = subject.make(way, calls[i], input, changed);
            }
        }
    }
    (answers, bytes)
}

// A case's calls, and the line of each. It goes on where a line is wrong, and keeps the first.
#[derive(Clone, Copy)]
struct Script {
    case: Case,
    calls: [Call; 128],
    lines: [&'static str; 128],
    count: usize,
    slices: Slices,
    // Copied in `run`, where LLVM would else store each answer by itself, for each subject.
    unanswered: Answers,
    // After the calls that are judged.
    judged: Data,
    verdict: Result<(), Failure>,
}

impl Script {
    fn read(case: &Case) -> Script {
        let mut script = Script {
            case: *case,
            calls: [Call::RemainingBlocks; 128],
            lines: [""; 128],
            count: 0,
            slices: Slices {
                input: Bytes::read(""),
                data: Bytes::read(""),
            },
            unanswered: [Answer::Missing; 128],
            judged: [0; 1536],
            verdict: Ok(()),
        };
        for line in case.lines.lines() {
            script.read_line(line);
        }
        let has_calls = script.count > 0;
        script.note_unless(case.made_of, Some(has_calls), UNREADABLE);
        script.judged = script.slices.data.bytes;
        script
    }

    // Shared bytes; or a call or `N times CALL`, and the answer behind the arrow, if there is one.
    fn read_line(&mut self, line: &'static str) {
        let (text, _) = line.split_once(" -> ").unwrap_or((line, ""));
        let (times, text) = text.split_once(" times ").unwrap_or(("1", text));
        match split_word(line) {
            ("input", bytes) => return self.slices.input.share(bytes),
            ("data", bytes) => return self.slices.data.share(bytes),
            _ => {}
        }
        for _ in 0..read_number(times).unwrap_or(129usize).min(129) {
            self.add_call(line, text);
        }
    }

    fn add_call(&mut self, line: &'static str, text: &'static str) {
        let call = read_call(text, &mut self.slices);
        let is_wrong = self.slices.input.is_wrong | self.slices.data.is_wrong;
        match call {
            Some(call) if (self.count < 128) & !is_wrong => {
                self.calls[self.count] = call;
                self.lines[self.count] = line;
                self.count += 1;
            }
            _ => self.note_unless(line, None, UNREADABLE),
        }
    }

    // Notes a line where a check fails, or the line can't be read.
    fn note_unless(&mut self, line: &'static str, holds: Option<bool>, fault: &'static str) {
        if holds.unwrap_or(false) | self.verdict.is_err() {
            return;
        }
        let fault = if holds.is_some() { fault } else { UNREADABLE };
        let title = self.case.title;
        self.verdict = Err(Failure { title, line, fault });
    }

    // Judges what the direct call answers and leaves.
    fn judge(&mut self, line: &'static str, call: Call, answer: Answer, data: &Data) {
        let (_, expected) = line.split_once(" -> ").unwrap_or((line, ""));
        let (expected, after) = expected.split_once(" | ").unwrap_or((expected, ""));
        let is_done = matches!(answer, Answer::Done);
        let range = call.range();
        self.note_unless(line, is_answer(answer, expected), ANSWER);
        if self.slices.data.are_shared {
            self.note_unless(line, Some(is_done == (expected == "done")), ANSWER);
            let all = data.get(..self.slices.data.len).unwrap_or(&[]);
            self.note_unless(line, Bytes::read(after).are(all), BYTES);
        } else if is_done & !expected.is_empty() {
            let are_right = Bytes::read(expected).are(range.of(data));
            self.note_unless(line, are_right, BYTES);
        }
        for i in 0..1536usize {
            let is_in_range = (i >= range.at) & (i.saturating_sub(range.at) < range.len);
            let is_right = (self.judged[i] == data[i]) | (is_in_range & is_done);
            self.note_unless(line, Some(is_right), BYTES);
        }
        self.judged = *data;
    }
}

// Whether an answer is the one that a line gives. Without one, the call must succeed.
fn is_answer(answer: Answer, expected: &str) -> Option<bool> {
    match answer {
        Answer::Missing => None,
        Answer::Refused => Some(expected == "refused"),
        Answer::Overflow => Some(expected == "overflow"),
        _ if (expected == "refused") | (expected == "overflow") => Some(false),
        _ if expected.is_empty() => Some(true),
        _ => is_value(answer, expected),
    }
}

fn is_value(answer: Answer, expected: &str) -> Option<bool> {
    match answer {
        Answer::Number(found) => Some(found == read_number::<u128>(expected)?),
        Answer::Equal(found) => Some(found == expected.parse::<bool>().ok()?),
        Answer::Seed(found) => Bytes::read(expected).are(&found),
        Answer::State(found) => Bytes::read(expected).are(&found),
        _ => Some(true),
    }
}
