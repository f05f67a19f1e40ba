//! Cases with one thing wrong, in the last line, and the fault that must be found there.

use chacha20::backends::Soft;
use known_answers::check::{ANSWER, BYTES, UNREADABLE};
use known_answers::subjects::Cases;
use known_answers::text::{Case, split_word};

// Each line is the only one of a case about the subject.
static LINES: [(&str, &str, &str); 8] = [
    (
        "ChaCha0 key 00*32 nonce 00*12",
        ANSWER,
        "\
room 2^38 -> refused
room 2^38+1
pos u64 -> 3
pos i32 -> overflow
b2b 0000 into 00",
    ),
    (
        "ChaCha0 key 00*32 nonce 00*12",
        BYTES,
        "\
apply 00*4 -> caf0e0c3
apply 00*4 -> caf0e0
apply 00*4 -> ..*3 c3
write 4 -> caf0e0c3",
    ),
    (
        "ChaCha0 key 00*32 nonce 00*12",
        UNREADABLE,
        "\
aply 00
apply 0
apply 00*1537
seek u32 2^32
next_u32
129 times pos u64",
    ),
    ("ChaCha0 key 00*31 nonce 00*12", UNREADABLE, "pos u64 -> 0"),
    (
        "ChaCha0Rng seed 00*32",
        ANSWER,
        "\
next_u32 -> 0xc2e0f0cb
get_seed -> 00*31 01
serialize_state -> 00*48 01
equals second -> false",
    ),
    ("ChaCha0Rng seed 00*32", BYTES, "fill_bytes 5 -> caf0e0c2dd"),
    (
        "ChaCha0Core key 00*32 nonce 00*12",
        BYTES,
        "\
write_keystream_block -> ca ..*62 01
write_keystream_blocks 2 -> ca ..*126 01",
    ),
    ("hchacha key 00..1f nonce 00*16", ANSWER, "subkey -> 00*32"),
];

// Cases of several lines.
static CASES: [(&str, &str, &str); 3] = [
    (
        "ChaCha0 key 00*32 nonce 00*12",
        ANSWER,
        "\
data 00*4
apply 0..4 -> caf0e0c2",
    ),
    (
        "ChaCha0 key 00*32 nonce 00*12",
        BYTES,
        "\
data 00*4
apply 0..3 -> done | caf0e0c2

data 00*4
seek u64 0 -> done",
    ),
    (
        "ChaCha0 key 00*32 nonce 00*12",
        UNREADABLE,
        "\
data 00*4
apply 0..5 -> done | caf0e0c2dc

data 0
no calls -> done | 00",
    ),
];

// The first case in which another fault is found, or none in the last line; or nothing.
fn wrong_case(
    subject: &'static str,
    fault: &'static str,
    cases: &'static str,
    between: &'static str,
) -> &'static str {
    for lines in cases.split(between) {
        if !is_found(subject, fault, lines) {
            return lines;
        }
    }
    ""
}

fn is_found(subject: &'static str, fault: &'static str, lines: &'static str) -> bool {
    let (subject, made_of) = split_word(subject);
    let case = Case {
        title: "",
        subject,
        made_of,
        lines,
    };
    match <(Soft, Soft)>::check(&case) {
        Ok(()) => false,
        Err(failure) => (failure.fault == fault) & lines.ends_with(failure.line),
    }
}

#[test]
fn faults_are_found(rt: HostRuntime) {
    for (subject, fault, lines) in &LINES {
        let line = wrong_case(subject, fault, lines, "\n");
        assert!(rt; line.is_empty(), "{line}");
    }
    for (subject, fault, cases) in &CASES {
        let case = wrong_case(subject, fault, cases, "\n\n");
        assert!(rt; case.is_empty(), "{case}");
    }
}
