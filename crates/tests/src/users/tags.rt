//! Tags of long texts, which libsodium made. `poly1305` has the examples of RFC 8439 as facts.

use poly1305::{Poly1305, Tag, authenticate, is_equal};

// Whether a tag is that of the text, whole and in two pieces.
fn is_right(key: &[u8; 32], text: &[u8], tag: &Tag) -> bool {
    let (first, rest) = text.split_at(text.len().min(100));
    let mut mac = Poly1305::new(key);
    mac.update(first);
    mac.update(rest);
    is_equal(&mac.finish(), tag) & is_equal(&authenticate(key, text), tag)
}

// A text whose bytes grow by this step.
fn text_of(first: u8, step: u8) -> [u8; 700] {
    let mut text = [first; 700];
    for i in 1..700usize {
        text[i] = text[i - 1].wrapping_add(step);
    }
    text
}

// Whether the fronts of these lengths have these tags.
fn has_tags(key: &[u8; 32], text: &[u8; 700], tags: &[Tag; 7]) -> bool {
    let mut right = true;
    for i in 0..7usize {
        right &= is_right(key, &text[..LENGTHS[i].min(700)], &tags[i]);
    }
    right
}

#[test]
fn long_texts(rt: HostRuntime) {
    for (key, (first, step), tags) in &LONG_TAGS {
        assert!(rt; has_tags(&[*key; 32], &text_of(*first, *step), tags));
    }
}

static LENGTHS: [usize; 7] = [511, 512, 513, 575, 576, 640, 700];

// Each byte of the key; the first byte of the text, and the step to the next; the tags of the first `LENGTHS` bytes.
static LONG_TAGS: [(u8, (u8, u8), [Tag; 7]); 2] = [
    (
        255,
        (255, 0),
        [
            *b"\xa3\x88\xfc\x0b\xeb\x91\x32\x2b\x73\x60\x5d\x26\x99\xbe\x96\xf0",
            *b"\x9e\x88\xd4\x3d\xe1\x91\x0a\x5d\x69\x60\x35\x58\x8f\xbe\x6e\x1a",
            *b"\xc0\x41\xd0\xd8\x36\x97\x85\x0e\xf1\x38\xc7\xb2\x70\x3c\x81\xd6",
            *b"\xfa\xb2\x83\x9d\xa7\x75\x96\xee\x2a\x33\xe2\xe4\x2a\xba\x49\x36",
            *b"\xfa\xb2\x5b\xcf\x9d\x75\x6e\x20\x21\x33\xba\x16\x21\xba\x21\x60",
            *b"\x3b\xc4\x3b\x75\xaf\xaf\x8c\x54\x6a\xe2\x65\x9d\x74\xfb\xa4\x80",
            *b"\x88\xc5\xe5\xd9\xe6\x0f\x2e\xe4\xcb\xad\x1a\xa6\x9a\x13\xb3\x5b",
        ],
    ),
    (
        66,
        (1, 7),
        [
            *b"\xcf\x6f\xa0\x4d\x31\x23\xe8\xf9\xe5\x51\xd1\x6d\xff\x0e\x51\x4e",
            *b"\xb0\x51\x32\xa3\x0d\x05\x7a\x4f\xc2\x33\x63\xc3\xdb\xf0\xe2\x85",
            *b"\x40\x11\x2b\x57\x06\xf6\x63\x50\x9b\x04\xcf\x35\x4b\x4d\xdd\x17",
            *b"\x32\x32\x87\x07\x50\xf1\x30\x29\x7b\x8a\xcd\x4d\xa3\xb6\x3d\x79",
            *b"\x5a\x5f\x64\x5c\x78\x1e\x0e\x7e\xa3\xb7\xaa\xa2\xcb\xe3\x1a\x30",
            *b"\x70\x05\x0c\x6a\x8f\x24\xcf\xe3\xcf\x85\x99\xfb\x75\xa7\xf6\x22",
            *b"\x80\x1b\xdf\xa6\xe2\xd3\x86\x83\x09\xd3\x55\x82\xe6\x97\x52\x20",
        ],
    ),
];
