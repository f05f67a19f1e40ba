//! A stream of libsodium's, both ways, and any number of messages through both sides.

ghost use Rattle.std.specs.Prelude.{◌≡◌, IfOk, IsOk};
ghost use Rattle.secretstream.specs.Tags.{byte_of};

use super::authenticated::Source;
use known_answers::published::FROM_80;
use secretstream::{Error, PullStream, PushStream, Tag};

// A message: whether both sides take another key before it, what is pushed, and the message.
struct Row {
    rekey: bool,
    aad: &'static [u8],
    tag: Tag,
    text: &'static [u8],
    bytes: &'static [u8],
}

// Made by libsodium 1.0.18, with a header of the bytes 0 to 23.
static STREAM: [Row; 5] = [
    Row {
        rekey: false,
        aad: b"",
        tag: Tag::Message,
        text: b"attack at dawn",
        bytes: b"\x30\x87\x51\x57\xa9\xe1\x5b\xee\xda\x69\x19\xfc\x0a\xf4\x51\xb0\x65\xc1\x8e\x3a\xac\x21\
            \x0d\x46\xe5\x6d\xf7\x5b\x19\x5c\xab",
    },
    Row {
        rekey: false,
        aad: b"header",
        tag: Tag::Push,
        text: b"",
        bytes: b"\xec\x53\x91\x65\x39\xb6\x1f\x3e\x5f\xe5\x8a\x56\xc8\xdc\x22\x6c\xc0",
    },
    Row {
        rekey: false,
        aad: b"header",
        tag: Tag::Rekey,
        text: b"hold",
        bytes: b"\x67\x1e\x3d\x78\xb3\xf4\xcd\xb9\xb8\x83\xf0\xcf\x11\xbb\xa0\x25\x68\xd4\x8f\x03\x67",
    },
    Row {
        rekey: false,
        aad: b"",
        tag: Tag::Message,
        text: b"another key",
        bytes: b"\xea\xb8\xe4\x71\x89\x4e\xfb\xcd\xc5\xad\x35\x41\x3a\x2b\xa3\x83\x3d\x7c\x04\xcd\x9a\x18\
            \x79\x8e\x3b\xd2\x9a\x69",
    },
    Row {
        rekey: true,
        aad: b"h",
        tag: Tag::Other(253),
        text: b"a tag with no name",
        bytes: b"\x2f\xa2\x01\xe2\x52\x73\x70\x7a\x41\x46\x56\x44\xf5\x44\xbf\x7a\x2b\xd7\xff\x12\x5d\xda\
            \x30\xba\x0c\x30\xbe\xa0\x06\xaa\x5b\xa4\x3b\x33\xc3",
    },
];

// The most bytes of a message.
const MOST: usize = 35;

// Whether a sender makes the message of a row.
fn pushes(sender: &mut PushStream, row: &Row) -> bool {
    if row.rekey {
        sender.rekey();
    }
    let mut room = [0; MOST];
    let message = &mut room[..(row.text.len() + 17).min(MOST)];
    let fits = message.len() == row.text.len() + 17;
    fits && sender.push(row.aad, row.text, row.tag, message).is_ok() & (*message == *row.bytes)
}

// Whether a receiver takes the message of a row.
fn pulls(receiver: &mut PullStream, row: &Row) -> bool {
    if row.rekey {
        receiver.rekey();
    }
    let mut room = [0; MOST];
    let text = &mut room[..row.text.len().min(MOST)];
    let fits = row.bytes.len() == text.len() + 17;
    fits && (receiver.pull(row.aad, row.bytes, text) == Ok(row.tag)) & (*text == *row.text)
}

#[test]
fn libsodium(rt: HostRuntime) {
    let begun = PushStream::init(&Source { fails: false }, &FROM_80);
    assert!(rt; begun.is_ok());
    if let Ok(stream) = begun {
        let (header, mut sender) = stream;
        let mut receiver = PullStream::init(&header, &FROM_80);
        for row in &STREAM {
            assert!(rt; pushes(&mut sender, row) & pulls(&mut receiver, row));
        }
    }
    assert!(rt; PushStream::init(&Source { fails: true }, &FROM_80).is_err());
}

// Pushes a text and pulls its message: it comes out as it went in, with its tag, and both sides stay in step.
fn pass_one(
    sender: &mut PushStream,
    receiver: &mut PullStream,
    tag: Tag,
    text: &mut [u8; 100],
) -> Result<Tag, Error>
    requires { sender.old ≡ receiver.old }
    ensures accepted { IsOk result }
    ensures tag { IfOk result (λ t. byte_of t ≡ byte_of tag) }
    ensures text { text.new ≡ text.old }
    ensures same { sender.new ≡ receiver.new }
{
    let mut message = [0; 117];
    sender.push(b"", text, tag, &mut message)?;
    receiver.pull(b"", &message, text)
}

// The same of any number of messages.
fn pass(
    sender: &mut PushStream,
    receiver: &mut PullStream,
    texts: &mut [[u8; 100]],
) -> Result<(), Error>
    requires { sender.old ≡ receiver.old }
    ensures accepted { IsOk result }
    ensures texts { texts.new ≡ texts.old }
    ensures same { sender.new ≡ receiver.new }
{
    'each: for i in 0..texts.len() {
        pass_one(sender, receiver, Tag::Message, &mut texts[i])?;
    }
    Ok(())
}
