//! The two sides of a stream.

ghost use Rattle.std.specs.Prelude.{◌≡◌, ◌↔◌, ◌≤◌, ◌<◌, ◌+◌, ◌^◌, ℕ, List, length, IsOk, IfOk, OnOk, OnErr, IsErrOf};
ghost use Rattle.secretstream.specs.Stream.{start, message_of, IsMessage, after, rekeyed};
ghost use Rattle.secretstream.specs.Tags.{byte_of, tag_of};

use crate::error::Error;
use crate::state::{Header, State};
use crate::tag::Tag;
use chacha20::backends::Lanes16;
use chacha20poly1305::Key;
use std::io;
use std::marker::Model;
use std::random::RandomSource;

// That of the named ciphers.
type Backend = Lanes16;

/// Makes the messages of a stream, one after another. Clauses see it as its state.
#[derive(Drop)]
pub struct PushStream {
    state: State,
}

impl Model for PushStream {
    ghost use Rattle.secretstream.specs.Stream.{State};

    ghost Value = { State };

    ghost view = { λ s. s.state };
}

impl PushStream {
    /// The stream with this header. Only who can prove or count that no other stream under the key has the header may
    /// call it: two such streams have the same keystreams. All others call `init`.
    pub fn with_header(header: &Header, key: &Key) -> Self
        ensures { result ≡ start key.now header.now }
    {
        PushStream {
            state: State::start(key, header),
        }
    }

    /// A stream with a header from a source of random bytes, such as a program's `HostRuntime`. Fails where the source
    /// does, with its error. No clause says that the header is random: the trait promises nothing of what its call
    /// writes. Read the three lines of the body for that.
    pub fn init<R: RandomSource>(rng: &R, key: &Key) -> io::Result<(Header, Self)>
        ensures { IfOk result (λ r. r.1 ≡ start key.now r.0) }
    {
        let mut header = [0; 24];
        rng.fill_bytes(&mut header)?;
        Ok((header, PushStream::with_header(&header, key)))
    }

    /// Writes the next message of a text into an output of 17 bytes more. The MAC also covers `aad`, which isn't
    /// written and may be empty. Fails if the text has more than 2^38 - 128 bytes, and then leaves all as it was.
    pub fn push(
        &mut self,
        aad: &[u8],
        text: &[u8],
        tag: Tag,
        output: &mut [u8],
    ) -> Result<(), Error>
        requires { length output.old ≡ length text.now + 17 }
        ensures accepted { IsOk result ↔ (128 + length text.now ≤ 2 ^ 38) }
        ensures too_long { IsErrOf result Error.TooLong ↔ (2 ^ 38 < 128 + length text.now) }
        ensures message { OnOk result
            (output.new ≡ message_of self.old aad.now (byte_of tag) text.now) }
        ensures next { OnOk result (self.new ≡ after self.old aad.now (byte_of tag) text.now) }
        ensures refused { OnErr result ((self.new ≡ self.old) × (output.new ≡ output.old)) }
    {
        self.state.push::<Backend>(aad, tag.byte(), text, output)
    }

    /// Takes another key, as after a message with `Tag::Rekey`. The receiver has to call it at the same place.
    pub fn rekey(&mut self)
        ensures { self.new ≡ rekeyed self.old }
    {
        self.state.rekey::<Backend>();
    }
}

/// Reads the messages of a stream, one after another. Clauses see it as its state.
#[derive(Drop)]
pub struct PullStream {
    state: State,
}

impl Model for PullStream {
    ghost use Rattle.secretstream.specs.Stream.{State};

    ghost Value = { State };

    ghost view = { λ s. s.state };
}

impl PullStream {
    /// The stream with this header.
    pub fn init(header: &Header, key: &Key) -> Self
        ensures { result ≡ start key.now header.now }
    {
        PullStream {
            state: State::start(key, header),
        }
    }

    /// Writes the text of the next message into an output of 17 bytes less, and returns its tag. Fails if the bytes are
    /// not the next message of any text, or the text would be longer than 2^38 - 128 bytes, and then leaves all as it
    /// was.
    pub fn pull(&mut self, aad: &[u8], message: &[u8], output: &mut [u8]) -> Result<Tag, Error>
        requires { length message.now ≡ length output.old + 17 }
        ensures accepted { IsOk result ↔ IsMessage self.old aad.now message.now }
        ensures too_long { IsErrOf result Error.TooLong ↔ (2 ^ 38 < 128 + length output.old) }
        ensures forged { IsErrOf result Error.Forged
            ↔ ((128 + length output.old ≤ 2 ^ 38) × ¬ IsMessage self.old aad.now message.now) }
        // What the message is: a push of this tag and this text would make it.
        ensures message { IfOk result (λ tag. message.now
            ≡ message_of self.old aad.now (byte_of tag) output.new) }
        // A byte that has a name is never `Other`.
        ensures named { IfOk result (λ tag. tag ≡ tag_of (byte_of tag)) }
        ensures next { IfOk result (λ tag. self.new
            ≡ after self.old aad.now (byte_of tag) output.new) }
        // What a sender in the same state pushed is accepted, and both sides stay in step.
        ensures opens { (byte : ℕ) (text : List ℕ)
            → message.now ≡ message_of self.old aad.now byte text
            → IsOk result ↔ (128 + length text ≤ 2 ^ 38) }
        ensures tag { (byte : ℕ) (text : List ℕ)
            → message.now ≡ message_of self.old aad.now byte text
            → IfOk result (λ tag. byte_of tag ≡ byte) }
        ensures text { (byte : ℕ) (text : List ℕ)
            → message.now ≡ message_of self.old aad.now byte text
            → OnOk result (output.new ≡ text) }
        ensures in_step { (byte : ℕ) (text : List ℕ)
            → message.now ≡ message_of self.old aad.now byte text
            → OnOk result (self.new ≡ after self.old aad.now byte text) }
        ensures refused { OnErr result ((self.new ≡ self.old) × (output.new ≡ output.old)) }
    {
        let byte = self.state.pull::<Backend>(aad, message, output)?;
        Ok(Tag::from_byte(byte))
    }

    /// Takes another key, as after a message with `Tag::Rekey`. The sender has to call it at the same place.
    pub fn rekey(&mut self)
        ensures { self.new ≡ rekeyed self.old }
    {
        self.state.rekey::<Backend>();
    }
}
