//! What a message is to its stream.

ghost use Rattle.std.specs.Prelude.{◌≡◌};
ghost use Rattle.secretstream.specs.Tags.{byte_of, tag_of};

/// A message's tag: a byte, which is sent encrypted.
///
/// libsodium takes and returns any byte, so `Other` is any that it has no name for. It would be as wrong to refuse
/// these as to take them for `Message`.
#[derive(Clone, Copy, Debug, Drop, PartialEq, Eq)]
pub enum Tag {
    /// 0: one of several messages.
    Message,
    /// 1: the last one of a set of messages, and not of the stream.
    Push,
    /// 2: both sides take another key after it.
    Rekey,
    /// 3: the last one of the stream. Both sides take another key after it.
    Final,
    /// Another byte. Both sides take another key after it if its bit 1 is set. `push` takes `Other(0)` to `Other(3)`
    /// for the tags above; `pull` never returns these.
    Other(u8),
}

impl Tag {
    /// The tag of a byte, by its name if it has one.
    pub fn from_byte(byte: u8) -> Tag
        ensures named { result ≡ tag_of byte }
        ensures byte { byte_of result ≡ byte }
    {
        match byte {
            0 => Tag::Message,
            1 => Tag::Push,
            2 => Tag::Rekey,
            3 => Tag::Final,
            _ => Tag::Other(byte),
        }
    }

    /// The byte of the tag.
    pub fn byte(self) -> u8
        ensures { result ≡ byte_of self }
    {
        match self {
            Tag::Message => 0,
            Tag::Push => 1,
            Tag::Rekey => 2,
            Tag::Final => 3,
            Tag::Other(byte) => byte,
        }
    }
}
