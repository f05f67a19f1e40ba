//! How a text is read: cases, bytes and numbers.

use chacha20::cipher::{KeyIvInit, SeekNum};

/// A paragraph: its title, its subject's name, what the subject is made of, and its other lines.
#[derive(Clone, Copy)]
pub struct Case {
    pub title: &'static str,
    pub subject: &'static str,
    pub made_of: &'static str,
    pub lines: &'static str,
}

impl Case {
    pub fn read(paragraph: &'static str) -> Case {
        let (title, rest) = paragraph.split_once('\n').unwrap_or((paragraph, ""));
        let (second, lines) = rest.split_once('\n').unwrap_or((rest, ""));
        let (subject, made_of) = split_word(second);
        Case {
            title,
            subject,
            made_of,
            lines,
        }
    }
}

/// A text's first word, and the rest.
pub fn split_word(text: &'static str) -> (&'static str, &'static str) {
    text.split_once(' ').unwrap_or((text, ""))
}

/// The key and the nonce of `key K nonce N`, or of `key K`.
pub fn split_keyed(text: &'static str) -> (&'static str, &'static str) {
    let text = text.strip_prefix("key ").unwrap_or("");
    text.split_once(" nonce ").unwrap_or((text, ""))
}

/// The cipher or the core of a key and a nonce.
#[inline(never)]
pub fn read_keyed<C: KeyIvInit>(text: &'static str) -> Option<C>
where
    C::Key: Operand,
    C::Iv: Operand,
{
    let (key, nonce) = split_keyed(text);
    let key = C::Key::read(key)?;
    Some(C::new(&key, &C::Iv::read(nonce)?))
}

/// A number of this type: decimal, or `0x` and hexadecimal digits, or `2^68`; and sums and differences, as `2^68-1`.
pub fn read_number<T: SeekNum>(text: &str) -> Option<T> {
    T::from_position(read_sum(text)?).ok()
}

fn read_sum(text: &str) -> Option<u128> {
    let (text, more) = text.split_once('+').unwrap_or((text, "0"));
    let (text, less) = text.split_once('-').unwrap_or((text, "0"));
    let sum = read_term(text)?.checked_add(read_term(more)?)?;
    sum.checked_sub(read_term(less)?)
}

fn read_term(text: &str) -> Option<u128> {
    if let Some(digits) = text.strip_prefix("0x") {
        return u128::from_str_radix(digits, 16).ok();
    }
    if let Some(exponent) = text.strip_prefix("2^") {
        return 1u128.checked_shl(exponent.parse().unwrap_or(128));
    }
    text.parse().ok()
}

/// A case's data: the bytes that its calls read and write.
pub type Data = [u8; 1536];

/// Bytes that texts give, one after another.
#[derive(Clone, Copy)]
pub struct Bytes {
    pub bytes: Data,
    is_any: [bool; 1536],
    pub len: usize,
    /// Whether a text could not be read, or there are more than 1536 bytes.
    pub is_wrong: bool,
    /// Whether they are all the bytes that a case has, and its calls name ranges of them.
    pub are_shared: bool,
}

impl Bytes {
    #[inline(never)]
    pub fn read(text: &str) -> Bytes {
        let mut bytes = Bytes {
            bytes: [0; 1536],
            is_any: [false; 1536],
            len: 0,
            is_wrong: false,
            are_shared: false,
        };
        bytes.append(text);
        bytes
    }

    pub(crate) fn share(&mut self, text: &str) {
        self.append(text);
        self.are_shared = true;
    }

    /// Whether bytes are these; nothing where these could not be read.
    pub fn are(&self, bytes: &[u8]) -> Option<bool> {
        let mut are = bytes.len() == self.len;
        for i in 0..bytes.len().min(1536) {
            are &= self.is_any[i] | (self.bytes[i] == bytes[i]);
        }
        if self.is_wrong { None } else { Some(are) }
    }

    /// Reads bytes: pairs of hexadecimal digits, `00*12` for twelve times 00, `..*12` for any twelve bytes, and
    /// `00..1f` for all from 00 to 1f, with spaces between such parts. A number that can't be read is too many.
    pub fn append(&mut self, text: &str) {
        for part in text.split_whitespace() {
            let (bytes, times) = part.split_once('*').unwrap_or((part, "1"));
            self.repeat(bytes, read_number(times).unwrap_or(1537));
        }
    }

    /// Reads a part so many times.
    pub fn repeat(&mut self, part: &str, times: usize) {
        for _ in 0..times.min(1537) {
            self.push_part(part);
        }
    }

    fn push_part(&mut self, part: &str) {
        if part == ".." {
            self.push(Some(0), true);
        } else if let Some((first, last)) = part.split_once("..") {
            self.push_range(read_byte(first), read_byte(last));
        } else {
            for at in (0..part.len()).step_by(2) {
                let pair = part.get(at..at.saturating_add(2)).unwrap_or("");
                self.push(read_byte(pair), false);
            }
        }
    }

    fn push_range(&mut self, first: Option<u8>, last: Option<u8>) {
        for byte in first.unwrap_or(0)..=last.unwrap_or(0) {
            self.push(Some(byte), false);
        }
        self.is_wrong |= first.is_none() | last.is_none();
    }

    fn push(&mut self, byte: Option<u8>, is_any: bool) {
        match byte {
            Some(byte) if self.len < 1536 => {
                self.bytes[self.len] = byte;
                self.is_any[self.len] = is_any;
                self.len += 1;
            }
            _ => self.is_wrong = true,
        }
    }
}

// A pair of hexadecimal digits.
fn read_byte(digits: &str) -> Option<u8> {
    if digits.len() != 2 {
        return None;
    }
    u8::from_str_radix(digits, 16).ok()
}

/// A key, a nonce or a seed.
pub trait Operand: Sized + Drop {
    fn read(text: &str) -> Option<Self>;
}

/// Reads as many bytes as the array has.
impl<const N: usize> Operand for [u8; N] {
    fn read(text: &str) -> Option<[u8; N]> {
        let read = Bytes::read(text);
        let mut array = [0; N];
        if read.is_wrong | (read.len != N) | (N > 1536) {
            return None;
        }
        array.copy_from_slice(&read.bytes[..N]);
        Some(array)
    }
}

/// A key of one byte.
impl Operand for u8 {
    fn read(text: &str) -> Option<u8> {
        read_byte(text)
    }
}

/// No nonce.
impl Operand for () {
    fn read(text: &str) -> Option<()> {
        if text.is_empty() { Some(()) } else { None }
    }
}
