//! The calls that a line can name, and their answers.

use crate::text::{Bytes, read_number, split_word};
use chacha20::{CipherCall, RngCall, Seed, SerializedRngState};

/// A call on a cipher, on a generator, or on a core, whose block position is called as that of a generator.
#[derive(Clone, Copy)]
pub enum Call {
    Cipher(CipherCall),
    /// In a type that `CipherCall` lacks: a seek to a position or, without one, the current position.
    InType(Type, Option<u128>),
    /// A list without calls.
    NoCalls,
    Rng(RngCall),
    /// On the second generator, without data.
    OnSecond(RngCall),
    /// Makes the second generator anew, of `seed S` or `state S`.
    MakeSecond(&'static str),
    /// Makes it of the bytes of this range, as its seed.
    SeedSecond(Range),
    /// `==` with the second generator.
    EqualsSecond,
    RemainingBlocks,
    WriteBlock(Range),
    WriteBlocks(Range),
}

/// A type of positions.
#[derive(Clone, Copy)]
pub enum Type {
    U32,
    U64,
    Usize,
}

impl Type {
    /// Its greatest value.
    pub(crate) fn max(self) -> u128 {
        match self {
            Type::U32 => u128::from(u32::MAX),
            _ => u128::from(u64::MAX),
        }
    }
}

/// An answer to a call.
#[derive(Clone, Copy, PartialEq, Eq)]
pub enum Answer {
    /// The subject has no such call, or didn't make it.
    Missing,
    Done,
    Refused,
    Overflow,
    Number(u128),
    Equal(bool),
    Seed(Seed),
    State(SerializedRngState),
}

/// What a case's calls read, and what they write.
#[derive(Clone, Copy)]
pub struct Slices {
    pub input: Bytes,
    /// Before all calls.
    pub data: Bytes,
}

/// A range of the data.
#[derive(Clone, Copy)]
pub struct Range {
    pub at: usize,
    pub len: usize,
}

impl Range {
    pub(crate) fn of(self, bytes: &[u8]) -> &[u8] {
        let end = self.at.saturating_add(self.len);
        bytes.get(self.at..end).unwrap_or(&[])
    }

    pub(crate) fn of_mut(self, bytes: &mut [u8]) -> &mut [u8] {
        let end = self.at.saturating_add(self.len);
        bytes.get_mut(self.at..end).unwrap_or(&mut [])
    }
}

impl Call {
    /// The range of the data that the call may change, or reads.
    pub(crate) fn range(self) -> Range {
        match self {
            Call::Cipher(CipherCall::Apply { at, len })
            | Call::Cipher(CipherCall::Write { at, len })
            | Call::Cipher(CipherCall::ApplyFrom { at, len, .. })
            | Call::Rng(RngCall::Fill { at, len }) => Range { at, len },
            Call::WriteBlock(range) | Call::WriteBlocks(range) | Call::SeedSecond(range) => range,
            _ => Range { at: 0, len: 0 },
        }
    }
}

/// Reads a call. What it reads and writes is put behind the bytes so far, or is a range of shared ones.
pub(crate) fn read_call(text: &'static str, slices: &mut Slices) -> Option<Call> {
    let (name, operand) = split_word(text);
    let data = &mut slices.data;
    match name {
        "apply" => {
            let Range { at, len } = place(operand, 0, data);
            Some(Call::Cipher(CipherCall::Apply { at, len }))
        }
        "write" => {
            let Range { at, len } = place(operand, 1, data);
            Some(Call::Cipher(CipherCall::Write { at, len }))
        }
        "fill_bytes" => {
            let Range { at, len } = place(operand, 1, data);
            Some(Call::Rng(RngCall::Fill { at, len }))
        }
        "b2b" => read_b2b(operand, slices),
        "write_keystream_block" => Some(Call::WriteBlock(place("1", 64, data))),
        "write_keystream_blocks" => Some(Call::WriteBlocks(place(operand, 64, data))),
        "second" => read_second(operand, data.len),
        _ => read_call_without_data(text),
    }
}

fn read_b2b(operands: &'static str, slices: &mut Slices) -> Option<Call> {
    let (input, output) = operands.split_once(" into ")?;
    let from = place(input, 0, &mut slices.input);
    let Range { at, len } = place(output, 0, &mut slices.data);
    Some(Call::Cipher(CipherCall::ApplyFrom {
        from: from.at,
        from_len: from.len,
        at,
        len,
    }))
}

fn read_second(text: &'static str, end: usize) -> Option<Call> {
    if text == "seed drawn" {
        let at = end.checked_sub(32)?;
        return Some(Call::SeedSecond(Range { at, len: 32 }));
    }
    match read_call_without_data(text) {
        Some(Call::Rng(call)) => Some(Call::OnSecond(call)),
        None => Some(Call::MakeSecond(text)),
        _ => None,
    }
}

// Of shared bytes the range `AT..END`. Otherwise new bytes: those of a text or, by a unit, so many units. The latter
// are no zeros, so that it shows where one isn't written.
fn place(text: &'static str, unit: usize, bytes: &mut Bytes) -> Range {
    let (mut at, mut end) = (bytes.len, None);
    if bytes.are_shared {
        let (first, last) = text.split_once("..").unwrap_or(("", ""));
        at = read_number(first).unwrap_or(1537);
        end = Some(read_number(last).unwrap_or(1537));
    } else if unit == 0 {
        bytes.append(text);
    } else {
        let units = read_number::<usize>(text).unwrap_or(1537);
        bytes.repeat("5a", units.saturating_mul(unit));
    }
    let end = end.unwrap_or(bytes.len);
    bytes.is_wrong |= (at > end) | (end > bytes.len);
    let len = end.saturating_sub(at);
    Range { at, len }
}

static WITHOUT_OPERAND: [(&str, Call); 16] = [
    ("no calls", Call::NoCalls),
    ("pos i32", Call::Cipher(CipherCall::PosI32)),
    ("pos u32", Call::InType(Type::U32, None)),
    ("pos u64", Call::InType(Type::U64, None)),
    ("pos u128", Call::Cipher(CipherCall::Pos)),
    ("pos usize", Call::InType(Type::Usize, None)),
    ("next_u32", Call::Rng(RngCall::NextU32)),
    ("next_u64", Call::Rng(RngCall::NextU64)),
    ("get_word_pos", Call::Rng(RngCall::GetWordPos)),
    ("get_block_pos", Call::Rng(RngCall::GetBlockPos)),
    ("get_stream", Call::Rng(RngCall::GetStream)),
    ("get_seed", Call::Rng(RngCall::GetSeed)),
    ("serialize_state", Call::Rng(RngCall::Serialize)),
    ("reload", Call::Rng(RngCall::Reload)),
    ("equals second", Call::EqualsSecond),
    ("remaining_blocks", Call::RemainingBlocks),
];

fn read_call_without_data(text: &'static str) -> Option<Call> {
    for (name, call) in &WITHOUT_OPERAND {
        if *name == text {
            return Some(*call);
        }
    }
    let (name, operand) = text.rsplit_once(' ')?;
    if name == "seek i32" {
        let position = operand.parse::<i32>().ok().or(read_number(operand));
        return Some(Call::Cipher(CipherCall::SeekI32(position?)));
    }
    read_call_with_number(name, read_number(operand)?)
}

fn read_call_with_number(name: &str, number: u128) -> Option<Call> {
    match name {
        "seek u32" => Some(Call::InType(Type::U32, Some(number))),
        "seek u64" => Some(Call::InType(Type::U64, Some(number))),
        "seek u128" => Some(Call::Cipher(CipherCall::Seek(number))),
        "seek usize" => Some(Call::InType(Type::Usize, Some(number))),
        "set_word_pos" => Some(Call::Rng(RngCall::SetWordPos(number))),
        _ if number > u128::from(u64::MAX) => None,
        "room" => Some(Call::Cipher(CipherCall::CheckRemaining(number as usize))),
        "set_block_pos" => Some(Call::Rng(RngCall::SetBlockPos(number as u64))),
        "set_stream" => Some(Call::Rng(RngCall::SetStream(number as u64))),
        _ => None,
    }
}
