//! The layouts of a state's last row: where the counter is, and how many counters there are.

ghost use Rattle.std.specs.Prelude.{◌≡◌, ◌≤◌, ◌<◌, ◌+◌, ◌-◌, ◌*◌, ◌%◌, ◌^◌, ◌⊎◌, ℕ, length, Some};
ghost use Rattle.chacha_base.specs.ChaCha.{Layout, ietf, legacy, modulus};
ghost use Rattle.chacha_base.specs.State.{counter_len, row_counter, row_at};
ghost use Rattle.chacha_base.specs.Cipher.{remaining};

mod sealed {
    pub trait Sealed {}
}

use sealed::Sealed;

/// A counter of blocks: `u32` or `u64`. It is sealed.
pub trait StreamCipherCounter: Sealed + Sized {
    // How many counters there are, and the number of one.
    ghost M: { ℕ };

    ghost value: { Self → ℕ };

    ghost BITS: { ℕ };

    /// Bits in a counter.
    const BITS: u32;

    /// The counter with this number, which the caller proves below the number of counters.
    fn from_u64(number: u64) -> Self
        requires { number < M }
        ensures { value result ≡ number };

    /// A counter's number.
    fn to_u64(self) -> u64
        ensures value { result ≡ value self }
        ensures below { result < M };

    /// The greatest number of a counter.
    fn last() -> u64
        ensures { result + 1 ≡ M };

    /// The counter after `blocks` more blocks. It wraps at 2^32 or 2^64.
    fn advanced_by(self, blocks: usize) -> Self
        ensures { value result ≡ (value self + blocks) % M };

    ghost sizes: { (M ≡ 2 ^ 32) ⊎ (M ≡ 2 ^ 64) };
}

impl Sealed for u32 {}

impl Sealed for u64 {}

impl StreamCipherCounter for u32 {
    ghost use Rattle.std.proofs.Common.{refl, inl};

    ghost M = { 2 ^ 32 };

    ghost value = { λ c. c };

    ghost BITS = { 32 };

    const BITS: u32 = 32;

    ghost sizes = { inl refl };

    fn from_u64(number: u64) -> u32 {
        number as u32
    }

    fn to_u64(self) -> u64 {
        u64::from(self)
    }

    fn last() -> u64 {
        u64::from(u32::MAX)
    }

    fn advanced_by(self, blocks: usize) -> u32 {
        self.wrapping_add((blocks & 0xffff_ffff) as u32)
    }
}

impl StreamCipherCounter for u64 {
    ghost use Rattle.std.proofs.Common.{refl, inr};

    ghost M = { 2 ^ 64 };

    ghost value = { λ c. c };

    ghost BITS = { 64 };

    const BITS: u32 = 64;

    ghost sizes = { inr refl };

    fn from_u64(number: u64) -> u64 {
        number
    }

    fn to_u64(self) -> u64 {
        self
    }

    fn last() -> u64 {
        u64::MAX
    }

    fn advanced_by(self, blocks: usize) -> u64 {
        self.wrapping_add(blocks as u64)
    }
}

/// A layout of counter and nonce: RFC 8439's (section 2.3) or the legacy one. A row here is the words of a state
/// from word 12 on, or any words that begin with the counter's; the caller proves that it has room for the counter.
/// Nothing is refused. It is sealed.
pub trait Variant: Sealed {
    /// The counter's type.
    type Counter: StreamCipherCounter;

    // Which layout it is.
    ghost layout: { Layout };

    /// The counter at the front of a row.
    fn get_block_pos(row: &[u32]) -> Self::Counter
        requires { counter_len layout ≤ length row.now }
        ensures { Self.Counter.value result ≡ row_counter layout row.now };

    /// Puts a counter at the front of a row. The other words stay.
    fn set_block_pos(row: &mut [u32], pos: Self::Counter)
        requires { counter_len layout ≤ length row.old }
        ensures row { row.new ≡ row_at layout (Self.Counter.value pos) row.old }
        ensures below { Self.Counter.value pos < modulus layout };

    /// How many blocks a cipher may still take where its next block has this counter: that one and all after it. `None`
    /// where a `usize` cannot represent that number: only at counter 0 of 64 bits.
    fn remaining_blocks(block_pos: Self::Counter) -> Option<usize>
        ensures { result ≡ remaining (modulus layout) (Self.Counter.value block_pos) };

    ghost counters: { Self.Counter.M ≡ modulus layout };

    ghost bits: { Self.Counter.BITS ≡ 32 * counter_len layout };
}

/// The layout of RFC 8439: a counter of 32 bits in word 12, and a nonce of 12 bytes.
#[derive(Clone, Copy)]
pub enum Ietf {}

impl Sealed for Ietf {}

impl Variant for Ietf {
    ghost use Rattle.std.specs.Prelude.{refl};

    type Counter = u32;

    ghost layout = { ietf };

    ghost counters = { refl };

    ghost bits = { refl };

    fn get_block_pos(row: &[u32]) -> u32 {
        row[0]
    }

    fn set_block_pos(row: &mut [u32], pos: u32) {
        row[0] = pos;
    }

    fn remaining_blocks(block_pos: u32) -> Option<usize> {
        Some((u32::MAX - block_pos) as usize + 1)
    }
}

/// The legacy layout, older than RFC 8439: a counter of 64 bits in words 12 (low) and 13 (high), and a nonce of 8
/// bytes.
#[derive(Clone, Copy)]
pub enum Legacy {}

impl Sealed for Legacy {}

impl Variant for Legacy {
    ghost use Rattle.std.specs.Prelude.{refl};

    type Counter = u64;

    ghost layout = { legacy };

    ghost counters = { refl };

    ghost bits = { refl };

    fn get_block_pos(row: &[u32]) -> u64 {
        (u64::from(row[1]) << 32) | u64::from(row[0])
    }

    fn set_block_pos(row: &mut [u32], pos: u64) {
        row[0] = (pos & 0xffff_ffff) as u32;
        row[1] = (pos >> 32) as u32;
    }

    fn remaining_blocks(block_pos: u64) -> Option<usize> {
        ((u64::MAX - block_pos) as usize).checked_add(1)
    }
}
