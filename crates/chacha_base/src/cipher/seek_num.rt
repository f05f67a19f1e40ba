//! Numbers that can be positions.

ghost use Rattle.std.specs.Prelude.{◌≡◌, ◌↔◌, ◌≤◌, ◌-◌, ◌^◌, ℕ, Option, Some, IsOk, IfOk, IfSome};

use crate::cipher::errors::OverflowError;

mod sealed {
    pub trait Sealed {}
}

use sealed::Sealed;

/// A number that can be a position in bytes: an `i32`, `u32`, `u64`, `u128` or `usize`. It is sealed.
pub trait SeekNum: Sealed + Copy {
    // The number, where it is not negative.
    ghost position: { Self → Option ℕ };

    // The type's greatest number.
    ghost greatest: { ℕ };

    /// The number; `None` exactly where it is negative.
    fn to_position(self) -> Option<u128>
        ensures value { result ≡ position self }
        ensures below { IfSome result (λ p. p ≤ greatest) };

    /// A position as a number of this type; `Err` exactly where the type cannot represent it.
    fn from_position(pos: u128) -> Result<Self, OverflowError>
        ensures accepted { IsOk result ↔ (pos ≤ greatest) }
        ensures value { IfOk result (λ number. position number ≡ Some pos) };
}

impl Sealed for i32 {}

impl Sealed for u32 {}

impl Sealed for u64 {}

impl Sealed for u128 {}

impl Sealed for usize {}

impl SeekNum for i32 {
    ghost use Rattle.chacha_base.specs.Cipher.{signed_position};

    ghost position = { signed_position };

    ghost greatest = { 2 ^ 31 - 1 };

    fn to_position(self) -> Option<u128> {
        u128::try_from(self).ok()
    }

    fn from_position(pos: u128) -> Result<i32, OverflowError> {
        i32::try_from(pos).or(Err(OverflowError))
    }
}

impl SeekNum for u32 {
    ghost position = { λ n. Some n };

    ghost greatest = { 2 ^ 32 - 1 };

    fn to_position(self) -> Option<u128> {
        Some(u128::from(self))
    }

    fn from_position(pos: u128) -> Result<u32, OverflowError> {
        u32::try_from(pos).or(Err(OverflowError))
    }
}

impl SeekNum for u64 {
    ghost position = { λ n. Some n };

    ghost greatest = { 2 ^ 64 - 1 };

    fn to_position(self) -> Option<u128> {
        Some(u128::from(self))
    }

    fn from_position(pos: u128) -> Result<u64, OverflowError> {
        u64::try_from(pos).or(Err(OverflowError))
    }
}

impl SeekNum for u128 {
    ghost position = { λ n. Some n };

    ghost greatest = { 2 ^ 128 - 1 };

    fn to_position(self) -> Option<u128> {
        Some(self)
    }

    fn from_position(pos: u128) -> Result<u128, OverflowError> {
        Ok(pos)
    }
}

impl SeekNum for usize {
    ghost position = { λ n. Some n };

    ghost greatest = { 2 ^ 64 - 1 };

    fn to_position(self) -> Option<u128> {
        Some(self as u128)
    }

    fn from_position(pos: u128) -> Result<usize, OverflowError> {
        usize::try_from(pos).or(Err(OverflowError))
    }
}
