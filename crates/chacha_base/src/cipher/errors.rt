//! The errors of ciphers.

/// The refusal of a call on a cipher, which leaves the cipher and all buffers as they were.
#[derive(Clone, Copy, Debug, PartialEq, Eq)]
pub struct StreamCipherError;

/// The refusal to return a position: the type that was asked for cannot represent it.
#[derive(Clone, Copy, Debug, PartialEq, Eq)]
pub struct OverflowError;
