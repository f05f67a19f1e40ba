//! `level` with vectors of 256 bits.

pub(crate) type Group = chacha20::backends::Lanes16;

pub(crate) const THREE_BY_GROUP: bool = false;
