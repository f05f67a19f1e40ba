//! `level` in WebAssembly, which has no vectors here.

pub(crate) type Group = chacha20::backends::Soft;

pub(crate) const THREE_BY_GROUP: bool = true;
