//! How the backend makes blocks with vectors of 128 bits. Where a level has a file of its own beside this one,
//! `c/proved.mk` builds with that in its place.

pub(crate) type Group = chacha20::backends::Lanes4;

// Whether `Group` also makes a tail of three blocks, in fewer instructions than `Columns8`.
pub(crate) const THREE_BY_GROUP: bool = true;
