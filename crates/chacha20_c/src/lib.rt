//! The ciphers, generators, messages, streams and sealed files of these crates for C. `c/chacha20.c` calls these
//! exports from the functions of `include/chacha20.h`, after it has checked their pointers. No C program can link the
//! exports themselves. `c/proved.mk` makes a static library of this crate; here it is a library, so that `tests` can
//! test the exports.
//!
//! A slice is passed as a pointer and then its length, an array as a pointer. No pointer is null, even where a length
//! is 0, and what a call writes overlaps no other argument. Arguments come in the order key, nonce, position, output,
//! input.
//!
//! A cipher has no state here: each call names its key, its nonce and a position, which is a number of bytes from the
//! first of the keystream. The legacy cipher's is the number of a block of 64 bytes, and a number of bytes from there
//! on. The state of a generator is 49 bytes of the caller's, that of a stream 44.
//!
//! A call that may refuse returns 0 where it did all, 1 where an argument breaks a rule that the caller can check, and
//! 2 where a tag is wrong; only `chacha20_file_salt` has more answers.
#![tactic(auto)]

pub mod authenticated;
mod backend;
pub mod chacha;
pub mod files;
pub mod generators;
pub mod legacy;
mod level;
mod level_lime1;
mod level_x86_64_v3;
mod stateless;
pub mod streams;
pub mod xchacha;
