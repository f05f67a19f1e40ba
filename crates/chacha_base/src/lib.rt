//! Two subjects: what holds for any stream cipher over blocks of 64 bytes, and the block function of ChaCha with its
//! backends.
//!
//! The crate `chacha20` is built on this one, and exports what its users need.
#![tactic(auto)]

pub mod backends;
pub mod bytes;
pub mod cipher;
pub mod rounds;
pub mod state;
pub mod variants;
pub mod wrapper;
