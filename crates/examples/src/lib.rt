//! What people build on `chacha20`, one module each. `docs/GUIDE.md` has the steps to copy a file.
//!
//! The lines between a function's signature and its body are its contract. A caller must show what `requires` says.
//! What `ensures` says holds when the call returns, and is proved for every input before the crate is built. There
//! `x.old` and `x.new` are what `x` holds before and after the call, `x.now` is what a `&` argument holds, `≡` means
//! equal, and `OnOk result (..)` says what holds if the call returns `Ok`. `proofs` has the answers that the prover
//! needs, or that make its check quicker: often a line or two for a function.
//!
//! The proofs use only public contracts, definitions and lemmas of `chacha20`.
#![tactic(auto)]

pub mod message;
pub mod own_core;
pub mod pieces;
pub mod simulation;
