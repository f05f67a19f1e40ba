//! Known answers as text: cases with the answers that published sources give, and the interpreter that runs them on
//! any backend. [`cases`] says how a case is written; [`more_cases`] has those without a number.
//!
//! Functions are `inline(never)` where LLVM would else compile them anew in each caller, for each subject.
#![tactic(auto)]

mod calls;
pub mod cases;
pub mod check;
mod ciphers;
mod cores;
mod generators;
pub mod more_cases;
pub mod published;
pub mod report;
pub mod subjects;
pub mod text;

use chacha20::Rounds;
use chacha20::cipher::{RngBackend, StreamCipherBackend};
use chacha20::variants::{Ietf, Legacy};

/// A backend that can make each cipher, generator and core with so many rounds.
pub trait Makes<R: Rounds>: StreamCipherBackend<R, Ietf>
    + StreamCipherBackend<R, Legacy>
    + RngBackend<R> {}

impl<R: Rounds, B> Makes<R> for B
where
    B: StreamCipherBackend<R, Ietf> + StreamCipherBackend<R, Legacy> + RngBackend<R>,
{}

/// No rounds: a block is its start state, each word doubled.
#[derive(Clone, Copy)]
pub struct R0;

impl Rounds for R0 {
    ghost COUNT = { 0 };

    const COUNT: usize = 0;
}
