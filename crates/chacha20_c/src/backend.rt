//! The backend of the ciphers. No contract of an export names it.

use crate::level::{Group, THREE_BY_GROUP};
use chacha20::backends::Columns8;
use chacha20::cipher::{ParBlocksSizeUser, StreamCipherBackend};
use chacha20::{Rounds, Steps, Variant};

// The backend of fewer blocks than a group has.
type Eight = Columns8;

/// Makes as many blocks at once as `Group` of the level does, and a tail of eight or more in two calls: first eight,
/// then the rest. It counts nothing. It has one name at all levels, so that the exports are proved once.
pub(crate) struct Backend;

impl ParBlocksSizeUser for Backend {
    ghost PAR_BLOCKS = { ⟦<Group as ParBlocksSizeUser>⟧.PAR_BLOCKS };

    const PAR_BLOCKS: usize = <Group as ParBlocksSizeUser>::PAR_BLOCKS;

    ghost par_blocks_at_least = { ⟦<Group as ParBlocksSizeUser>⟧.par_blocks_at_least };

    ghost par_blocks_at_most = { ⟦<Group as ParBlocksSizeUser>⟧.par_blocks_at_most };
}

impl<R: Rounds, V: Variant> StreamCipherBackend<R, V> for Backend {
    ghost PAR_STEPS = { 0 };

    ghost ONE_STEPS = { 0 };

    const PAR_STEPS: usize = 0;

    const ONE_STEPS: usize = 0;

    #[inline(always)]
    fn gen_ks_block(state: &mut [u32; 16], block: &mut [u8; 64], _: &mut Steps) {
        <Eight as StreamCipherBackend<R, V>>::gen_ks_block(state, block, &mut Steps::new());
    }

    #[inline(always)]
    fn gen_par_ks_blocks(state: &mut [u32; 16], blocks: &mut [[u8; 64]], _: &mut Steps) {
        <Group as StreamCipherBackend<R, V>>::gen_par_ks_blocks(state, blocks, &mut Steps::new());
    }

    #[inline(always)]
    fn gen_tail_blocks(state: &mut [u32; 16], blocks: &mut [[u8; 64]], _: &mut Steps) {
        let steps = &mut Steps::new();
        let mut done = 0;
        if blocks.len() >= 8 {
            <Eight as StreamCipherBackend<R, V>>::gen_par_ks_blocks(state, &mut blocks[..8], steps);
            done = 8;
        }
        let rest = &mut blocks[done..];
        if THREE_BY_GROUP && rest.len() == 3 {
            <Group as StreamCipherBackend<R, V>>::gen_tail_blocks(state, rest, steps);
        } else {
            <Eight as StreamCipherBackend<R, V>>::gen_tail_blocks(state, rest, steps);
        }
    }
}
