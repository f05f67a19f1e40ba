//! Sizes of blocks, keys, nonces and parallel calls.

ghost use Rattle.std.specs.Prelude.{◌≤◌, ℕ};

/// The size of a block in bytes.
pub trait BlockSizeUser {
    ghost BLOCK_SIZE: { ℕ };

    /// Bytes in a block.
    const BLOCK_SIZE: usize;
}

/// The size of a key in bytes.
pub trait KeySizeUser {
    ghost KEY_SIZE: { ℕ };

    /// Bytes in a key.
    const KEY_SIZE: usize;
}

/// The size of a nonce in bytes.
pub trait IvSizeUser {
    ghost IV_SIZE: { ℕ };

    /// Bytes in a nonce.
    const IV_SIZE: usize;
}

/// How many blocks a backend makes in one parallel call: from 1 to 16.
pub trait ParBlocksSizeUser {
    ghost PAR_BLOCKS: { ℕ };

    /// Blocks in a parallel call.
    const PAR_BLOCKS: usize;

    ghost par_blocks_at_least: { 1 ≤ PAR_BLOCKS };

    ghost par_blocks_at_most: { PAR_BLOCKS ≤ 16 };
}
