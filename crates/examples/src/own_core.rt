//! A core of a user's own: the trait implementations that `StreamCipherCoreWrapper` needs to make a cipher of it.

ghost use Rattle.std.specs.Prelude.{◌≡◌, ◌<◌, ◌+◌, ◌*◌, ◌%◌};

use chacha20::Steps;
use chacha20::cipher::{
    BlockSizeUser, IvSizeUser, KeyIvInit, KeySizeUser, Keystream, ParBlocksSizeUser,
    StreamCipherCore, StreamCipherSeekCore,
};

/// A core that encrypts nothing safely. Byte i of its block with counter c is (seed + 100 * c + i) mod
/// 256. The key is the seed, and there is no nonce. A new core is at block 5, but a cipher over it begins at block 0.
#[derive(Drop)]
pub struct Toy {
    seed: u8,
    counter: u32,
}

// The byte of a seed at a counter and a place in the block.
fn byte(seed: u8, counter: u32, place: usize) -> u8
    requires { place < 64 }
    ensures { result ≡ (seed + 100 * counter + place) % 256 }
{
    ((u64::from(seed) + 100 * u64::from(counter) + place as u64) % 256) as u8
}

impl Keystream for Toy {
    ghost use Rattle.std.specs.Prelude.{◌^◌, [], ◌∷◌, map, slice_index};
    ghost use Rattle.std.specs.List.{range_with_len};

    ghost fixed = { λ t. t.seed ∷ [] };

    ghost modulus = { 2 ^ 32 };

    ghost block_at = { λ f c. map (λ i. (slice_index f 0 + 100 * c + i) % 256)
        (range_with_len 0 64) };

    ghost position = { λ t. 64 * t.counter };

    ghost first_position = { 320 };
}

impl BlockSizeUser for Toy {
    ghost BLOCK_SIZE = { 64 };

    const BLOCK_SIZE: usize = 64;
}

impl ParBlocksSizeUser for Toy {
    ghost use Rattle.std.proofs.Common.{lit≤};

    ghost PAR_BLOCKS = { 4 };

    const PAR_BLOCKS: usize = 4;

    ghost par_blocks_at_least = { lit≤ tt };

    ghost par_blocks_at_most = { lit≤ tt };
}

impl KeySizeUser for Toy {
    ghost KEY_SIZE = { 1 };

    const KEY_SIZE: usize = 1;
}

impl IvSizeUser for Toy {
    ghost IV_SIZE = { 0 };

    const IV_SIZE: usize = 0;
}

impl KeyIvInit for Toy {
    ghost use Rattle.std.specs.Prelude.{map};
    ghost use Rattle.std.specs.List.{range_with_len};

    type Key = u8;

    type Iv = ();

    ghost init = { λ key iv. record { seed = key; counter = 5 } };

    ghost blocks_of = { λ key iv c. map (λ i. (key + 100 * c + i) % 256) (range_with_len 0 64) };

    fn new(key: &u8, _iv: &()) -> Toy {
        Toy {
            seed: *key,
            counter: 5,
        }
    }
}

impl StreamCipherCore for Toy {
    ghost use Rattle.std.specs.Prelude.{refl};

    ghost counter = { λ t. t.counter };

    ghost par_cost = { 0 };

    ghost one_cost = { 0 };

    ghost block_size = { refl };

    ghost position_is = { λ c. refl };

    fn remaining_blocks(&self) -> Option<usize> {
        Some((u32::MAX - self.counter) as usize + 1)
    }

    fn write_keystream_blocks(&mut self, blocks: &mut [[u8; 64]]) {
        for i in 0..blocks.len() {
            self.write_block_counted(&mut blocks[i], &mut Steps::new());
        }
    }

    fn write_block_counted(&mut self, block: &mut [u8; 64], _steps: &mut Steps) {
        for i in 0..64usize {
            block[i] = byte(self.seed, self.counter, i);
        }
        self.counter = self.counter.wrapping_add(1);
    }

    fn apply_blocks_counted(&mut self, data: &mut [u8], _steps: &mut Steps) {
        for i in 0..data.len() {
            let counter = self.counter.wrapping_add((i / 64 & 0xffff_ffff) as u32);
            data[i] ^= byte(self.seed, counter, i % 64);
        }
        self.counter = self
            .counter
            .wrapping_add((data.len() / 64 & 0xffff_ffff) as u32);
    }
}

impl StreamCipherSeekCore for Toy {
    ghost use Rattle.std.specs.Prelude.{refl};

    type Counter = u32;

    ghost counters = { refl };

    fn get_block_pos(&self) -> u32 {
        self.counter
    }

    fn set_block_pos(&mut self, pos: u32) {
        self.counter = pos;
    }
}
