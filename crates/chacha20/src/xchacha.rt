//! HChaCha, and the ciphers with a nonce of 24 bytes (draft-irtf-cfrg-xchacha, section 2).

ghost use Rattle.std.specs.Prelude.{◌≡◌};
ghost use Rattle.chacha20.specs.XChaCha.{hchacha, subkey, subnonce};

use crate::chacha::{Key, Nonce};
use crate::chacha_core::{ChaChaCore, start_state};
use chacha_base::backends::Lanes16;
use chacha_base::bytes::{read_words, write_bytes};
use chacha_base::cipher::{
    BlockSizeUser, IvSizeUser, KeyIvInit, KeySizeUser, Keystream, ParBlocksSizeUser,
    StreamCipherBackend, StreamCipherCore, StreamCipherSeekCore,
};
use chacha_base::rounds::{R8, R12, R20, Rounds, Steps, double_rounds};
use chacha_base::variants::Ietf;
use chacha_base::wrapper::StreamCipherCoreWrapper;
use std::marker::Model;

/// A nonce of 24 bytes. No two messages under one key may have the same one; it is long enough to be drawn at random
/// (draft-irtf-cfrg-xchacha).
pub type XNonce = [u8; 24];

/// XChaCha with 8 rounds (this crate): the draft defines only 20. It takes as many bytes as `XChaCha20`.
pub type XChaCha8 = StreamCipherCoreWrapper<XChaChaCore<R8, Lanes16>>;

/// XChaCha with 12 rounds (this crate): the draft defines only 20. It takes as many bytes as `XChaCha20`.
pub type XChaCha12 = StreamCipherCoreWrapper<XChaChaCore<R12, Lanes16>>;

/// XChaCha20 (draft-irtf-cfrg-xchacha, section 2.3), from block 0 on: ChaCha20 under the key and the nonce that
/// `XChaChaCore` derives. It takes 2^38 bytes for one key and nonce: 64 from each of 2^32 blocks.
pub type XChaCha20 = StreamCipherCoreWrapper<XChaChaCore<R20, Lanes16>>;

/// The 32 bytes that HChaCha makes from a key and 16 more bytes: for `R20` HChaCha20 (draft-irtf-cfrg-xchacha, section
/// 2.2), for other numbers of rounds the same with them (this crate). Nothing is refused.
pub fn hchacha<R: Rounds>(key: &Key, input: &[u8; 16]) -> [u8; 32]
    ensures { result ≡ hchacha R.COUNT key.now input.now }
{
    let mut last_row = [0; 4];
    read_words(input, &mut last_row);
    let mut state = start_state(key, &last_row);
    double_rounds(R::COUNT, &mut state, &mut Steps::new());
    let mut subkey = [0; 32];
    write_bytes(&state[..4], &mut subkey[..16]);
    write_bytes(&state[12..], &mut subkey[16..]);
    subkey
}

/// The key under which ChaCha is XChaCha for a nonce: `hchacha` of the given key and the nonce's first 16 bytes
/// (draft-irtf-cfrg-xchacha, section 2.3).
pub fn subkey<R: Rounds>(key: &Key, nonce: &XNonce) -> Key
    ensures { result ≡ subkey R.COUNT key.now nonce.now }
{
    let mut input = [0; 16];
    input.copy_from_slice(&nonce[..16]);
    hchacha::<R>(key, &input)
}

/// The nonce under that key: four zero bytes, and then the given nonce's last eight (draft-irtf-cfrg-xchacha, section
/// 2.3).
#[tactic(auto, using(crate::proofs::StartLemmas::subnonce_written))]
pub fn subnonce(nonce: &XNonce) -> Nonce
    ensures { result ≡ subnonce nonce.now }
{
    let mut short = [0; 12];
    short[4..].copy_from_slice(&nonce[16..]);
    short
}

/// The core of an XChaCha cipher: a core of RFC 8439's layout under a derived key and nonce (draft-irtf-cfrg-xchacha,
/// section 2.3), by `subkey` with as many double rounds and `subnonce`. Clauses see the core as the list of its sixteen
/// words.
#[derive_where(Debug)]
pub struct XChaChaCore<R: Rounds, B> {
    core: ChaChaCore<R, Ietf, B>,
}

// By hand, since a derive asks `Drop` of each parameter.
impl<R: Rounds, B> Drop for XChaChaCore<R, B> {
    fn drop(self) {
        let XChaChaCore { core: _ } = self;
    }
}

impl<R: Rounds, B> Model for XChaChaCore<R, B> {
    ghost use Rattle.std.specs.Prelude.{ℕ, List};

    ghost Value = { List ℕ };

    ghost view = { λ x. x.core };
}

impl<R: Rounds, B> Keystream for XChaChaCore<R, B> {
    ghost use Rattle.chacha_base.specs.ChaCha.{ietf, modulus};
    ghost use Rattle.chacha_base.specs.State.{state_counter, fixed_words, state_block};
    ghost use Rattle.std.specs.Prelude.{◌*◌};

    ghost fixed = { fixed_words ietf };

    ghost modulus = { modulus ietf };

    ghost block_at = { state_block R.COUNT ietf };

    ghost position = { λ core. 64 * state_counter ietf core };

    ghost first_position = { 0 };
}

impl<R: Rounds, B> BlockSizeUser for XChaChaCore<R, B> {
    ghost BLOCK_SIZE = { 64 };

    const BLOCK_SIZE: usize = 64;
}

impl<R: Rounds, B: ParBlocksSizeUser> ParBlocksSizeUser for XChaChaCore<R, B> {
    ghost PAR_BLOCKS = { B.PAR_BLOCKS };

    const PAR_BLOCKS: usize = B::PAR_BLOCKS;

    ghost par_blocks_at_least = { B.par_blocks_at_least };

    ghost par_blocks_at_most = { B.par_blocks_at_most };
}

impl<R: Rounds, B> KeySizeUser for XChaChaCore<R, B> {
    ghost KEY_SIZE = { 32 };

    const KEY_SIZE: usize = 32;
}

impl<R: Rounds, B> IvSizeUser for XChaChaCore<R, B> {
    ghost IV_SIZE = { 24 };

    const IV_SIZE: usize = 24;
}

impl<R: Rounds, B> KeyIvInit for XChaChaCore<R, B> {
    ghost use Rattle.chacha_base.specs.ChaCha.{ietf, start, block};

    type Key = Key;

    type Iv = XNonce;

    ghost init = { λ key iv. start ietf (subkey R.COUNT key iv) (subnonce iv) 0 };

    ghost blocks_of = { λ key iv. block R.COUNT ietf (subkey R.COUNT key iv) (subnonce iv) };

    fn new(key: &Key, iv: &XNonce) -> Self {
        XChaChaCore {
            core: ChaChaCore::new(&subkey::<R>(key, iv), &subnonce(iv)),
        }
    }
}

impl<R: Rounds, B: StreamCipherBackend<R, Ietf>> StreamCipherCore for XChaChaCore<R, B> {
    ghost use Rattle.std.specs.Prelude.{refl, ◌*◌};
    ghost use Rattle.chacha_base.specs.ChaCha.{ietf};
    ghost use Rattle.chacha_base.specs.State.{state_counter};

    ghost counter = { state_counter ietf };

    ghost par_cost = { B.PAR_STEPS * R.COUNT };

    ghost one_cost = { B.ONE_STEPS * R.COUNT };

    ghost block_size = { refl };

    ghost position_is = { λ core. refl };

    fn remaining_blocks(&self) -> Option<usize> {
        self.core.remaining_blocks()
    }

    fn write_keystream_blocks(&mut self, blocks: &mut [[u8; 64]]) {
        self.core.write_keystream_blocks(blocks)
    }

    fn write_block_counted(&mut self, block: &mut [u8; 64], steps: &mut Steps) {
        self.core.write_block_counted(block, steps);
    }

    fn apply_blocks_counted(&mut self, data: &mut [u8], steps: &mut Steps) {
        self.core.apply_blocks_counted(data, steps);
    }

    fn apply_blocks_between_counted(&mut self, input: &[u8], output: &mut [u8], steps: &mut Steps) {
        self.core.apply_blocks_between_counted(input, output, steps);
    }
}

impl<R: Rounds, B: StreamCipherBackend<R, Ietf>> StreamCipherSeekCore for XChaChaCore<R, B> {
    ghost use Rattle.std.specs.Prelude.{refl};

    type Counter = u32;

    ghost counters = { refl };

    fn get_block_pos(&self) -> u32 {
        self.core.get_block_pos()
    }

    fn set_block_pos(&mut self, pos: u32) {
        self.core.set_block_pos(pos)
    }
}
