//! Calls that each make a cipher of their own, over any core. They return what C gets: 0 where a call is accepted, and
//! 1 where it is refused. A position has 128 bits, so that it reaches the end of each stream.

ghost use Rattle.std.specs.Prelude.{◌≡◌, ◌≤◌, ◌<◌, ◌+◌, ◌*◌, ◌/◌, ◌%◌, cond, is_ok, length};
ghost use Rattle.chacha20.specs.ChaCha.{keystream, stream_part};
ghost use Rattle.chacha20.specs.Cipher.{limit_of};
ghost use Rattle.chacha20_c.specs.Results.{Checked, Written, Xored, XoredInto};

use chacha20::StreamCipherCoreWrapper;
use chacha20::cipher::{
    KeyIvInit, StreamCipher, StreamCipherCore, StreamCipherCounter, StreamCipherError,
    StreamCipherSeek, StreamCipherSeekCore,
};

/// XORs bytes with the keystream from a position on.
pub(crate) fn xor_in_place<K: KeyIvInit + StreamCipherSeekCore + Drop>(
    key: &K::Key,
    nonce: &K::Iv,
    position: u128,
    data: &mut [u8],
) -> u32
    ensures { Xored (limit_of K.modulus) (keystream K.modulus (K.blocks_of key.now nonce.now))
        position result «data».old «data».new }
{
    let mut cipher = StreamCipherCoreWrapper::<K>::new(key, nonce);
    let outcome = match cipher.try_seek(position) {
        Ok(()) => cipher.try_apply_keystream(data),
        Err(error) => Err(error),
    };
    answer(outcome)
}

/// Writes an input, XORed with the keystream from a position on, into an output.
pub(crate) fn xor_between<K: KeyIvInit + StreamCipherSeekCore + Drop>(
    key: &K::Key,
    nonce: &K::Iv,
    position: u128,
    output: &mut [u8],
    input: &[u8],
) -> u32
    ensures { XoredInto (limit_of K.modulus) (keystream K.modulus (K.blocks_of key.now nonce.now))
        position result input.now output.old output.new }
{
    let mut cipher = StreamCipherCoreWrapper::<K>::new(key, nonce);
    let outcome = match cipher.try_seek(position) {
        Ok(()) => cipher.try_apply_keystream_b2b(input, output),
        Err(error) => Err(error),
    };
    answer(outcome)
}

/// Writes the keystream from a position on.
pub(crate) fn write_keystream<K: KeyIvInit + StreamCipherSeekCore + Drop>(
    key: &K::Key,
    nonce: &K::Iv,
    position: u128,
    output: &mut [u8],
) -> u32
    ensures { Written (limit_of K.modulus) (keystream K.modulus (K.blocks_of key.now nonce.now))
        position result output.old output.new }
{
    if check(position, output.len(), limit::<K>()) != 0 {
        return 1;
    }
    let whole = grouped(position, output.len());
    let (groups, rest) = output.split_at_mut(whole);
    write_groups::<K>(key, nonce, position, groups);
    write_rest::<K>(key, nonce, position + whole as u128, rest)
}

// Where the stream ends.
fn limit<K: StreamCipherSeekCore>() -> u128
    ensures { result ≡ limit_of K.modulus }
{
    64 * (u128::from(K::Counter::last()) + 1)
}

// How many bytes are written in groups of sixteen blocks: none where the position is inside a block.
fn grouped(position: u128, len: usize) -> usize
    ensures whole { result % 1024 ≡ 0 }
    ensures within { result ≤ len }
    ensures front { 0 < result → position % 64 ≡ 0 }
{
    if position % 64 == 0 {
        len / 1024 * 1024
    } else {
        0
    }
}

// Writes groups of blocks.
fn write_groups<K: KeyIvInit + StreamCipherSeekCore + Drop>(
    key: &K::Key,
    nonce: &K::Iv,
    position: u128,
    groups: &mut [u8],
)
    requires whole { length groups.old % 1024 ≡ 0 }
    requires front { 0 < length groups.old → position % 64 ≡ 0 }
    ensures { groups.new ≡ stream_part (keystream K.modulus (K.blocks_of key.now nonce.now))
        position (length groups.old) }
{
    let whole = groups.len();
    if whole > 0 {
        let mut core = core_at::<K>(key, nonce, position);
        write_blocks(&mut core, groups);
    }
}

// The core of a key and a nonce, at the block that a position is in.
fn core_at<K: KeyIvInit + StreamCipherSeekCore>(key: &K::Key, nonce: &K::Iv, position: u128) -> K
    ensures keystream { K.block_at (K.fixed result) ≡ K.blocks_of key.now nonce.now }
    ensures counter { K.counter result ≡ position / 64 % K.modulus }
{
    let mut core = K::new(key, nonce);
    let counter = position / 64 % (limit::<K>() / 64);
    core.set_block_pos(K::Counter::from_u64(counter as u64));
    core
}

// Writes groups of a core's next blocks.
fn write_blocks<C: StreamCipherCore>(core: &mut C, groups: &mut [u8])
    requires { length groups.old % 1024 ≡ 0 }
    ensures { groups.new ≡ stream_part (keystream C.modulus (C.block_at (C.fixed core.old)))
        (64 * C.counter core.old) (length groups.old) }
{
    let mut made = [[0; 64]; 16];
    let mut done = 0;
    'parts: while done < groups.len() {
        write_group(core, &mut made, &mut groups[done..done + 1024]);
        done += 1024;
    }
}

// Writes sixteen blocks. To copy them takes less time than to XOR zeros.
fn write_group<C: StreamCipherCore>(core: &mut C, made: &mut [[u8; 64]; 16], group: &mut [u8])
    requires { length group.old ≡ 1024 }
    ensures bytes { group.new ≡ stream_part
        (keystream C.modulus (C.block_at (C.fixed core.old))) (64 * C.counter core.old) 1024 }
    ensures fixed { C.fixed core.new ≡ C.fixed core.old }
    ensures counter { C.counter core.new ≡ (C.counter core.old + 16) % C.modulus }
{
    core.write_keystream_blocks(made);
    let mut i = 0;
    'copies: while i < 16 {
        group[64 * i..64 * i + 64].copy_from_slice(&made[i]);
        i += 1;
    }
}

// Writes the keystream by a cipher.
fn write_rest<K: KeyIvInit + StreamCipherSeekCore + Drop>(
    key: &K::Key,
    nonce: &K::Iv,
    position: u128,
    output: &mut [u8],
) -> u32
    ensures { Written (limit_of K.modulus) (keystream K.modulus (K.blocks_of key.now nonce.now))
        position result output.old output.new }
{
    let mut cipher = StreamCipherCoreWrapper::<K>::new(key, nonce);
    let outcome = match cipher.try_seek(position) {
        Ok(()) => cipher.try_write_keystream(output),
        Err(error) => Err(error),
    };
    answer(outcome)
}

// 0 for a call that was accepted, and 1 for one that was refused.
fn answer(outcome: Result<(), StreamCipherError>) -> u32
    ensures { result ≡ cond (is_ok outcome) 0 1 }
{
    match outcome {
        Ok(()) => 0,
        Err(_) => 1,
    }
}

/// 0 where `len` bytes from a position on end at a limit or before it, and else 1.
pub(crate) fn check(position: u128, len: usize, limit: u128) -> u32
    ensures { Checked limit position len result }
{
    if position <= limit && len as u128 <= limit - position {
        0
    } else {
        1
    }
}
