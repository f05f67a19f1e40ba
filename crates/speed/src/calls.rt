//! The calls that are measured, each a function over any backend, or a way to a tag. They aren't inlined, and take the
//! key as an argument, so that no call is worked out beforehand.

use chacha20::backends::{Columns8, Lanes4, Lanes8, Lanes16, Rows8, Soft};
use chacha20::cipher::{
    KeyIvInit, RngBackend, StreamCipher, StreamCipherBackend, StreamCipherSeek,
};
use chacha20::variants::Ietf;
use chacha20::{ChaChaCore, ChaChaRng, Key, Nonce, R20, StreamCipherCoreWrapper};
use poly1305::Poly1305;

/// A call to be measured, on a slice. `NextU32` takes as many words as the slice holds, `Seek` goes into a block and
/// then applies in place, `Tag` is Poly1305's; all others begin with a new cipher or generator.
#[derive(Clone, Copy)]
pub enum Call {
    InPlace,
    TwoSlices,
    Keystream,
    Seek,
    Fill,
    NextU32,
    Tag,
}

/// A call with its name, its backends or ways, and the lengths in bytes for which a table has it.
pub struct Row {
    pub name: &'static str,
    pub call: Call,
    pub over: &'static [&'static str],
    pub lengths: &'static [usize],
}

/// All calls.
pub static ROWS: [Row; 7] = [
    Row {
        name: "in_place",
        call: Call::InPlace,
        over: &BACKENDS,
        lengths: &[64, 256, 512, 576, 1024, 1500, 4096, 65536],
    },
    Row {
        name: "two_slices",
        call: Call::TwoSlices,
        over: &BACKENDS,
        lengths: &[64, 512, 4096, 65536],
    },
    Row {
        name: "keystream",
        call: Call::Keystream,
        over: &BACKENDS,
        lengths: &[64, 512, 4096, 65536],
    },
    Row {
        name: "seek",
        call: Call::Seek,
        over: &BACKENDS,
        lengths: &[0, 64],
    },
    Row {
        name: "fill",
        call: Call::Fill,
        over: &BACKENDS,
        lengths: &[64, 4096],
    },
    Row {
        name: "next_u32",
        call: Call::NextU32,
        over: &BACKENDS,
        lengths: &[16384],
    },
    Row {
        name: "tag",
        call: Call::Tag,
        over: &WAYS,
        lengths: &[64, 256, 512, 1024, 1500, 4096, 65536],
    },
];

const BACKENDS: [&str; 6] = ["Soft", "Lanes4", "Lanes8", "Rows8", "Lanes16", "Columns8"];

// Pieces of a text that are too short for lanes, and the whole text.
const WAYS: [&str; 2] = ["blocks", "lanes"];

#[inline(never)]
fn in_place<C>(key: &Key, data: &mut [u8]) -> bool
where
    C: KeyIvInit<Key = Key, Iv = Nonce> + StreamCipher + Drop,
{
    let mut cipher = C::new(key, &[0; 12]);
    cipher.try_apply_keystream(data).is_ok()
}

#[inline(never)]
fn two_slices<C>(key: &Key, input: &[u8], data: &mut [u8]) -> bool
where
    C: KeyIvInit<Key = Key, Iv = Nonce> + StreamCipher + Drop,
{
    let mut cipher = C::new(key, &[0; 12]);
    cipher.try_apply_keystream_b2b(input, data).is_ok()
}

#[inline(never)]
fn keystream<C>(key: &Key, data: &mut [u8]) -> bool
where
    C: KeyIvInit<Key = Key, Iv = Nonce> + StreamCipher + Drop,
{
    let mut cipher = C::new(key, &[0; 12]);
    cipher.try_write_keystream(data).is_ok()
}

#[inline(never)]
fn seek<C: StreamCipherSeek>(cipher: &mut C, data: &mut [u8]) -> bool {
    cipher.try_seek(1u64).is_ok() && cipher.try_apply_keystream(data).is_ok()
}

#[inline(never)]
fn fill<B: RngBackend<R20>>(key: &Key, data: &mut [u8]) -> bool {
    ChaChaRng::<R20, B>::from_seed(*key).fill_bytes(data);
    true
}

#[inline(never)]
fn next_u32<B: RngBackend<R20>>(key: &Key, data: &mut [u8]) -> bool {
    let mut rng = ChaChaRng::<R20, B>::from_seed(*key);
    let mut sum = 0u32;
    for _ in 0..data.len() / 4 {
        sum = sum.wrapping_add(rng.next_u32());
    }
    sum != 0
}

#[inline(never)]
fn tag(key: &Key, text: &[u8], piece: usize) -> bool {
    let mut mac = Poly1305::new(key);
    for part in text.chunks(piece.max(1)) {
        mac.update(part);
    }
    mac.finish() != [0; 16]
}

fn tags(times: usize, text: &[u8], piece: usize) -> bool {
    let mut made = true;
    for _ in 0..times {
        made &= tag(&[(times % 255) as u8 + 1; 32], text, piece);
    }
    made
}

// Makes a call so many times over a cipher and the backend of its generator, and says whether each was accepted.
fn repeats<C, B>(call: Call, times: usize, input: &[u8], data: &mut [u8]) -> bool
where
    C: KeyIvInit<Key = Key, Iv = Nonce> + StreamCipherSeek + Drop,
    B: RngBackend<R20>,
{
    let key = [(times % 256) as u8; 32];
    let mut cipher = C::new(&key, &[0; 12]);
    let mut accepted = true;
    for _ in 0..times {
        accepted &= match call {
            Call::InPlace => in_place::<C>(&key, data),
            Call::TwoSlices => two_slices::<C>(&key, input, data),
            Call::Keystream => keystream::<C>(&key, data),
            Call::Seek => seek(&mut cipher, data),
            Call::Fill => fill::<B>(&key, data),
            Call::NextU32 => next_u32::<B>(&key, data),
            Call::Tag => false,
        };
    }
    accepted
}

// `repeats`. Here the cipher's trait bounds are proved once for all `B`; `makes` would prove them for each backend.
fn makes_over<B>(call: Call, times: usize, input: &[u8], data: &mut [u8]) -> bool
where
    B: StreamCipherBackend<R20, Ietf> + RngBackend<R20>,
{
    repeats::<StreamCipherCoreWrapper<ChaChaCore<R20, Ietf, B>>, B>(call, times, input, data)
}

/// Makes a call so many times over the backend or in the way of a name. It returns true if there is one, and each call
/// was accepted.
pub fn makes(call: Call, name: &str, times: usize, input: &[u8], data: &mut [u8]) -> bool {
    match name {
        "blocks" => tags(times, input, 496),
        "lanes" => tags(times, input, input.len()),
        "Soft" => makes_over::<Soft>(call, times, input, data),
        "Lanes4" => makes_over::<Lanes4>(call, times, input, data),
        "Lanes8" => makes_over::<Lanes8>(call, times, input, data),
        "Rows8" => makes_over::<Rows8>(call, times, input, data),
        "Lanes16" => makes_over::<Lanes16>(call, times, input, data),
        "Columns8" => makes_over::<Columns8>(call, times, input, data),
        _ => false,
    }
}
