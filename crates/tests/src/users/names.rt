//! Every public name by the crate's root and by its module, and which types the aliases name. Most names are only
//! imported: that they are found is the test.

use chacha20::{
    BlockSizeUser, ChaCha8, ChaCha8Rng, ChaCha12, ChaCha12Rng, ChaCha20, ChaCha20Legacy,
    ChaCha20LegacyCore, ChaCha20Rng, ChaChaCore, ChaChaRng, CipherAnswer, CipherCall, Columns8,
    Generator, Ietf, IvSizeUser, Key, KeyIvInit, KeySizeUser, Keystream, Lanes4, Lanes8, Lanes16,
    Legacy, LegacyNonce, Nonce, OverflowError, ParBlocksSizeUser, R8, R12, R20, RngAnswer,
    RngBackend, RngCall, Rounds, Rows8, Seed, SeekNum, SerializedRngState, Soft, Steps,
    StreamCipher, StreamCipherBackend, StreamCipherCore, StreamCipherCoreWrapper,
    StreamCipherCounter, StreamCipherError, StreamCipherSeek, StreamCipherSeekCore, Variant,
    XChaCha8, XChaCha12, XChaCha20, XChaChaCore, XNonce, backends, cipher, hchacha, rand_core,
    run_cipher, run_rng, runs, state_bytes, subkey, subnonce, variants,
};
use chacha20poly1305::{
    ChaCha8Poly1305, ChaCha12Poly1305, ChaCha20Poly1305, ChaChaPoly1305, Error, Key as KeyOfAead,
    Nonce as NonceOfAead, Tag, XChaCha8Poly1305, XChaCha12Poly1305, XChaCha20Poly1305,
    XNonce as XNonceOfAead,
};
use known_answers::R0;
use known_answers::published::HCHACHA_INPUT;

// The same names by their modules.
mod by_module {
    use chacha20::backends::{Columns8, Lanes4, Lanes8, Lanes16, Rows8, Soft};
    use chacha20::cipher::{
        BlockSizeUser, IvSizeUser, KeyIvInit, KeySizeUser, Keystream, OverflowError,
        ParBlocksSizeUser, RngBackend, SeekNum, StreamCipher, StreamCipherBackend,
        StreamCipherCore, StreamCipherCoreWrapper, StreamCipherCounter, StreamCipherError,
        StreamCipherSeek, StreamCipherSeekCore,
    };
    use chacha20::runs::{CipherAnswer, CipherCall, RngAnswer, RngCall, run_cipher, run_rng};
    use chacha20::variants::{Ietf, Legacy, StreamCipherCounter as Counter, Variant};
}

// The first bytes of the subkey of zeros (tests of golang.org/x/crypto). Without rounds, the constants and the input.
#[test]
fn subkeys(rt: HostRuntime) {
    assert!(rt;
        hchacha::<R20>(&[0; 32], &[0; 16]).starts_with(b"\x11\x40\x70\x4c\x32\x8d\x1d\x5d")
    );
    assert!(rt; hchacha::<R0>(&[0; 32], &HCHACHA_INPUT) == UNMIXED);
}

static UNMIXED: Key = *b"expand 32-byte k\0\0\0\x09\0\0\0\x4a\0\0\0\0\x31\x41\x59\x27";

type Cipher<K> = StreamCipherCoreWrapper<K>;

// The type that each alias names, its backend included: another type would not be accepted here.
fn in_full<'n>(
    named: (
        &'n (ChaCha8, ChaCha12, ChaCha20, ChaCha20Legacy),
        &'n (XChaCha8, XChaCha12, XChaCha20),
        &'n ChaCha20LegacyCore,
        &'n (ChaCha8Rng, ChaCha12Rng, ChaCha20Rng),
        &'n (XNonce, Seed, SerializedRngState),
    ),
) -> (
    &'n (
        Cipher<ChaChaCore<R8, Ietf, Lanes16>>,
        Cipher<ChaChaCore<R12, Ietf, Lanes16>>,
        Cipher<ChaChaCore<R20, Ietf, Lanes16>>,
        Cipher<ChaChaCore<R20, Legacy, Lanes16>>,
    ),
    &'n (
        Cipher<XChaChaCore<R8, Lanes16>>,
        Cipher<XChaChaCore<R12, Lanes16>>,
        Cipher<XChaChaCore<R20, Lanes16>>,
    ),
    &'n ChaChaCore<R20, Legacy, Lanes16>,
    &'n (
        ChaChaRng<R8, Lanes8>,
        ChaChaRng<R12, Lanes8>,
        ChaChaRng<R20, Lanes8>,
    ),
    &'n ([u8; 24], [u8; 32], [u8; 49]),
) {
    named
}
