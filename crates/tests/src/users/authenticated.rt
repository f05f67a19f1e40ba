//! The AEADs: published examples, tags of libsodium, random keys and nonces. A caller's proof that what is encrypted is
//! decrypted.

ghost use Rattle.std.specs.Prelude.{◌≡◌, ◌≤◌, ◌+◌, ◌↔◌, length, IsOk};
ghost use Rattle.chacha20.specs.Cipher.{limit_of};

use chacha20::cipher::{KeyIvInit, StreamCipher};
use chacha20::{ChaCha20, Key, Nonce, XChaCha20, XNonce};
use chacha20poly1305::{ChaChaPoly1305, Error, XChaCha20Poly1305};
use known_answers::published::{COUNTING, FROM_80, MESSAGE};
use std::io::{self, ErrorKind};
use std::random::RandomSource;

// Whatever the cipher and the message are: what is encrypted is decrypted, and the message is as it was.
fn there_and_back<C: KeyIvInit<Key = Key> + StreamCipher + Drop>(
    key: &Key,
    nonce: &C::Iv,
    aad: &[u8],
    message: &mut [u8],
) -> Result<(), Error>
    ensures accepted { IsOk result ↔ (64 + length message.old ≤ limit_of C.modulus) }
    ensures message { message.new ≡ message.old }
{
    let cipher = ChaChaPoly1305::<C>::new(key);
    let tag = cipher.encrypt_in_place_detached(nonce, aad, message)?;
    cipher.decrypt_in_place_detached(nonce, aad, message, &tag)
}

// The longest sealed message here.
const ROOM: usize = 281;

// The sealed message of a text, and zeros behind it.
fn sealed<C: KeyIvInit<Key = Key> + StreamCipher + Drop>(
    key: &Key,
    nonce: &C::Iv,
    aad: &[u8],
    text: &[u8],
) -> [u8; ROOM] {
    let mut output = [0; ROOM];
    let text = &text[..text.len().min(ROOM - 16)];
    let cipher = ChaChaPoly1305::<C>::new(key);
    let _ = cipher.encrypt(nonce, aad, text, &mut output[..text.len() + 16]);
    output
}

// The tag behind so many bytes.
fn tag_of(sealed: &[u8; ROOM], len: usize) -> [u8; 16] {
    let mut tag = [0; 16];
    let len = len.min(ROOM - 16);
    tag.copy_from_slice(&sealed[len..len + 16]);
    tag
}

// Whether a text becomes this, which with another tag is refused and stays as it is, and else is decrypted.
fn is_sealed<C: KeyIvInit<Key = Key> + StreamCipher + Drop>(
    key: &Key,
    nonce: &C::Iv,
    aad: &[u8],
    text: &[u8],
    expected: &[u8],
) -> bool {
    let mut made = sealed::<C>(key, nonce, aad, text);
    let (is_right, mut tag) = (made.starts_with(expected), tag_of(&made, text.len()));
    let cipher = ChaChaPoly1305::<C>::new(key);
    let message = &mut made[..text.len().min(ROOM)];
    tag[15] ^= 1;
    let refused = cipher.decrypt_in_place_detached(nonce, aad, message, &tag);
    let stays = expected.starts_with(message);
    tag[15] ^= 1;
    let opened = cipher.decrypt_in_place_detached(nonce, aad, message, &tag);
    is_right & stays & (refused == Err(Error::WrongTag)) & opened.is_ok() & (*message == *text)
}

// RFC 8439, sections 2.8.2 and A.5, and draft-irtf-cfrg-xchacha, section A.3.1.
#[test]
fn published(rt: HostRuntime) {
    let right = [
        is_sealed::<ChaCha20>(&FROM_80, &NONCE, AAD, MESSAGE, CIPHERTEXT_AND_TAG),
        is_sealed::<ChaCha20>(&A5_KEY, &A5_NONCE, A5_AAD, A5_TEXT, A5_CIPHERTEXT_AND_TAG),
        is_sealed::<XChaCha20>(&FROM_80, &X_NONCE, AAD, MESSAGE, X_CIPHERTEXT_AND_TAG),
    ];
    assert!(rt; right == [true; 3]);
}

// A source of the bytes 0, 1, 2 and so on, or of an error.
#[derive(Clone, Copy)]
pub struct Source {
    pub fails: bool,
}

impl RandomSource for Source {
    fn fill_bytes(&self, buf: &mut [u8]) -> io::Result<()> {
        if self.fails {
            return Err(io::Error::from(ErrorKind::Unsupported));
        }
        let n = buf.len().min(32);
        buf[..n].copy_from_slice(&COUNTING[..n]);
        Ok(())
    }
}

// A key and a nonce of the source, or the kind of each error.
fn generated(fails: bool) -> (Result<Key, ErrorKind>, Result<XNonce, ErrorKind>) {
    let source = Source { fails };
    let key = XChaCha20Poly1305::generate_key(&source);
    let nonce = XChaCha20Poly1305::generate_nonce(&source);
    (key.map_err(|e| e.kind()), nonce.map_err(|e| e.kind()))
}

#[test]
fn random(rt: HostRuntime) {
    let mut nonce = [0; 24];
    nonce.copy_from_slice(&COUNTING[..24]);
    assert!(rt; generated(false) == (Ok(COUNTING), Ok(nonce)));
    let error = ErrorKind::Unsupported;
    assert!(rt; generated(true) == (Err(error), Err(error)));
}

// For these lengths of the message, the XOR of the tags. The data are the front of the ciphertext.
fn all_tags(aad: usize) -> u128 {
    let aad = &CIPHERTEXT_AND_TAG[..aad.min(130)];
    let mut all = 0;
    for len in [0usize, 1, 15, 16, 17, 63, 64, 65] {
        let made = sealed::<ChaCha20>(&FROM_80, &NONCE, aad, &MESSAGE[..len]);
        all ^= u128::from_le_bytes(tag_of(&made, len));
    }
    all
}

#[test]
fn tags_of_libsodium(rt: HostRuntime) {
    for (len, tags) in &TAGS {
        assert!(rt; all_tags(*len) == *tags);
    }
}

// RFC 8439, section 2.8.2, with the key `FROM_80` and the text `MESSAGE`.
static NONCE: Nonce = *b"\x07\x00\x00\x00@ABCDEFG";

const AAD: &[u8] = b"PQRS\xc0\xc1\xc2\xc3\xc4\xc5\xc6\xc7";

const CIPHERTEXT_AND_TAG: &[u8; 130] = b"\
    \xd3\x1a\x8d\x34\x64\x8e\x60\xdb\x7b\x86\xaf\xbc\x53\xef\x7e\xc2\xa4\xad\xed\x51\x29\x6e\x08\xfe\
    \xa9\xe2\xb5\xa7\x36\xee\x62\xd6\x3d\xbe\xa4\x5e\x8c\xa9\x67\x12\x82\xfa\xfb\x69\xda\x92\x72\x8b\
    \x1a\x71\xde\x0a\x9e\x06\x0b\x29\x05\xd6\xa5\xb6\x7e\xcd\x3b\x36\x92\xdd\xbd\x7f\x2d\x77\x8b\x8c\
    \x98\x03\xae\xe3\x28\x09\x1b\x58\xfa\xb3\x24\xe4\xfa\xd6\x75\x94\x55\x85\x80\x8b\x48\x31\xd7\xbc\
    \x3f\xf4\xde\xf0\x8e\x4b\x7a\x9d\xe5\x76\xd2\x65\x86\xce\xc6\x4b\x61\x16\
    \x1a\xe1\x0b\x59\x4f\x09\xe2\x6a\x7e\x90\x2e\xcb\xd0\x60\x06\x91";

// The draft's example, with the same key, data and text.
static X_NONCE: XNonce = *b"@ABCDEFGHIJKLMNOPQRSTUVW";

const X_CIPHERTEXT_AND_TAG: &[u8; 130] = b"\
    \xbd\x6d\x17\x9d\x3e\x83\xd4\x3b\x95\x76\x57\x94\x93\xc0\xe9\x39\x57\x2a\x17\x00\x25\x2b\xfa\xcc\xbe\
    \xd2\x90\x2c\x21\x39\x6c\xbb\x73\x1c\x7f\x1b\x0b\x4a\xa6\x44\x0b\xf3\xa8\x2f\x4e\xda\x7e\x39\xae\x64\
    \xc6\x70\x8c\x54\xc2\x16\xcb\x96\xb7\x2e\x12\x13\xb4\x52\x2f\x8c\x9b\xa4\x0d\xb5\xd9\x45\xb1\x1b\x69\
    \xb9\x82\xc1\xbb\x9e\x3f\x3f\xac\x2b\xc3\x69\x48\x8f\x76\xb2\x38\x35\x65\xd3\xff\xf9\x21\xf9\x66\x4c\
    \x97\x63\x7d\xa9\x76\x88\x12\xf6\x15\xc6\x8b\x13\xb5\x2e\
    \xc0\x87\x59\x24\xc1\xc7\x98\x79\x47\xde\xaf\xd8\x78\x0a\xcf\x49";

// RFC 8439, section A.5.
static A5_KEY: Key = *b"\
    \x1c\x92\x40\xa5\xeb\x55\xd3\x8a\xf3\x33\x88\x86\x04\xf6\xb5\xf0\
    \x47\x39\x17\xc1\x40\x2b\x80\x09\x9d\xca\x5c\xbc\x20\x70\x75\xc0";

static A5_NONCE: Nonce = [0, 0, 0, 0, 1, 2, 3, 4, 5, 6, 7, 8];

const A5_AAD: &[u8] = b"\xf3\x33\x88\x86\0\0\0\0\0\0\x4e\x91";

const A5_TEXT: &[u8; 265] = b"\
    Internet-Drafts are draft documents valid for a maximum of six months and may be updated, replaced, or \
    obsoleted by other documents at any time. It is inappropriate to use Internet-Drafts as reference \
    material or to cite them other than as /\xe2\x80\x9cwork in progress./\xe2\x80\x9d";

const A5_CIPHERTEXT_AND_TAG: &[u8; 281] = b"\
    \x64\xa0\x86\x15\x75\x86\x1a\xf4\x60\xf0\x62\xc7\x9b\xe6\x43\xbd\x5e\x80\x5c\xfd\x34\x5c\xf3\x89\xf1\
    \x08\x67\x0a\xc7\x6c\x8c\xb2\x4c\x6c\xfc\x18\x75\x5d\x43\xee\xa0\x9e\xe9\x4e\x38\x2d\x26\xb0\xbd\xb7\
    \xb7\x3c\x32\x1b\x01\x00\xd4\xf0\x3b\x7f\x35\x58\x94\xcf\x33\x2f\x83\x0e\x71\x0b\x97\xce\x98\xc8\xa8\
    \x4a\xbd\x0b\x94\x81\x14\xad\x17\x6e\x00\x8d\x33\xbd\x60\xf9\x82\xb1\xff\x37\xc8\x55\x97\x97\xa0\x6e\
    \xf4\xf0\xef\x61\xc1\x86\x32\x4e\x2b\x35\x06\x38\x36\x06\x90\x7b\x6a\x7c\x02\xb0\xf9\xf6\x15\x7b\x53\
    \xc8\x67\xe4\xb9\x16\x6c\x76\x7b\x80\x4d\x46\xa5\x9b\x52\x16\xcd\xe7\xa4\xe9\x90\x40\xc5\xa4\x04\x33\
    \x22\x5e\xe2\x82\xa1\xb0\xa0\x6c\x52\x3e\xaf\x45\x34\xd7\xf8\x3f\xa1\x15\x5b\x00\x47\x71\x8c\xbc\x54\
    \x6a\x0d\x07\x2b\x04\xb3\x56\x4e\xea\x1b\x42\x22\x73\xf5\x48\x27\x1a\x0b\xb2\x31\x60\x53\xfa\x76\x99\
    \x19\x55\xeb\xd6\x31\x59\x43\x4e\xce\xbb\x4e\x46\x6d\xae\x5a\x10\x73\xa6\x72\x76\x27\x09\x7a\x10\x49\
    \xe6\x17\xd9\x1d\x36\x10\x94\xfa\x68\xf0\xff\x77\x98\x71\x30\x30\x5b\xea\xba\x2e\xda\x04\xdf\x99\x7b\
    \x71\x4d\x6c\x6f\x2c\x29\xa6\xad\x5c\xb4\x02\x2b\x02\x70\x9b\
    \xee\xad\x9d\x67\x89\x0c\xbb\x22\x39\x23\x36\xfe\xa1\x85\x1f\x38";

// For each length of data, the XOR of the tags of messages of all these lengths, as little-endian numbers. Made by
// `crypto_aead_chacha20poly1305_ietf_encrypt` of libsodium 1.0.18; OpenSSL 3.0 gave the same.
static TAGS: [(usize, u128); 8] = [
    (0, 0xbe450ce5507b3328c66714836935a2d9),
    (1, 0xf0a4c792edd67d4fa65d53f48f1efaff),
    (15, 0x8cc6200a42375935f255644ea726a1a9),
    (16, 0x5f1804b62d3ec970ba00c16b0438a9b4),
    (17, 0x5359e888fc9cdc1aedafc987c1b256f7),
    (63, 0x8573c3065399b786405d0d77403c9788),
    (64, 0xfcdf5bd414b5995ed13c0e5efa75f799),
    (65, 0xac5cd4637e7120fc5cf3eb308364e26f),
];
