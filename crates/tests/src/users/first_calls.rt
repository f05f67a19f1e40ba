//! The examples of README and GUIDE, and of the comments of the calls that users make first.

use chacha20::cipher::{KeyIvInit, StreamCipher, StreamCipherError, StreamCipherSeek};
use chacha20::{ChaCha20, ChaCha20Rng, Key, Nonce, XNonce};
use chacha20poly1305::{ChaCha20Poly1305, Error, XChaCha20Poly1305};
use key_file::{key_of, line_of};
use known_answers::published::{COUNTING, KEYSTREAM, NONCE, OF_ZEROS, X_NONCE};
use packets::{ReceiveError, SendError};
use sealed_file::BUFFER;
use std::test::Fail;

fn encrypted_and_decrypted(key: &Key, nonce: &Nonce) -> Result<[u8; 14], StreamCipherError> {
    let mut message = *b"attack at dawn";
    ChaCha20::new(key, nonce).try_apply_keystream(&mut message)?;
    ChaCha20::new(key, nonce).try_apply_keystream(&mut message)?;
    Ok(message)
}

fn from_block_1(key: &Key, nonce: &Nonce) -> Result<[u8; 114], StreamCipherError> {
    let mut message = [0; 114];
    let mut cipher = ChaCha20::new(key, nonce);
    cipher.try_seek(64u32)?;
    cipher.try_apply_keystream(&mut message)?;
    Ok(message)
}

#[test]
fn ciphers(rt: HostRuntime) {
    let same = encrypted_and_decrypted(&COUNTING, &NONCE) == Ok(*b"attack at dawn");
    assert!(rt; same & (from_block_1(&COUNTING, &NONCE) == Ok(*KEYSTREAM)));
}

fn there_and_back(key: &Key, nonce: &XNonce, aad: &[u8]) -> Result<[u8; 14], Error> {
    let mut message = *b"attack at dawn";
    let cipher = XChaCha20Poly1305::new(key);
    let tag = cipher.encrypt_in_place_detached(nonce, aad, &mut message)?;
    cipher.decrypt_in_place_detached(nonce, aad, &mut message, &tag)?;
    Ok(message)
}

fn sealed_and_opened(key: &Key, nonce: &Nonce) -> Result<[u8; 14], Error> {
    let cipher = ChaCha20Poly1305::new(key);
    let mut sealed = [0; 14 + 16];
    cipher.encrypt(nonce, b"header", b"attack at dawn", &mut sealed)?;

    let mut text = [0; 14];
    cipher.decrypt(nonce, b"header", &sealed, &mut text)?;
    Ok(text)
}

#[test]
fn messages(rt: HostRuntime) {
    let texts = [
        there_and_back(&COUNTING, &X_NONCE, b"header"),
        sealed_and_opened(&COUNTING, &NONCE),
    ];
    assert!(rt; texts == [Ok(*b"attack at dawn"); 2]);
}

fn in_memory(rt: &HostRuntime, key: &Key, text: &[u8]) -> Result<bool, Fail> {
    let mut buf = [0; BUFFER];
    let mut file = Vec::new(rt.alloc());
    let mut reader = text;
    sealed_file::encrypt(rt, key, &mut reader, &mut file, &mut buf)?;
    let mut opened = Vec::new(rt.alloc());
    let mut reader = file.as_slice();
    sealed_file::decrypt(key, &mut reader, &mut opened, &mut buf)?;
    Ok(opened.as_slice() == text)
}

// The bytes from 0 to 31, as Python's `base64` writes them.
#[test]
fn keys(rt: HostRuntime) {
    let file = b"seal-key-v1:AAECAwQFBgcICQoLDA0ODxAREhMUFRYXGBkaGxwdHh8=\r\n";
    assert!(rt; line_of(&COUNTING).starts_with(&file[..56]));
    assert!(rt;
        [key_of(file), key_of(&COUNTING), key_of(&file[1..])]
            == [Some(COUNTING), Some(COUNTING), None]
    );
    // By `base64` of GNU coreutils.
    let mut key = [0xff; 32];
    key[..3].copy_from_slice(&[0xfb, 0xef, 0xbe]);
    let file = b"seal-key-v1:++++//////////////////////////////////////8=\n";
    assert!(rt; (line_of(&key) == *file) & (key_of(file) == Some(key)));
}

#[test]
fn files(rt: HostRuntime) -> Result<(), Fail> {
    assert!(rt; in_memory(&rt, &COUNTING, b"attack at dawn")?);
    Ok(())
}

// The words of a seed of zeros are those of block 0 of RFC 8439, appendix A.1, number 1.
#[test]
fn generators(rt: HostRuntime) {
    let mut rng = ChaCha20Rng::from_seed([0; 32]);
    let word = rng.next_u32();
    rng.set_word_pos(0);
    let mut bytes = [0; 32];
    rng.fill_bytes(&mut bytes);
    assert!(rt; (word == 0xade0_b876) & (bytes == OF_ZEROS));
}

// By its contract alone, `Display` may fail.
#[test]
fn errors_are_printed(rt: HostRuntime) -> Result<(), Fail> {
    let messages = format!(in rt.alloc();
        "{}; {}; {}; {}",
        Error::TooLong,
        Error::WrongTag,
        secretstream::Error::TooLong,
        secretstream::Error::Forged
    )?;
    assert!(rt;
        messages.as_str()
            == "the message is too long; the tag is wrong; the message is too long; \
        not the next message of this stream"
    );
    let packets = format!(in rt.alloc();
        "{}; {}; {}; {}; {}; {}; {}",
        SendError::CountersUsedUp,
        SendError::TooLong,
        ReceiveError::TooShort,
        ReceiveError::OutputTooShort,
        ReceiveError::Replayed,
        ReceiveError::TooOld,
        ReceiveError::Forged
    )?;
    assert!(rt;
        packets.as_str()
            == "all counters are used; the text is too long; the packet is too short; \
        the output is too short; the packet comes again; the packet is too old; \
        not a packet under this key"
    );
    Ok(())
}
