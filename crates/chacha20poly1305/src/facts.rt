//! Facts that tie each AEAD to the keystream of the RFC or the draft.

ghost use Rattle.std.specs.Prelude.{◌≡◌};
ghost use Rattle.chacha20.specs.ChaCha.{chacha_stream, ietf};
ghost use Rattle.chacha20.specs.XChaCha.{xchacha_stream};

use crate::chacha_poly1305::KeyedStream;
// By the root's names, so that an export under another's name fails.
use crate::{
    ChaCha8Poly1305, ChaCha12Poly1305, ChaCha20Poly1305, XChaCha8Poly1305, XChaCha12Poly1305,
    XChaCha20Poly1305,
};

// The keystream of each. A named type with a wrong cipher would break one of these.
fn streams()
    ensures chacha20 { ⟦<ChaCha20Poly1305 as KeyedStream>⟧.stream ≡ chacha_stream 10 ietf }
    ensures xchacha20 { ⟦<XChaCha20Poly1305 as KeyedStream>⟧.stream ≡ xchacha_stream 10 }
    ensures chacha8 { ⟦<ChaCha8Poly1305 as KeyedStream>⟧.stream ≡ chacha_stream 4 ietf }
    ensures chacha12 { ⟦<ChaCha12Poly1305 as KeyedStream>⟧.stream ≡ chacha_stream 6 ietf }
    ensures xchacha8 { ⟦<XChaCha8Poly1305 as KeyedStream>⟧.stream ≡ xchacha_stream 4 }
    ensures xchacha12 { ⟦<XChaCha12Poly1305 as KeyedStream>⟧.stream ≡ xchacha_stream 6 }
{}
