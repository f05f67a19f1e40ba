//! What cores and ciphers have in common.

ghost use Rattle.std.specs.Prelude.{◌≡◌, ℕ, List};

/// What hands out the blocks of a keystream: a core, or a cipher over one. It has no code, only what
/// clauses say of blocks.
pub trait Keystream {
    // All of it but its counter or its position.
    ghost fixed: { Self → List ℕ };

    // How many counters there are.
    ghost modulus: { ℕ };

    // The block of a fixed part at a counter.
    ghost block_at: { List ℕ → ℕ → List ℕ };

    // The position of the next byte, in bytes from the first one.
    ghost position: { Self → ℕ };

    // Where `new` starts. 0 for a cipher; a core may start anywhere.
    ghost first_position: { ℕ };
}

/// A core or a cipher that is made from a key and a nonce.
pub trait KeyIvInit: Keystream {
    /// The key's type.
    type Key;

    /// The nonce's type.
    type Iv;

    // The value of a key and a nonce, and the block that they define for each counter.
    ghost init: { Self.Key → Self.Iv → Self };

    ghost blocks_of: { Self.Key → Self.Iv → ℕ → List ℕ };

    /// The core or cipher of a key and a nonce. A cipher is at position 0: no byte is taken yet. A core may be at any
    /// block, since a cipher sets the counter of its core to 0. Nothing is refused.
    ///
    /// ```rust
    /// let mut cipher = ChaCha20::new(key, nonce);
    /// ```
    fn new(key: &Self::Key, iv: &Self::Iv) -> Self
        ensures value { result ≡ init key.now iv.now }
        ensures keystream { Self.block_at (Self.fixed result) ≡ blocks_of key.now iv.now }
        ensures first { Self.position result ≡ Self.first_position };
}
