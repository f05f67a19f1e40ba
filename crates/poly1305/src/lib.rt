//! Poly1305 (RFC 8439, section 2.5): the tag of a text under a key. A key serves one message.
//!
//! ```text
//! use poly1305::{Poly1305, authenticate, is_equal};
//!
//! let tag = authenticate(&key, text);
//!
//! let mut mac = Poly1305::new(&key);
//! mac.update(first);
//! mac.update(second);
//! let tag = mac.finish();
//!
//! let right = is_equal(&tag, &received);
//! ```
//!
//! Whoever sees the tags of two messages under one key can forge others. The AEAD takes each message's key from the
//! cipher's block 0 (section 2.6).
//!
//! Contracts say that a tag is exactly that of the RFC's definition, for each key and text, and however the text is cut
//! into pieces. No call fails, and only `update_padded` has a `requires`.
//!
//! Pieces of at least 512 bytes go through SIMD lanes, four blocks at a time. A block of a shorter piece takes 6
//! products, sums and shifts.
//!
//! What is only read: no branch and no index depends on the key, the text's bytes or a tag. In the source all depend on
//! lengths alone, and so do those of `new`, `update`, `finish` and `is_equal` in the machine code for x86-64, x86-64-v2
//! and x86-64-v3. Nothing is wiped: copies of the key stay in memory.
#![tactic(auto)]

mod accumulator;
mod bytes;
mod factors;
mod groups;
mod lanes;
mod mac;
mod multiplier;
mod tag;
mod vector;

pub use mac::{Poly1305, authenticate};
pub use tag::{Tag, is_equal};
