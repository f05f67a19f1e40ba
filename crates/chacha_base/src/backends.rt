//! Backends: empty types whose functions make the blocks of a state, on words or on SIMD vectors.
//!
//! | backend | words in a vector of a parallel call | blocks in a parallel call | blocks in a generator's call |
//! |---|---|---|---|
//! | `Soft` | no vectors | 1 | 4, one by one |
//! | `Lanes4` | 4 | 4 | 4 |
//! | `Lanes8` | 8 | 4 | 4 |
//! | `Rows8` | 4 | 8 | 4 |
//! | `Columns8` | 8 | 8 | 4 |
//! | `Lanes16` | 16 | 16 | 4 |
//!
//! The number in a name counts the words of a vector (`Lanes4`, `Lanes8`, `Lanes16`), or blocks (`Rows8`, `Columns8`).

mod buffer;
mod columns;
mod columns8;
mod group;
mod kernel;
mod lanes16;
mod lanes4;
mod lanes8;
mod narrow;
mod rows;
mod rows8;
mod soft;
mod vector;

pub use columns8::Columns8;
pub use lanes4::Lanes4;
pub use lanes8::Lanes8;
pub use lanes16::Lanes16;
pub use rows8::Rows8;
pub use soft::Soft;
