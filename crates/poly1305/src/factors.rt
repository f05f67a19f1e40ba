//! The powers of r that multiply lanes.

ghost use Rattle.std.specs.Prelude.{ℕ, ◌<◌, ◌^◌};
ghost use Rattle.poly1305.specs.Lanes.{AreBelow};

use crate::lanes::Lanes;

// r^4 and r^8 in each lane, and the factors of the last group: r^4, r^2, r^3 and r, since lanes hold blocks 0, 2, 1, 3.
#[derive(Clone, Copy)]
pub struct Factors {
    pub fourth: Lanes,
    pub eighth: Lanes,
    pub last: Lanes,
    ghost fourth_small: { (k : ℕ) → k < 4 → AreBelow (2 ^ 27) fourth k },
    ghost eighth_small: { (k : ℕ) → k < 4 → AreBelow (2 ^ 27) eighth k },
    ghost last_small: { (k : ℕ) → k < 4 → AreBelow (2 ^ 27) last k },
}
