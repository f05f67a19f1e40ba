//! The guide's program: dice by the toolchain's `rand`.

ghost use Rattle.std.specs.Prelude.{◌≤◌};

use chacha20::ChaCha20Rng;
use rand::RngExt;
use std::io;

fn main(rt: HostRuntime) -> io::Result<()> {
    let mut rng = ChaCha20Rng::from_seed([0; 32]);
    println!(rt; "{} {}", roll(&mut rng), roll(&mut rng))
}

fn roll(rng: &mut ChaCha20Rng) -> u8
    ensures { (1 ≤ result) × (result ≤ 6) }
{
    rng.random_range(1..=6)
}

// RFC 8439, A.1, number 1: a word w of the seed 0 gives w * 6 / 2^32 + 1.
#[test]
fn rolled(rt: HostRuntime) -> io::Result<()> {
    let mut rng = ChaCha20Rng::from_seed([0; 32]);
    let mut dice = [0; 8];
    for die in &mut dice {
        *die = roll(&mut rng);
    }
    assert!(rt; dice == [5, 4, 6, 1, 5, 1, 5, 5]);
    main(rt)
}
