//! The wrapper over a user's own core.

use super::stop_at_failure;
use chacha20::StreamCipherCoreWrapper;
use chacha20::cipher::{KeyIvInit, StreamCipherSeekCore};
use examples::own_core::Toy;
use known_answers::check::{Failure, check};
use known_answers::subjects::{Cases, run_text};
use known_answers::text::Case;

// Under the toy core of seed 7 byte p of the keystream is (7 + 100 * (p / 64) + p % 64) mod 256: the first block begins
// with 7, the second with 107, the third with 207 and the last with 163. A cipher takes 64 bytes of each of the 2^32
// blocks, and not one more; at the limit a core's counter is 0, as at the start.
static CASES: &str = "
By hand: a new cipher, into block 2
Toy key 07
pos u64 -> 0
room 2^38
room 2^38+1 -> refused
apply 00 -> 07
apply 00*63 -> 08..46
write 66 -> 6b..aa cf d0
room 2^38-130
room 2^38-129 -> refused

By hand: into the last block, and to the end
Toy key 07
seek usize 2^38-65
write 4 -> 7e a3 a4 a5
apply 00*61 -> a6..e2
pos usize -> 2^38
apply 00*0
apply 00 -> refused
seek usize 2^38+1 -> refused
pos u128 -> 2^38

By hand: three bytes where two are left, the last two, and the first one again
Toy key 07
seek usize 2^38-2
apply 00*3 -> refused
write 2 -> e1 e2
seek u32 0
write 1 -> 07
pos u32 -> 1
";

// Checks cases about the wrapper over `Toy`.
struct OverToy;

impl Cases for OverToy {
    fn check(case: &Case) -> Result<(), Failure> {
        check::<StreamCipherCoreWrapper<Toy>>(case)
    }
}

// A new core is at block 5, and a cipher over it begins at block 0.
#[test]
fn toy_calls(rt: HostRuntime) {
    assert!(rt; Toy::new(&7, &()).get_block_pos() == 5);
    stop_at_failure(&rt, "Toy", &run_text::<OverToy>(CASES));
}
