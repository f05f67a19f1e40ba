//! The cases with a number, sorted by it. They run on each backend in `tests`, and in the program `vectors`, which
//! prints `row N ok` if every case N holds. There is no case 2.
//!
//! A case is a paragraph. Its first line is the title: where the answers come from, and what the case shows. What
//! stands in parentheses, as `(block 0: OpenSSL)`, is the source of some bytes alone. `By hand` means by the
//! definition, without a program. The Rust crate is `chacha20` 0.10.2. The second line is the subject. Each line after
//! it is a call, with its answer after `->`; a call without one must succeed. A line that ends with `\` continues on
//! the next. To add a case, add a paragraph anywhere in [`more_cases`](crate::more_cases); no other file changes. A
//! case with a number, below 32, stands here, and its `row N ok` in the file `stdout` of `vectors`.
//!
//! | subject | made of |
//! |---|---|
//! | `ChaCha20`, `ChaCha12`, `ChaCha8` | `key K nonce N`, of 32 and 12 bytes |
//! | `ChaCha0`: no rounds, so each word of a block is twice that of its start state | the same |
//! | `ChaCha20Legacy`, `XChaCha20` | the same, with a nonce of 8 and of 24 bytes |
//! | the core `ChaCha0Core` | `key K nonce N`, of 32 and 12 bytes |
//! | the core `ChaCha0LegacyCore`, with a nonce of zeros | `seed S`, of 32 bytes |
//! | the generators `ChaCha20Rng`, `ChaCha12Rng`, `ChaCha8Rng`, `ChaCha0Rng` | `seed S`, or `state S` as stored |
//! | `hchacha`; its only line is `subkey -> S` | `key K nonce N`, of 32 and 16 bytes |
//!
//! | line of a cipher | call | answer |
//! |---|---|---|
//! | `apply 00*64` | `apply_keystream` on 64 zeros | accepted |
//! | `apply 4c61 -> 6e2e` | the same on 4c 61 | they become 6e 2e |
//! | `write 32 -> deeb ..*30` | `write_keystream` of 32 bytes | they begin with de eb |
//! | `b2b 0102 into 09*3 -> refused` | `apply_keystream_b2b` of two bytes into three | refused: nothing changes |
//! | `room 64` | `check_remaining(64)`: whether 64 bytes are left | accepted |
//! | `seek i32 -1 -> refused` | `seek(-1i32)` | refused |
//! | `pos u128 -> 2^70` | `current_pos::<u128>()` | 2^70 |
//! | `pos u64 -> overflow` | the same in 64 bits | the type can't represent it |
//!
//! Positions count bytes, in an `i32`, `u32`, `u64`, `u128` or `usize` (of 64 bits). Each line is checked on three
//! ciphers: one is called by the `try_` forms; one by the forms without `try_`, unless these would panic; and on a new
//! one `run_cipher` makes all calls so far, as one list. A call may change only its line's bytes, and a call that is
//! refused changes nothing.
//!
//! A line of a generator is one of its functions, such as `fill_bytes 5 -> e8ca40d600`, or `100 times next_u32`. Each
//! is checked on four generators: one is called by its own functions; one is read through `Rng`, one through `TryRng`;
//! and on a new one `run_rng` makes all calls so far. `reload` stores the state and loads it again: the seed, the
//! stream in eight bytes, and the word position in nine, little-endian. Word positions are modulo 2^68, and
//! `set_stream` moves to position 0.
//!
//! Beside each generator stands a second one, made of the same seed or state. `second set_word_pos 1` is a call on it,
//! `second seed S` and `second state S` make it anew, `second seed drawn` of the 32 bytes that the last fill wrote, and
//! `equals second -> true` compares the two by `==`.
//!
//! Calls can share bytes. Then the lines `input 010203`, which `b2b` reads, and `data 00*4` stand below the subject.
//! `run_cipher` and `run_rng` get these slices, and each line names ranges in them: `apply 0..3` changes the first
//! three bytes of the data, and `b2b 0..3 into 1..4` goes from the input to the last three. After its answer, a line
//! has the whole data after the call: `-> done | caf0e000`, `-> refused | 00*4`, `-> 3 | caf0e000`. `no calls` is
//! `run_cipher` or `run_rng` on an empty list.
//!
//! A line of a core is one of its functions, on blocks. Another core must make the same by applying to zeros.
//! `remaining_blocks -> overflow` stands for `None`.
//!
//! Bytes are pairs of hexadecimal digits with spaces anywhere between pairs; `00*12` is twelve times 00, `00..1f` all
//! from 00 to 1f, and `..*12` any twelve bytes. A number is decimal, `0x` and hexadecimal digits, or as `2^68`,
//! `2^68-1`, `2^68+5`. OpenSSL's answers are those of `openssl enc -chacha20 -K KEY -iv C`. C is the number of the
//! block, little-endian in 4 bytes (8 for the legacy cipher and generators), and then the nonce or the stream. For
//! XChaCha20, KEY is the subkey, and the nonce is four zeros and the last eight bytes of the cipher's.

pub static CASES: &str = "
case 1. OpenSSL: a message there, back, and there in pieces of 3
ChaCha20 key 42*32 nonce 24*12
apply 00..0f -> e405626e4f1236b3670ee428332ea20e
seek u32 0
apply e405626e4f1236b3670ee428332ea20e -> 00..0f
seek u32 0
apply 000102 -> e40562
apply 030405 -> 6e4f12
apply 060708 -> 36b367
apply 090a0b -> 0ee428
apply 0c0d0e -> 332ea2
apply 0f -> 0e

case 3. draft-irtf-cfrg-xchacha, 2.2.1: a subkey
hchacha key 00..1f nonce 000000090000004a0000000031415927
subkey -> 82413b4227b27bfed30e42508a877d73a0f9e4d58a74a853c12ec41326d3ecdc

case 4. RFC 8439, 2.4.2: a message from block 1 on (block 0: OpenSSL)
ChaCha20 key 00..1f nonce 000000000000004a00000000
apply 00*64 -> \
    af051e40bba0354981329a806a140eafd258a22a6dcb4bb9f6569cb3efe2deaf \
    837bd87ca20b5ba12081a306af0eb35c41a239d20dfc74c81771560d9c9c1e4b
apply 4c616469657320616e642047656e746c -> 6e2e359a2568f98041ba0728dd0d6981

case 5. draft-arciszewski-xchacha-03, A.3.2: the keystream from block 1 on (block 0: OpenSSL)
XChaCha20 key 80..9f nonce 404142434445464748494a4b4c4d4e4f5051525354555658
write 64 -> \
    1131ce9a2a20ae0d67c8935c7789fa1025c9e5bb720fb96f11354fb97af0bd9a \
    adec0863ba60cac8582c48f86cdfc48edd46a48642c5de62ccf11c7b21bf337d
write 32 -> 29624b4b1b140ace53740e405b2168540fd7d630c1f536fecd722fc3cddba7f4

case 6. OpenSSL: the keystream, and a seek into a block
ChaCha20Legacy key 01..20 nonce 0301040105090206
write 32 -> deeb6b9d06dff3e091bf3ad4f4d492b6dd98246f69691802e466e03bad235787
seek u64 17
write 3 -> 98246f
write 0
pos u64 -> 20

case 7. OpenSSL: fills that lose bytes of a word
ChaCha20Rng seed 01..20
fill_bytes 13 -> b1697e9fc6461e1983d131cf69
get_word_pos -> 4
fill_bytes 13 -> a7a3fc134f149880e8bb2b5d23
get_word_pos -> 8

case 8. RFC 8439, A.1, number 4: how far each read moves (from word 48 on: OpenSSL)
ChaCha20Rng seed 00 ff 00*30
set_word_pos 32
next_u32 -> 0xfb4dd572
next_u32 -> 0x4bc42ef1
next_u32 -> 0xdf922636
next_u32 -> 0x327f1394
next_u32 -> 0xa78dea8f
next_u32 -> 0x5e269039
next_u32 -> 0xa1bebbc1
next_u32 -> 0xcaf09aae
next_u32 -> 0xa25ab213
next_u32 -> 0x48a6b46c
next_u32 -> 0x1b9d9bcb
next_u32 -> 0x092c5be6
next_u32 -> 0x546ca624
next_u32 -> 0x1bec45d5
next_u32 -> 0x87f47473
next_u32 -> 0x96f0992e
get_word_pos -> 48
fill_bytes 32 -> bf74dbd52cc4fc95ceb6097fe5e65358c9dbc0a5ecbf7894a132a9a54ae3e951
get_word_pos -> 56
fill_bytes 25 -> f2e9f209aa9c3d9a877ac9dab62433d2961a17d103e455dfb7
get_word_pos -> 63
next_u64 -> 0x95653023ad7a85f6
get_word_pos -> 65
next_u32 -> 0x5c2b215a
next_u64 -> 0xe529a6c84dab8e7a
get_word_pos -> 68
fill_bytes 1 -> b6
get_word_pos -> 69

case 9. OpenSSL: the last block, and then the first
ChaCha20Rng seed 00*32
set_block_pos 2^64-1
fill_bytes 64 -> \
    d7918cd8620cf832532652c04c01a553092cfb32e7b3f2f5467ae9674a2e9eec \
    17368ec8027a357c0c51e6ea747121fec45284be0f099d2b3328845607b17689
get_block_pos -> 0
fill_bytes 8 -> 76b8e0ada0f13d90

case 10. OpenSSL: a carry into the upper 32 bits of the block's number
ChaCha20Rng seed 00*32
set_block_pos 2^32-1
fill_bytes 80 -> ace4cd09e294d1912d4ad205d06f95d9 ..*48 3db41d3aa0d329285de6f225e6e24bd5

case 11. By hand: the last block can be used, and a refused seek leaves the position (the byte: OpenSSL)
ChaCha20 key 00..1f nonce 000000000000004a00000000
seek u64 2^38-64
apply 00*0
apply 07 -> 6a
pos u64 -> 2^38-63
seek u64 2^38-63
seek i32 -1 -> refused
pos u64 -> 2^38-63

case 12. By hand: a position of more than 64 bits
ChaCha20Legacy key 01..20 nonce 0301040105090206
seek u128 2^70-64
pos u64 -> overflow
pos u128 -> 2^70-64

case 12. By hand: a position of more than 31 bits
ChaCha20 key 00..1f nonce 00*12
seek u32 2^31
pos i32 -> overflow
pos u32 -> 2^31

case 13. By hand: a counter of 32 bits wraps
ChaCha0Core key 00*32 nonce 00*12
write_keystream_block -> caf0e0c2dcc84066645ac4f2e8ca40d6 00*48
set_block_pos 2^32-1
write_keystream_blocks 2 -> \
    caf0e0c2dcc84066645ac4f2e8ca40d6 00*32 feffffff 00*12 \
    caf0e0c2dcc84066645ac4f2e8ca40d6 00*48
get_block_pos -> 1

case 13. By hand: a counter of 64 bits carries
ChaCha0LegacyCore seed 00*32
write_keystream_block -> caf0e0c2dcc84066645ac4f2e8ca40d6 00*48
set_block_pos 2^32-1
write_keystream_blocks 2 -> \
    caf0e0c2dcc84066645ac4f2e8ca40d6 00*32 feffffff 00*12 \
    caf0e0c2dcc84066645ac4f2e8ca40d6 00*32 00000000 02000000 00*8
get_block_pos -> 2^32+1

case 14. By hand: a stored state, with 8 rounds
ChaCha8Rng seed 01..20
set_stream 0xf0f1f2f3f4f5f6f7
100 times next_u32
serialize_state -> 01..20 f7f6f5f4f3f2f1f0 64 00*8

case 14. By hand: a stored state, with 12 rounds
ChaCha12Rng seed 01..20
set_stream 0xf0f1f2f3f4f5f6f7
100 times next_u32
serialize_state -> 01..20 f7f6f5f4f3f2f1f0 64 00*8

case 14. By hand: a stored state, with 20 rounds
ChaCha20Rng seed 01..20
set_stream 0xf0f1f2f3f4f5f6f7
100 times next_u32
serialize_state -> 01..20 f7f6f5f4f3f2f1f0 64 00*8

case 15. By hand: the last position, and positions past it
ChaCha20Rng state ff*49
get_word_pos -> 2^68-1
serialize_state -> ff*48 0f
second state ff*48 0f
equals second -> true
set_word_pos 2^68+5
get_word_pos -> 5
set_word_pos 2^68-16
get_word_pos -> 2^68-16

case 16. By hand: slices of different lengths
ChaCha20 key 00..1f nonce 000000000000004a00000000
b2b 050607 into 09*4 -> refused
pos u128 -> 0

case 17. The Rust crate's tests: a generator that seeds another (the bytes: OpenSSL)
ChaCha20Rng seed 00*8 01 00*7 02 00*7 03 00*7
next_u32 -> 137206642
fill_bytes 32 -> 2e12f77bfc962da408558f75b94e1f34b96db5f153c5de77eb1ab13d909a1bf1
second seed drawn
second next_u32 -> 1325750369
get_word_pos -> 9

case 18. By hand: the last byte, and none after it (the byte: OpenSSL)
ChaCha20 key 00..1f nonce 000000000000004a00000000
pos u64 -> 0
seek u64 2^38-1
apply 00 -> 75
pos u64 -> 2^38
apply 00 -> refused

case 19. RFC 8439, 2.3.2: a stream and a block (the block before it: OpenSSL)
ChaCha20Rng seed 00..1f
set_stream 0x000000004a000000
set_block_pos 0x0900000000000000
fill_bytes 64 -> \
    8adc91fd9ff4f0f51b0fad50ff15d637e40efda206cc52c783a74200503c1582 \
    cd9833367d0a54d57d3c9e998f490ee69ca34c1ff9e939a75584c52d690a35d4
next_u32 -> 0xe4e7f110
next_u32 -> 0x15593bd1
next_u32 -> 0x1fdd0f50
next_u32 -> 0xc47120a3
get_block_pos -> 0x0900000000000001

case 20. OpenSSL: two words around the wrap
ChaCha20Rng seed 00*32
set_word_pos 2^68-64
fill_bytes 252 -> 511e406405b4d634e470f421d32734bf ..*224 c45284be0f099d2b33288456
next_u64 -> 0xade0b8768976b107
get_word_pos -> 1

case 21. RFC 8439, A.1, numbers 1 and 5: another stream
ChaCha20Rng seed 00*32
next_u32 -> 0xade0b876
next_u32 -> 0x903df1a0
next_u32 -> 0xe56a5d40
next_u32 -> 0x28bd8653
next_u32 -> 0xb819d2bd
set_stream 0x0200000000000000
get_word_pos -> 0
get_seed -> 00*32
next_u32 -> 0x374dc6c2

case 22. By hand: how much room a new cipher has
ChaCha20 key 00..1f nonce 000000000000004a00000000
room 2^38-64
room 2^38-63
room 2^38+1 -> refused

case 22. By hand: a new legacy cipher has room for any length
ChaCha20Legacy key 01..20 nonce 0301040105090206
room 2^64-1

case 23. By hand: generators are equal where seed, stream and position are
ChaCha20Rng seed 01..20
7 times next_u32
set_word_pos 0
equals second -> true
next_u32
second set_word_pos 1
equals second -> true
second set_stream 1
equals second -> false

case 23. By hand: generators that differ in one part only
ChaCha20Rng seed 01..20
next_u32
equals second -> false
second set_word_pos 2^67+1
equals second -> false
second set_stream 2^63
second set_word_pos 1
equals second -> false
second seed 01..1f 21
second set_word_pos 1
equals second -> false
";
