//! Cases without a number: published streams, runs of calls, and ends of streams. [`cases`](crate::cases) says how one
//! is written.

pub static MORE_CASES: &str = "
RFC 8439, 2.4.2: the message
ChaCha20 key 00..1f nonce 000000000000004a00000000
seek u32 64
apply \
    4c616469657320616e642047656e746c656d656e206f662074686520636c6173 \
    73206f66202739393a204966204920636f756c64206f6666657220796f75206f \
    6e6c79206f6e652074697020666f7220746865206675747572652c2073756e73 \
    637265656e20776f756c642062652069742e -> \
    6e2e359a2568f98041ba0728dd0d6981e97e7aec1d4360c20a27afccfd9fae0b \
    f91b65c5524733ab8f593dabcd62b3571639d624e65152ab8f530c359f0861d8 \
    07ca0dbf500d6a6156a38e088a22b65e52bc514d16ccf806818ce91ab7793736 \
    5af90bbf74a35be6b40b8eedf2785e42874d

The Rust crate's tests: the keystream from block 1 on
ChaCha20 key 00..1f nonce 000000000000004a00000000
apply 00*178 -> ..*64 \
    224f51f3401bd9e12fde276fb8631ded8c131f823d2c06e27e4fcaec9ef3cf78 \
    8a3b0aa372600a92b57974cded2b9334794cba40c63e34cdea212c4cf07d41b7 \
    69a6749f3f630f4122cafe28ec4dc47e26d4346d70b98c73f3e9c53ac40c5945 \
    398b6eda1a832c89c167eacd901d7e2bf363

draft-arciszewski-xchacha-03, A.3.2: the keystream from block 1 on
XChaCha20 key 80..9f nonce 404142434445464748494a4b4c4d4e4f5051525354555658
apply 00*368 -> ..*64 \
    29624b4b1b140ace53740e405b2168540fd7d630c1f536fecd722fc3cddba7f4 \
    cca98cf9e47e5e64d115450f9b125b54449ff76141ca620a1f9cfcab2a1a8a25 \
    5e766a5266b878846120ea64ad99aa479471e63befcbd37cd1c22a221fe46221 \
    5cf32c74895bf505863ccddd48f62916dc6521f1ec50a5ae08903aa259d9bf60 \
    7cd8026fba548604f1b6072d91bc91243a5b845f7fd171b02edc5a0a84cf28dd \
    241146bc376e3f48df5e7fee1d11048c190a3d3deb0feb64b42d9c6fdeee290f \
    a0e6ae2c26c0249ea8c181f7e2ffd100cbe5fd3c4f8271d62b15330cb8fdcf00 \
    b3df507ca8c924f7017b7e712d15a2eb5c50484451e54e1b4b995bd8fdd94597 \
    bb94d7af0b2c04df10ba0890899ed9293a0f55b8bafa999264035f1d4fbe7fe0 \
    aafa109a62372027e50e10cdfecca127

draft-strombergson-chacha-test-vectors, TC1, 256 bits, 8 rounds
ChaCha8 key 00*32 nonce 00*12
write 32 -> 3e00ef2f895f40d67f5bb8e81f09a5a12c840ec3ce9a7f3b181be188ef711a1e

draft-strombergson-chacha-test-vectors, TC1, 256 bits, 12 rounds
ChaCha12 key 00*32 nonce 00*12
write 32 -> 9bf49a6a0755f953811fce125f2683d50429c3bb49e074147e0089a52eae155f

RFC 8439, A.1, number 1
ChaCha20 key 00*32 nonce 00*12
seek u32 0
write 64 -> \
    76b8e0ada0f13d90405d6ae55386bd28bdd219b8a08ded1aa836efcc8b770dc7 \
    da41597c5157488d7724e03fb8d84a376a43b8f41518a11cc387b669b2ee6586

RFC 8439, A.1, number 2
ChaCha20 key 00*32 nonce 00*12
seek u32 64
write 64 -> \
    9f07e7be5551387a98ba977c732d080dcb0f29a048e3656912c6533e32ee7aed \
    29b721769ce64e43d57133b074d839d531ed1f28510afb45ace10a1f4b794d6f

RFC 8439, A.1, number 3
ChaCha20 key 00*31 01 nonce 00*12
seek u32 64
write 64 -> \
    3aeb5224ecf849929b9d828db1ced4dd832025e8018b8160b82284f3c949aa5a \
    8eca00bbb4a73bdad192b5c42f73f2fd4e273644c8b36125a64addeb006c13a0

RFC 8439, A.1, number 4
ChaCha20 key 00ff 00*30 nonce 00*12
seek u32 128
write 64 -> \
    72d54dfbf12ec44b362692df94137f328fea8da73990265ec1bbbea1ae9af0ca \
    13b25aa26cb4a648cb9b9d1be65b2c0924a66c54d545ec1b7374f4872e99f096

RFC 8439, A.1, number 5
ChaCha20 key 00*32 nonce 00*11 02
seek u32 0
write 64 -> \
    c2c64d378cd536374ae204b9ef933fcd1a8b2288b3dfa49672ab765b54ee27c7 \
    8a970e0e955c14f3a88e741b97c286f75f8fc299e8148362fa198a39531bed6d

By hand: the first block without rounds, and the front of the second
ChaCha0 key 00*32 nonce 00*12
apply 00*4 -> caf0e0c2
apply 00*60 -> dcc84066645ac4f2e8ca40d6 00*48
apply 00*4 -> caf0e0c2

By hand: a run of calls over the same bytes
ChaCha0 key 00*32 nonce 00*12
input 010203
data 00*4
apply 0..4 -> done | caf0e0c2
seek u128 0 -> done | caf0e0c2
b2b 0..3 into 0..3 -> done | cbf2e3c2
b2b 0..3 into 0..4 -> refused | cbf2e3c2
pos u128 -> 3 | cbf2e3c2
seek i32 -1 -> refused | cbf2e3c2
pos i32 -> 3 | cbf2e3c2
write 3..4 -> done | cbf2e3c2

By hand: invalid positions
ChaCha20 key 00..1f nonce 00*12
seek i32 -2147483648 -> refused
seek u128 0xffffffffffffffffffffffffffffffff -> refused
seek usize 2^64-1 -> refused
pos i32 -> 0
pos u128 -> 0
apply 00*0
write 0
b2b 00*0 into 00*0
pos u128 -> 0

By hand: the greatest position of 31 bits, and the one after it (the byte: OpenSSL)
ChaCha20 key 00..1f nonce 00*12
seek i32 2^31-1
pos i32 -> 2^31-1
write 1 -> 11
pos i32 -> overflow

By hand: the greatest position of 64 bits, and the one after it (the byte: OpenSSL)
ChaCha20Legacy key 01..20 nonce 0301040105090206
seek usize 2^64-1
pos u64 -> 2^64-1
apply 00 -> 47
pos u64 -> overflow
pos usize -> overflow
pos u128 -> 2^64

By hand: the end of a legacy cipher (its last byte: OpenSSL)
ChaCha20Legacy key 01..20 nonce 0301040105090206
room 2^64-1
seek u128 2^70-1
room 1
room 2 -> refused
room 2^64-1 -> refused
apply 00 -> 08
room 0
room 1 -> refused
seek u128 2^70
room 0
room 1 -> refused
seek u128 2^70+1 -> refused
pos u128 -> 2^70
pos u64 -> overflow
pos i32 -> overflow

By hand: the last sixteen bytes, none after them, and the first again
ChaCha0 key 00*32 nonce 00*12
seek u64 2^38-16
apply 00*17 -> refused
pos u128 -> 2^38-16
apply 00*16 -> feffffff 00*12
pos u128 -> 2^38
apply 00 -> refused
apply 00*0
seek u32 0
apply 00*4 -> caf0e0c2
pos u128 -> 4

By hand: into the last block
ChaCha0 key 00*32 nonce 00*12
seek u64 2^38-80
apply 00*17 -> fcffffff 00*12 ca
pos u128 -> 2^38-63

By hand: empty lists, and empty ranges at the end of the data, in block 0 and at the limit
ChaCha0 key 00*32 nonce 00*12
input 010203
data 05*4
no calls -> done | 05*4
apply 0..1 -> done | cf050505
no calls -> done | cf050505
apply 4..4 -> done | cf050505
write 4..4 -> done | cf050505
b2b 3..3 into 4..4 -> done | cf050505
write 1..2 -> done | cff00505
seek u64 2^38 -> done | cff00505
room 0 -> done | cff00505
room 1 -> refused | cff00505
seek u64 2^38+1 -> refused | cff00505
b2b 0..3 into 0..4 -> refused | cff00505
b2b 0..1 into 0..1 -> refused | cff00505
write 3..4 -> refused | cff00505
apply 4..4 -> done | cff00505
write 4..4 -> done | cff00505
b2b 0..0 into 0..0 -> done | cff00505
b2b 3..3 into 4..4 -> done | cff00505
no calls -> done | cff00505
pos u128 -> 2^38 | cff00505

By hand: how many blocks are left of 2^32
ChaCha0Core key 00*32 nonce 00*12
remaining_blocks -> 2^32
set_block_pos 2^32-1
remaining_blocks -> 1

By hand: how many blocks are left of 2^64
ChaCha0LegacyCore seed 00*32
remaining_blocks -> overflow
set_block_pos 1
remaining_blocks -> 2^64-1
set_block_pos 2^64-1
remaining_blocks -> 1

By hand: twenty blocks around the end of 32 bits
ChaCha0Core key 00*32 nonce 00*12
set_block_pos 2^32-3
write_keystream_blocks 20 -> \
    ..*48 faffffff 00*12 ..*112 feffffff 00*12 \
    ..*48 00*16 ..*1008 20000000 00*12
get_block_pos -> 17

By hand: twenty blocks around a carry
ChaCha0LegacyCore seed 00*32
set_block_pos 2^32-3
write_keystream_blocks 20 -> \
    ..*48 faffffff 00*12 ..*112 feffffff 00*12 \
    ..*48 00000000 02000000 00*8 ..*1008 20000000 02000000 00*8
get_block_pos -> 2^32+17

By hand: twenty blocks around the end of 64 bits
ChaCha0LegacyCore seed 00*32
set_block_pos 2^64-3
write_keystream_blocks 20 -> \
    ..*48 faffffff feffffff 00*8 ..*112 feffffff feffffff 00*8 \
    ..*48 00*16 ..*1008 20000000 00*12
get_block_pos -> 17

RFC 8439, A.1, number 1: the words of a generator
ChaCha20Rng seed 00*32
next_u32 -> 0xade0b876
next_u32 -> 0x903df1a0
next_u32 -> 0xe56a5d40
next_u32 -> 0x28bd8653
next_u32 -> 0xb819d2bd
next_u32 -> 0x1aed8da0
next_u32 -> 0xccef36a8
next_u32 -> 0xc70d778b
next_u32 -> 0x7c5941da
next_u32 -> 0x8d485751
next_u32 -> 0x3fe02477
next_u32 -> 0x374ad8b8
next_u32 -> 0xf4b8436a
next_u32 -> 0x1ca11815
next_u32 -> 0x69b687c3
next_u32 -> 0x8665eeb2

The Rust crate's tests: every 17th word
ChaCha20Rng seed 00*4 01 00*3 02 00*3 03 00*3 04 00*3 05 00*3 06 00*3 07 00*3
next_u32 -> 0xf225c81a
fill_bytes 64
next_u32 -> 0x6ab1be57
fill_bytes 64
next_u32 -> 0x04d42951
fill_bytes 64
next_u32 -> 0x70858036
fill_bytes 64
next_u32 -> 0x49884684
fill_bytes 64
next_u32 -> 0x64efec72
fill_bytes 64
next_u32 -> 0x4be2d186
fill_bytes 64
next_u32 -> 0x3615b384
fill_bytes 64
next_u32 -> 0x11cfa18e
fill_bytes 64
next_u32 -> 0xd3c50049
fill_bytes 64
next_u32 -> 0x75c775f6
fill_bytes 64
next_u32 -> 0x434c6530
fill_bytes 64
next_u32 -> 0x2c5bad8f
fill_bytes 64
next_u32 -> 0x898881dc
fill_bytes 64
next_u32 -> 0x5f1c86d9
fill_bytes 64
next_u32 -> 0xc1f8e7f4
fill_bytes 64

The Rust crate's tests: blocks around 2^32
ChaCha20Rng seed 00*32
set_block_pos 2^32-1
fill_bytes 192 -> \
    ace4cd09e294d1912d4ad205d06f95d9c2f2bfcf453e8753f128765b62215f4d \
    92c74f2f626c6a640c0b1284d839ec81f1696281dafc3e684593937023b58b1d \
    3db41d3aa0d329285de6f225e6e24bd59c9a17006943d5c9b680e3873bdc683a \
    5819469899989690c281cd17c96159af0682b5b903468a61f50228cf09622b5a \
    46f0f6efee15c8f1b198cb49d92b990867905159440cc723916dc00128269810 \
    39ce1766aa2542b05db3bd809ab142489d5dbfe1273e7399637b4b3213768aaa

OpenSSL: the first four blocks
ChaCha20Rng seed 00*32
fill_bytes 256 -> \
    76b8e0ada0f13d90405d6ae55386bd28bdd219b8a08ded1aa836efcc8b770dc7 \
    da41597c5157488d7724e03fb8d84a376a43b8f41518a11cc387b669b2ee6586 \
    9f07e7be5551387a98ba977c732d080dcb0f29a048e3656912c6533e32ee7aed \
    29b721769ce64e43d57133b074d839d531ed1f28510afb45ace10a1f4b794d6f \
    2d09a0e663266ce1ae7ed1081968a0758e718e997bd362c6b0c34634a9a0b35d \
    012737681f7b5d0f281e3afde458bc1e73d2d313c9cf94c05ff3716240a248f2 \
    1320a058d7b3566bd520daaa3ed2bf0ac5b8b120fb852773c3639734b45c91a4 \
    2dd4cb83f8840d2eedb158131062ac3f1f2cf8ff6dcd1856e86a1e6c3167167e
get_word_pos -> 64
get_block_pos -> 4

OpenSSL: four blocks after the last one
ChaCha20Rng seed 00*32
set_block_pos 2^64-1
fill_bytes 320 -> \
    d7918cd8620cf832532652c04c01a553092cfb32e7b3f2f5467ae9674a2e9eec \
    17368ec8027a357c0c51e6ea747121fec45284be0f099d2b3328845607b17689 \
    76b8e0ada0f13d90405d6ae55386bd28bdd219b8a08ded1aa836efcc8b770dc7 \
    da41597c5157488d7724e03fb8d84a376a43b8f41518a11cc387b669b2ee6586 \
    9f07e7be5551387a98ba977c732d080dcb0f29a048e3656912c6533e32ee7aed \
    29b721769ce64e43d57133b074d839d531ed1f28510afb45ace10a1f4b794d6f \
    2d09a0e663266ce1ae7ed1081968a0758e718e997bd362c6b0c34634a9a0b35d \
    012737681f7b5d0f281e3afde458bc1e73d2d313c9cf94c05ff3716240a248f2 \
    1320a058d7b3566bd520daaa3ed2bf0ac5b8b120fb852773c3639734b45c91a4 \
    2dd4cb83f8840d2eedb158131062ac3f1f2cf8ff6dcd1856e86a1e6c3167167e
get_word_pos -> 64
get_block_pos -> 4

By hand: reads without rounds
ChaCha0Rng seed 00*32
next_u32 -> 0xc2e0f0ca
next_u64 -> 0xf2c45a646640c8dc
fill_bytes 5 -> e8ca40d600
fill_bytes 0
next_u32 -> 0

By hand: a run of calls over the same bytes
ChaCha0Rng seed 00*32
data 00*5
set_stream 0x8000000100000003 -> done | 00*5
set_word_pos 2^68+14 -> done | 00*5
next_u64 -> 0x0000000200000006 | 00*5
get_word_pos -> 16 | 00*5
get_block_pos -> 1 | 00*5
fill_bytes 0..5 -> done | caf0e0c2dc
reload -> done | caf0e0c2dc
get_word_pos -> 18 | caf0e0c2dc
get_block_pos -> 1 | caf0e0c2dc
get_stream -> 0x8000000100000003 | caf0e0c2dc

By hand: the last words, and the first ones
ChaCha0Rng seed 00*32
set_stream 0x8000000100000003
set_word_pos 2^68-4
next_u64 -> 0xfffffffefffffffe
next_u64 -> 0x0000000200000006
get_word_pos -> 0
next_u32 -> 0xc2e0f0ca

By hand: five bytes over the end
ChaCha0Rng seed 00*32
set_stream 0x8000000100000003
set_word_pos 2^68-1
fill_bytes 5 -> 02000000 ca
get_word_pos -> 1
reload
next_u32 -> 0x6640c8dc
";
