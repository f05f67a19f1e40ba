//! Packets: known values, and one that comes twice. The contract of `receive` says what each other packet comes to.

ghost use Rattle.std.specs.Prelude.{◌≡◌, OnOk, IfOk, IsTrue};

use known_answers::published::FROM_80;
use packets::{ReceiveError, Receiver, Sender, index_of};

const INDEX: u32 = 0x13121110;

// Made by libsodium 1.0.18: the packets of "hello" with the counters 0 to 2, and with one whose bytes all differ.
static KNOWN: [&[u8; 37]; 4] = [
    b"\x04\0\0\0\x10\x11\x12\x13\0\0\0\0\0\0\0\0\
        \x42\x39\x76\xc1\x51\xb3\x25\xbd\x4f\xd9\x47\x72\x8d\x1c\xad\x0a\x6d\xf2\x38\x5c\xd3",
    b"\x04\0\0\0\x10\x11\x12\x13\x01\0\0\0\0\0\0\0\
        \x8b\x74\x18\x61\x11\x35\x1a\x0a\xf3\x7d\xda\x37\xd3\x00\x93\xeb\x2b\x7f\xb5\xac\xd1",
    b"\x04\0\0\0\x10\x11\x12\x13\x02\0\0\0\0\0\0\0\
        \x2a\x14\x94\x0f\xa2\x42\x6e\xcc\x5d\x78\x9f\xb4\x90\xd8\x53\x8f\xd5\xb9\xa9\xfd\x1b",
    b"\x04\0\0\0\x10\x11\x12\x13@ABCDEFG\
        \x80\x7d\xc3\x51\x68\xda\xcc\xf6\x64\x9f\x9c\x50\x03\xd8\x8f\x78\xa9\x58\x7f\x6a\xa9",
];

// What a receiver makes of a packet: a length and a text.
fn receive(receiver: &mut Receiver, packet: &[u8]) -> Result<(usize, [u8; 5]), ReceiveError> {
    let mut text = [0; 5];
    let len = receiver.receive(packet, &mut text)?;
    Ok((len, text))
}

#[test]
fn known(rt: HostRuntime) {
    let mut sender = Sender::new(&FROM_80, INDEX);
    let mut receiver = Receiver::new(&FROM_80);
    for (i, known) in KNOWN.iter().enumerate() {
        let mut packet = [0; 37];
        let sent = sender.send(b"hello", &mut packet);
        assert!(rt; i == 3 || (sent.is_ok() & (packet == **known)));
        assert!(rt; receive(&mut receiver, *known) == Ok((5, *b"hello")));
        assert!(rt; index_of(*known) == Some(INDEX));
    }
    assert!(rt; sender.next() == 4);
}

// A packet that comes twice: where the first is taken, the second is refused and writes nothing.
fn twice(
    receiver: &mut Receiver,
    packet: &[u8],
    text: &mut [u8],
    copy: &mut [u8],
) -> Result<bool, ReceiveError>
    ensures refused { IfOk result (λ refused. IsTrue refused) }
    ensures copy { OnOk result (copy.new ≡ copy.old) }
{
    receiver.receive(packet, text)?;
    Ok(receiver.receive(packet, copy).is_err())
}
