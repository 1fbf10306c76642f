// The worked packets of the tests, and how a message goes through an assembly there.
ghost use Rattle.std.specs.Prelude.{◌≤◌};

use std::alloc::Global;
use std::process::Abort;
use std::test::*;
use vx_model::Line;
use vx_packet::{Assembly, Envelope, Message, Taken, can_spell, decode, encode, parts};

// The sites 1 and 0, on the line that site 0 began first.
pub const ENVELOPE: Envelope = Envelope {
    source: 1,
    target: 0,
    line: Line {
        generation: 1,
        origin: 0,
    },
};

// Hello of session 1, last received 0, stored 0.
pub const HELLO: [u8; 56] = [
    0x56, 0x58, 0x50, 0x4b, 1, 1, 0, 0, 0, 1, 0, 0, 0, 0, 0, 0, 0, 0, 0, 0, 0, 1, 0, 0, 0, 0, 0, 0,
    0, 0, 0, 0, 0, 1, 0, 0, 0, 0, 0, 0, 0, 0, 0, 0, 0, 1, 0, 8, 0, 0, 0, 0, 0, 0, 0, 0,
];

// The packet of a message's part, and how many bytes it has.
pub fn packet_of(rt: &impl Abort, m: &Message<'_>, part: u32) -> ([u8; 1072], usize)
    ensures { result.1 ≤ 1072 }
{
    assert!(rt; can_spell(m));
    assert!(rt; part < parts(m));
    let mut packet = [0; 1072];
    let len = encode(&ENVELOPE, m, part, &mut packet);
    (packet, len)
}

// What an assembly says to a packet, if the bytes are one.
pub fn taken(assembly: &mut Assembly, bytes: &[u8]) -> Option<Taken> {
    match decode(bytes) {
        Some(part) => Some(assembly.take(bytes, &part)),
        None => None,
    }
}

// The first packet of a message is written here from its session field on.
pub fn begins(rt: &impl Abort, m: &Message<'_>, kind: u8, wanted: &[u8]) {
    let (packet, _) = packet_of(rt, m, 0);
    assert!(rt; packet[..5] == HELLO[..5]);
    assert!(rt; packet[5] == kind);
    assert!(rt; packet[6..26] == HELLO[6..26]);
    assert!(rt; packet[26..].starts_with(wanted));
}

// A message that goes in so many parts comes through an assembly, its last part first and one of them twice.
pub fn comes_through(
    rt: &impl Abort,
    alloc: Global,
    m: &Message<'_>,
    count: u32,
) -> Result<(), Fail> {
    assert!(rt; parts(m) == count);
    let mut assembly = Assembly::new(alloc)?;
    for before in 1..count {
        let (packet, len) = packet_of(rt, m, count - before);
        assert!(rt; taken(&mut assembly, &packet[..len]) == Some(Taken::Kept));
        assert!(rt; taken(&mut assembly, &packet[..len]) == Some(Taken::Kept));
    }
    let (first, end) = packet_of(rt, m, 0);
    let part = decode(&first[..end]).expect(rt, "a packet");
    match assembly.take(&first[..end], &part) {
        Taken::Whole => {
            let message = assembly.message().expect(rt, "a message");
            let (again, len) = packet_of(rt, &message, 0);
            assert!(rt; again[..len] == first[..end]);
        }
        Taken::Kept | Taken::Bad => assert!(rt; false),
    }
    Ok(())
}

// A message of one part, from the session field on.
pub fn whole(
    rt: &impl Abort,
    alloc: Global,
    m: &Message<'_>,
    kind: u8,
    wanted: &[u8],
) -> Result<(), Fail> {
    begins(rt, m, kind, wanted);
    let (_, len) = packet_of(rt, m, 0);
    assert!(rt; len >= 26);
    assert!(rt; len - 26 == wanted.len());
    comes_through(rt, alloc, m, 1)
}
