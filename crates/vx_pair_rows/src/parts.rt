// Worked packets, and what an assembly says to packets in another order.
ghost use Rattle.std.specs.Prelude.{◌<◌};

use crate::packets::{ENVELOPE, HELLO, packet_of, taken};
use std::test::*;
use vx_packet::{Assembly, Message, Part, RegionBytes, Taken, decode, parts};

#[test]
fn the_worked_hello(rt: HostRuntime) -> Result<(), Fail> {
    let hello = Message::Hello {
        session: 1,
        number: 0,
        stored: 0,
    };
    let (packet, len) = packet_of(&rt, &hello, 0);
    assert!(rt; packet[..len] == HELLO[..]);
    let part = Part {
        kind: 1,
        source: 1,
        target: 0,
        line: ENVELOPE.line,
        session: 1,
        number: 0,
        part: 0,
        parts: 1,
        start: 48,
        length: 8,
    };
    assert!(rt; decode(&HELLO) == Some(part));
    let mut assembly = Assembly::new(rt.alloc())?;
    assert!(rt; taken(&mut assembly, &HELLO) == Some(Taken::Whole));
    Ok(())
}

// The worked Hello with another byte at a place.
fn changed(at: usize, byte: u8) -> [u8; 56]
    requires { at < 56 }
{
    let mut packet = HELLO;
    packet[at] = byte;
    packet
}

#[test]
fn other_bytes_are_no_packet(rt: HostRuntime) {
    assert!(rt; decode(&HELLO[..55]) == None);
    // The magic, the version, a kind that is none, twice.
    assert!(rt; decode(&changed(0, 0x57)) == None);
    assert!(rt; decode(&changed(4, 2)) == None);
    assert!(rt; decode(&changed(5, 0)) == None);
    assert!(rt; decode(&changed(5, 13)) == None);
    // A generation and a session of 2^63, and a session where the kind has none.
    assert!(rt; decode(&changed(14, 0x80)) == None);
    assert!(rt; decode(&changed(26, 0x80)) == None);
    assert!(rt; decode(&changed(5, 2)) == None);
    // The part is equal to the parts, and there are no parts.
    assert!(rt; decode(&changed(43, 1)) == None);
    assert!(rt; decode(&changed(45, 0)) == None);
    // A byte behind the packet, and a part before the last with fewer than 1,024 bytes.
    let mut longer = [0; 57];
    longer[..56].copy_from_slice(&HELLO);
    assert!(rt; decode(&longer) == None);
    assert!(rt; decode(&changed(45, 2)) == None);
}

#[test]
fn a_part_has_at_most_1024_bytes(rt: HostRuntime) {
    let mut packet = [0; 1073];
    packet[..48].copy_from_slice(&HELLO[..48]);
    packet[46] = 4;
    packet[47] = 0;
    assert!(rt; decode(&packet[..1072]).is_some());
    packet[47] = 1;
    assert!(rt; decode(&packet) == None);
}

#[test]
fn a_fork_map_of_too_few_bytes_is_bad(rt: HostRuntime) -> Result<(), Fail> {
    // Kind 10, no session, the volume 0, one part, and 9 regions, of which the map has two bytes.
    let mut packet = [0; 59];
    packet[..56].copy_from_slice(&HELLO);
    packet[5] = 10;
    packet[33] = 0;
    packet[55] = 9;
    let mut assembly = Assembly::new(rt.alloc())?;
    packet[47] = 9;
    assert!(rt; taken(&mut assembly, &packet[..57]) == Some(Taken::Bad));
    packet[47] = 11;
    assert!(rt; taken(&mut assembly, &packet) == Some(Taken::Bad));
    packet[47] = 10;
    packet[57] = 1;
    assert!(rt; taken(&mut assembly, &packet[..58]) == Some(Taken::Whole));
    // A bit behind the last region.
    packet[57] = 2;
    assert!(rt; taken(&mut assembly, &packet[..58]) == Some(Taken::Bad));
    Ok(())
}

#[test]
fn another_message_takes_the_place(rt: HostRuntime) -> Result<(), Fail> {
    let (ones, twos) = ([1; 2048], [2; 2048]);
    let one = Message::Region {
        id: 6,
        vol: 1,
        region: 2,
        bytes: RegionBytes::new(&ones),
    };
    let other = Message::Region {
        id: 6,
        vol: 1,
        region: 3,
        bytes: RegionBytes::new(&twos),
    };
    let mut assembly = Assembly::new(rt.alloc())?;
    let (first, len) = packet_of(&rt, &one, 0);
    assert!(rt; taken(&mut assembly, &first[..len]) == Some(Taken::Kept));
    let (last, len) = packet_of(&rt, &other, 1);
    assert!(rt; taken(&mut assembly, &last[..len]) == Some(Taken::Kept));
    let (last, len) = packet_of(&rt, &one, 1);
    assert!(rt; taken(&mut assembly, &last[..len]) == Some(Taken::Kept));
    assert!(rt; taken(&mut assembly, &first[..len]) == Some(Taken::Whole));
    Ok(())
}

#[test]
fn more_parts_than_any_message(rt: HostRuntime) -> Result<(), Fail> {
    // A Region of 66 parts, each of 1,024 bytes.
    let mut packet = [0; 1072];
    packet[..48].copy_from_slice(&HELLO[..48]);
    packet[5] = 6;
    packet[45] = 66;
    packet[46] = 4;
    packet[47] = 0;
    let mut assembly = Assembly::new(rt.alloc())?;
    for part in 0..65 {
        packet[43] = part;
        assert!(rt; taken(&mut assembly, &packet) == Some(Taken::Kept));
    }
    packet[43] = 65;
    assert!(rt; taken(&mut assembly, &packet) == Some(Taken::Bad));
    Ok(())
}
