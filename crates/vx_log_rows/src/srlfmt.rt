// What no clause says: the headers of a log and of its records by worked bytes, with digests by another program.
ghost use Rattle.std.specs.Prelude.{◌<◌, ◌≤◌, ◌^◌, length};
ghost use Rattle.vx_srlfmt.specs.Headers.{CanSpellHeader, CanSpellState};
ghost use Rattle.vx_srlfmt.specs.Records.{CanSpellHead};

use crate::log_blocks::{
    COPY_DIGEST, MOST, MOST_DIGEST, MOST_RECORD, MOST_RECORD_DIGEST, NEW, NEW_DIGEST, OUTSIDE,
    OUTSIDE_RECORD, RECORD, RECORD_DIGEST,
};
use std::test::*;
use vx_model::limits::MOST_NUMBER;
use vx_model::{KeptLink, KeptLinks, KeptMode, Line, Mark, Prot, Role, SPhase, State, SyncMode};
use vx_srlfmt::{Header, RecordHead, Seen, get_header, get_record, put_header, put_record};
use vx_wire::digest;

// These fields, zeros, and this digest.
fn block_of(fields: &[u8], digest: &[u8; 32]) -> [u8; 512]
    requires { length fields.now ≤ 480 }
{
    let mut block = [0; 512];
    block[..fields.len()].copy_from_slice(fields);
    block[480..].copy_from_slice(digest);
    block
}

// The block with this byte at a place below 512.
fn changed(block: [u8; 512], at: usize, byte: u8) -> [u8; 512] {
    let mut block = block;
    block[at % 512] = byte;
    block
}

fn new_header(stamp: u64) -> Header
    requires { stamp ≤ MOST_NUMBER }
    ensures { CanSpellHeader result }
{
    Header {
        stamp,
        state: State::first(0),
        incarnation: 1,
        floor: 0,
        run: 1,
        low: 1,
        place: 0,
        applied: 0,
    }
}

fn spelled(header: &Header) -> [u8; 512]
    requires { CanSpellHeader header.now }
{
    let mut block = [0xff; 512];
    put_header(header, &mut block);
    block
}

#[test]
fn a_new_log_has_two_headers(rt: HostRuntime) {
    // The copy has stamp 1 where the header has stamp 2.
    let mut copy = block_of(&NEW, &COPY_DIGEST);
    copy[15] = 1;
    assert!(rt; spelled(&new_header(2)) == block_of(&NEW, &NEW_DIGEST));
    assert!(rt; spelled(&new_header(1)) == copy);
    let found = get_header(&copy).expect(&rt, "the copy is a header");
    assert!(rt; found.stamp == 1);
    assert!(rt; found.state.line.generation == 1);
    assert!(rt; found.state.other == u32::MAX);
    assert!(rt; found.state.role == Role::Primary);
    assert!(rt; found.state.mark == Mark::Consistent);
    assert!(rt; found.state.links.as_slice().len() == 0);
}

fn most_state() -> State
    ensures { CanSpellState result }
{
    let line = Line {
        generation: MOST_NUMBER,
        origin: u32::MAX,
    };
    let link = KeptLink {
        site: u32::MAX,
        attached: true,
        bunker: true,
        mode: KeptMode::Stale,
        sync: SyncMode::Fail,
        prot: Prot::Autodcm,
        stored: MOST_NUMBER,
        start: MOST_NUMBER,
    };
    let mut links = KeptLinks::new();
    links.push(link);
    links.push(link);
    links.push(link);
    links.push(link);
    State {
        line,
        top: MOST_NUMBER,
        role: Role::Handing { to: u32::MAX },
        mark: Mark::Consistent,
        phase: SPhase::ForkKept,
        replay: MOST_NUMBER,
        end: MOST_NUMBER,
        other: u32::MAX,
        parent: line,
        fork: MOST_NUMBER,
        links,
    }
}

fn most_header() -> Header
    ensures { CanSpellHeader result }
{
    Header {
        stamp: MOST_NUMBER,
        state: most_state(),
        incarnation: MOST_NUMBER,
        floor: MOST_NUMBER,
        run: MOST_NUMBER,
        low: MOST_NUMBER,
        place: u32::MAX,
        applied: MOST_NUMBER,
    }
}

#[test]
fn each_field_has_a_greatest_value(rt: HostRuntime) {
    let block = block_of(&MOST, &MOST_DIGEST);
    assert!(rt; spelled(&most_header()) == block);
    let found = get_header(&block).expect(&rt, "the block is a header");
    assert!(rt; spelled(&found) == block);
    assert!(rt; found.state.role == Role::Handing { to: u32::MAX });
    for link in found.state.links.as_slice() {
        assert!(rt; link.mode == KeptMode::Stale);
    }
    for (at, byte, digest) in OUTSIDE {
        let outside = changed(block_of(&MOST, &digest), at, byte);
        assert!(rt; get_header(&outside).is_none(), "at {at}");
    }
}

fn one_block() -> RecordHead
    ensures { CanSpellHead result }
{
    let mut firsts = [0; 16];
    firsts[0] = 0x11;
    RecordHead {
        incarnation: 1,
        run: 1,
        line: Line {
            generation: 1,
            origin: 0,
        },
        number: 1,
        vol: 0,
        block: 0,
        count: 1,
        digest: digest(&[0x11; 512]),
        firsts,
    }
}

#[test]
fn a_record_of_one_block(rt: HostRuntime) {
    let head = one_block();
    let mut block = [0xff; 512];
    put_record(&head, &mut block);
    assert!(rt; block == block_of(&RECORD, &RECORD_DIGEST));
    assert!(rt; get_record(&block) == Seen::Record(head));
    for (at, byte, digest) in OUTSIDE_RECORD {
        let outside = changed(block_of(&RECORD, &digest), at, byte);
        assert!(rt; get_record(&outside) == Seen::Other, "at {at}");
    }
    let most = block_of(&MOST_RECORD, &MOST_RECORD_DIGEST);
    match get_record(&most) {
        Seen::Record(found) => {
            assert!(rt; found.number == MOST_NUMBER);
            assert!(rt; found.block == u64::MAX);
            assert!(rt; found.count == 16);
        }
        _ => assert!(rt; false, "the block is a record header"),
    }
}

#[test]
fn one_changed_byte_is_refused(rt: HostRuntime) {
    let header = block_of(&MOST, &MOST_DIGEST);
    let record = block_of(&RECORD, &RECORD_DIGEST);
    for at in 0..512 {
        let mut block = header;
        block[at] ^= 1;
        assert!(rt; get_header(&block).is_none(), "at {at}");
        block = record;
        block[at] ^= 1;
        match get_record(&block) {
            Seen::Record(_) => assert!(rt; false, "at {at}"),
            Seen::Damaged { .. } => assert!(rt; at >= 8, "at {at}"),
            Seen::Other => assert!(rt; at < 8, "at {at}"),
        }
    }
}

#[test]
fn a_body_block_is_neither(rt: HostRuntime) {
    let mut body = block_of(&RECORD, &RECORD_DIGEST);
    body[0] = 0x42;
    assert!(rt; get_record(&body) == Seen::Other);
    assert!(rt; get_header(&body).is_none());
}
