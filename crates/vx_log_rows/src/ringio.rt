// What no clause says: that each call succeeds on a shelf in memory, and that a body which passes the ring's end comes back.
ghost use Rattle.std.specs.Prelude.{◌≡◌, ◌≤◌, ◌<◌, true, drop};
ghost use Rattle.vx_ringio.specs.Classes.{is_of_ring};
ghost use Rattle.vx_srlfmt.specs.Headers.{CanSpellHeader};
ghost use Rattle.vx_srlfmt.specs.Records.{CanSpellHead};
ghost use Rattle.vx_wire.specs.Fields.{zero_bytes};

use std::alloc::Global;
use std::test::*;
use vx_disk::{MemShelf, Rack, Shelf, ShelfError};
use vx_model::limits::MOST_NUMBER;
use vx_model::{Line, OutOfMemory, State};
use vx_ringio::{
    Body, TopSeen, blank_ring, flush_ring, mask_body, read_body, read_front, read_top, unmask_body,
    write_body, write_front, write_header,
};
use vx_srlfmt::{Header, RecordHead, Seen};
use vx_wire::digest;

const RING: u64 = 6;

// A shelf in memory of one disk of 8 blocks.
fn fitted(alloc: Global) -> Result<MemShelf, OutOfMemory> {
    let mut shelf = MemShelf::new(alloc, &[])?;
    if shelf.fit(alloc, None, 0, 1, 8).is_err() {
        return Err(OutOfMemory);
    }
    Ok(shelf)
}

// A body of 3 blocks with different first bytes.
fn given() -> [u8; 1536] {
    let mut bytes = [7; 1536];
    bytes[512] = 8;
    bytes[1024] = 0x42;
    bytes
}

fn head(digest: [u8; 32], firsts: [u8; 16]) -> RecordHead
    ensures { drop 3 firsts ≡ zero_bytes 13 → CanSpellHead result }
{
    let line = Line {
        generation: 1,
        origin: 0,
    };
    RecordHead {
        incarnation: 1,
        run: 1,
        line,
        number: 1,
        vol: 0,
        block: 0,
        count: 3,
        digest,
        firsts,
    }
}

fn new_header(stamp: u64) -> Header
    requires some { 1 ≤ stamp }
    requires most { stamp ≤ MOST_NUMBER }
    ensures stamp { result.stamp ≡ stamp }
    ensures spell { CanSpellHeader result }
    ensures of_ring { is_of_ring 6 result ≡ true }
{
    Header {
        stamp,
        state: State::first(0),
        incarnation: 1,
        floor: 0,
        run: 1,
        low: 1,
        place: 0,
        applied: 0,
    }
}

// Whether the body comes back, written from a place on.
fn comes_back<S: Shelf>(shelf: &mut S, place: u64) -> Result<bool, ShelfError> {
    if shelf.units() == 0 || shelf.size(0) < RING + 2 {
        return Ok(false);
    }
    let mut bytes = given();
    let firsts = mask_body(&mut bytes);
    write_body(shelf, 0, RING, place, &bytes)?;
    let mut found = [0; 1536];
    read_body(shelf, 0, RING, place, &mut found)?;
    let body = unmask_body(&mut found, &head(digest(&given()), firsts));
    Ok(body == Body::Whole && found == given())
}

#[test]
fn a_body_comes_back(rt: HostRuntime) -> Result<(), Fail> {
    let mut shelf = fitted(rt.alloc())?;
    for place in [0, 3, 4, 5, 11] {
        assert!(rt; comes_back(&mut shelf, place) == Ok(true), "from {place}");
    }
    Ok(())
}

#[test]
fn a_body_of_another_digest_differs(rt: HostRuntime) {
    let mut bytes = given();
    let firsts = mask_body(&mut bytes);
    let body = unmask_body(&mut bytes, &head([1; 32], firsts));
    let (stored, computed) = ([1; 32], digest(&given()));
    assert!(rt; body == Body::Differs { stored, computed });
}

// The stamp of the header in block 0, after the ring was blanked, and after a header was written to it.
fn stamps<S: Shelf>(shelf: &mut S) -> Result<(u64, u64), ShelfError> {
    if shelf.units() == 0 || shelf.size(0) < RING + 2 {
        return Ok((9, 9));
    }
    blank_ring(shelf, 0, RING)?;
    let before = stamp_of(read_top(shelf, 0, RING, 0)?);
    write_header(shelf, 0, RING, &new_header(2))?;
    let after = stamp_of(read_top(shelf, 0, RING, 0)?);
    Ok((before, after))
}

fn stamp_of(seen: TopSeen) -> u64 {
    match seen {
        TopSeen::Valid(header) => header.stamp,
        TopSeen::Broken {
            stored: _,
            computed: _,
        } => 1,
        TopSeen::Other => 0,
    }
}

#[test]
fn a_header_stands_in_the_block_of_its_stamp(rt: HostRuntime) -> Result<(), Fail> {
    let mut shelf = fitted(rt.alloc())?;
    assert!(rt; stamps(&mut shelf) == Ok((0, 2)));
    Ok(())
}

fn some_front() -> RecordHead
    ensures { CanSpellHead result }
{
    head([1; 32], [0; 16])
}

fn put_front<S: Shelf>(shelf: &mut S, place: u64) -> Result<(), ShelfError> {
    if shelf.units() == 0 || shelf.size(0) < RING + 2 {
        return Ok(());
    }
    write_front(shelf, 0, RING, place, &some_front())
}

fn flush<S: Shelf>(shelf: &mut S) -> Result<(), ShelfError> {
    if shelf.units() == 0 {
        return Ok(());
    }
    flush_ring(shelf, 0)
}

fn is_front<S: Shelf>(shelf: &mut S, place: u64) -> Result<bool, ShelfError> {
    if shelf.units() == 0 || shelf.size(0) < RING + 2 {
        return Ok(false);
    }
    Ok(read_front(shelf, 0, RING, place)? == Seen::Record(some_front()))
}

#[test]
fn places_are_counted_on(rt: HostRuntime) -> Result<(), Fail> {
    let mut shelf = fitted(rt.alloc())?;
    put_front(&mut shelf, 10)?;
    flush(&mut shelf)?;
    for (place, want) in [(3, false), (4, true), (5, false), (16, true)] {
        assert!(rt; is_front(&mut shelf, place) == Ok(want), "at {place}");
    }
    Ok(())
}
