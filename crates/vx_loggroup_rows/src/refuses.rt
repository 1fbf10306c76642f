// What the map of a plex has behind a write that was refused.
use crate::misses::{Call, Disks, MAPPED, Row, Told, group_of, held, is_active, is_lost};
use std::alloc::Global;
use std::test::*;
use vx_disk::{MemShelf, Rack, Shelf};
use vx_group::Group;
use vx_group_rows::Untold;
use vx_loggroup::LoggedGroup;

// The group that an import without logs gives.
fn brought(alloc: Global, disks: MemShelf) -> Option<Group<Disks>> {
    match Group::import(alloc, Untold { shelf: disks }) {
        Ok(group) => Some(group),
        Err(_) => None,
    }
}

// Whether the map is held as lost by the configuration that a crash of the group leaves.
fn lost_behind(alloc: Global, group: LoggedGroup<Disks>) -> Option<bool> {
    let (shelf, _rest) = group.apart();
    let mut disks = shelf.shelf;
    disks.crash(0);
    if disks.is_down() {
        disks.revive();
    }
    match brought(alloc, disks) {
        Some(group) => is_lost(group.config()),
        None => None,
    }
}

// A write is refused, as a call fails and the next one.
const REFUSED: &[Row] = &[
    (Call::Put(10, 0xaa), Told::Done),
    (Call::Put(70, 0xbb), Told::Refused),
];

// Behind such a write the second plex is detached, a block written that it misses, it is attached, and another one is written, as a later call fails.
// Where it falls out of use in that, by eight rows, an attach of it copies two regions.
const BEFORE: &[Row] = &[
    (Call::Put(10, 0xaa), Told::Done),
    (Call::Put(70, 0xbb), Told::Refused),
    (Call::Det(1), Told::Done),
    (Call::Put(10, 0xcc), Told::Done),
    (Call::Att(1), Told::Copied(2)),
    (Call::Active(1), Told::Is(true)),
    (Call::Put(200, 0xdd), Told::Done),
    (Call::Active(1), Told::Is(false)),
    (Call::Att(1), Told::Copied(2)),
];

// The same up to the attach, as the later call fails: the map was trusted before it, which is done, and is held as lost behind it.
const LOST_IN: &[Row] = &[
    (Call::Put(10, 0xaa), Told::Done),
    (Call::Put(70, 0xbb), Told::Refused),
    (Call::Det(1), Told::Done),
    (Call::Put(10, 0xcc), Told::Done),
    (Call::Lost, Told::Is(false)),
    (Call::Att(1), Told::Copied(2)),
    (Call::Lost, Told::Is(true)),
];

// An attach leaves the regions of refused writes alone, and a map that it loses is lost before the answer.
#[test]
fn an_attach_comes_behind_refused_writes(rt: HostRuntime) -> Result<(), Fail> {
    let alloc = rt.alloc();
    let mut left: u64 = 0;
    let mut lost: u64 = 0;
    for call in 105..115 {
        let next = call + 1;
        let mut group = group_of(alloc, &[call, next], &MAPPED)?;
        if held(&mut group, REFUSED) == 2 {
            for later in 150..180 {
                let mut group = group_of(alloc, &[call, next, later], &MAPPED)?;
                let count = held(&mut group, BEFORE);
                if count >= 8 {
                    left = left.wrapping_add(1);
                    assert!(rt; count == 9, "{call}, {later}");
                }
                let mut group = group_of(alloc, &[call, next, later], &MAPPED)?;
                if held(&mut group, LOST_IN) == 7 {
                    lost = lost.wrapping_add(1);
                    assert!(rt; is_active(group.config(), 1), "{call}, {later}");
                    assert!(rt; lost_behind(alloc, group) == Some(true), "{call}, {later}");
                }
            }
        }
    }
    assert!(rt; left > 0);
    assert!(rt; lost > 0);
    Ok(())
}
