// Groups that are imported over a shelf in memory behind crashes and deports, with each device call of an import failing or cut in turn.
use crate::rows::{Call, Case, NONE, OFF, ON, Row, Trouble, went};
use crate::volumes::{Told, told_of};
use std::alloc::Global;
use std::test::*;
use vx_config::Config;
use vx_disk::{MemShelf, Rack, Shelf};
use vx_group::Group;
use vx_model::OutOfMemory;
use vx_model::limits::{LEAST_BLOCKS, MOST_DISKS};
use vx_untold::Untold;

pub type Disks = Untold<MemShelf>;

pub fn failed_disk(config: &Config) -> Option<usize> {
    let disks = config.disks.as_slice();
    for k in 0..disks.len() {
        if disks[k].failed {
            return Some(k);
        }
    }
    None
}

/// So many disks of so many blocks, of which these calls fail.
pub fn disks_of(
    alloc: Global,
    fails: &[u64],
    disks: u32,
    blocks: u64,
) -> Result<Disks, OutOfMemory> {
    let mut shelf = match MemShelf::new(alloc, fails) {
        Ok(shelf) => shelf,
        Err(_) => return Err(OutOfMemory),
    };
    if disks == 0 || blocks < LEAST_BLOCKS || shelf.fit(alloc, None, 7, disks, blocks).is_err() {
        return Err(OutOfMemory);
    }
    Ok(Untold { shelf })
}

/// A group on them.
pub fn group_on(alloc: Global, shelf: Disks) -> Result<Group<Disks>, OutOfMemory> {
    if shelf.units() == 0 || shelf.units() > MOST_DISKS {
        return Err(OutOfMemory);
    }
    match Group::create(alloc, shelf, 7) {
        Ok(group) => Ok(group),
        Err(_) => Err(OutOfMemory),
    }
}

fn revived(disks: MemShelf) -> Disks {
    let mut disks = disks;
    if disks.is_down() {
        disks.revive();
    }
    Untold { shelf: disks }
}

/// The disks behind a crash.
pub fn crashed(group: Group<Disks>, pick: u64) -> Disks {
    let (shelf, _core) = group.apart();
    let mut disks = shelf.shelf;
    disks.crash(pick);
    revived(disks)
}

/// The disks with one of them made to fail, or working again.
pub fn fail(shelf: Disks, disk: u32, on: bool) -> Disks {
    let mut disks = shelf.shelf;
    if disk < disks.units() {
        disks.fail(disk, on);
    }
    Untold { shelf: disks }
}

/// The group that an import gives, and its answer; where it is refused, what one more import gives, before which this disk works again.
pub fn brought(alloc: Global, shelf: Disks, disk: u32) -> (Option<Group<Disks>>, Told) {
    match Group::import(alloc, shelf) {
        Ok(group) => (Some(group), Told::Done),
        Err((shelf, stop)) => (
            again(alloc, fail(revived(shelf.shelf), disk, false)),
            told_of(stop),
        ),
    }
}

// The group that an import gives, where it gives one.
fn again(alloc: Global, shelf: Disks) -> Option<Group<Disks>> {
    match Group::import(alloc, shelf) {
        Ok(group) => Some(group),
        Err(_) => None,
    }
}

// A volume of 16 blocks on two disks. A crash keeps a write on the first plex alone; so far the disks have had 40 calls, of which 32 were
// writes and flushes.
const TORN: &[Row] = &[
    (Call::Make(b"v", 16, 2), Told::Volume(0)),
    (Call::Put(0, 3, 0x11), Told::Done),
];

const BROUGHT: &[Row] = &[(Call::Crash(1), Told::Done)];

// Both plexes are ACTIVE, and no disk is held as failed.
const WHOLE: &[Row] = &[
    (Call::State(0, 0), ON),
    (Call::State(0, 1), ON),
    (Call::Failed, Told::Failed(None)),
];

// The second plex is STALE.
const SECOND_STALE: &[Row] = &[
    (Call::State(0, 0), ON),
    (Call::State(0, 1), OFF),
    (Call::Failed, Told::Failed(None)),
];

const FIRST_FAILED: &[Row] = &[
    (Call::State(0, 0), ON),
    (Call::State(0, 1), ON),
    (Call::Failed, Told::Failed(Some(0))),
];

const SECOND_FAILED: &[Row] = &[
    (Call::State(0, 0), ON),
    (Call::State(0, 1), ON),
    (Call::Failed, Told::Failed(Some(1))),
];

// Behind a crash that keeps what was written an import is done, and two reads give the block.
const AGAIN: &[Row] = &[
    (Call::Crash(u64::MAX), Told::Done),
    (Call::Get(0, 3), Told::Block(0x11)),
    (Call::Get(0, 3), Told::Block(0x11)),
];

// The import behind one that was refused is done, and two reads give the block.
const READ: &[Row] = &[
    (Call::Get(0, 3), Told::Block(0x11)),
    (Call::Get(0, 3), Told::Block(0x11)),
];

pub const CASES: &[Case] = &[
    // Five calls read each disk, and five write its headers back. The first plex is read, both are written and flushed, and a commit has six
    // calls on each disk.
    (
        "the write to the second plex fails",
        2,
        Trouble::Fails(&[&[40]]),
        &[TORN, BROUGHT, SECOND_STALE, AGAIN],
        &[],
    ),
    (
        "an import is refused that cannot read the first disk",
        2,
        Trouble::Fails(&[&[41], &[45]]),
        &[TORN, &[(Call::Crash(1), Told::Missing(0))], READ],
        &[],
    ),
    (
        "an import is refused that cannot read the second disk",
        2,
        Trouble::Fails(&[&[46], &[50]]),
        &[TORN, &[(Call::Crash(1), Told::Missing(1))], READ],
        &[],
    ),
    (
        "an import holds the first disk as failed that fails in the writing of headers",
        2,
        Trouble::Fails(&[&[51], &[55]]),
        &[TORN, BROUGHT, FIRST_FAILED, AGAIN],
        &[],
    ),
    (
        "an import holds the second disk as failed that fails in the writing of headers",
        2,
        Trouble::Fails(&[&[56], &[60]]),
        &[TORN, BROUGHT, SECOND_FAILED, AGAIN],
        &[],
    ),
    (
        "an import is refused that cannot read or write the first plex",
        2,
        Trouble::Fails(&[&[61], &[62]]),
        &[TORN, &[(Call::Crash(1), Told::Device(0))], READ],
        &[],
    ),
    (
        "an import holds a plex as STALE that fails in the copy: the second one",
        2,
        Trouble::Fails(&[&[63], &[65]]),
        &[TORN, BROUGHT, SECOND_STALE, AGAIN],
        &[],
    ),
    (
        "an import holds a plex as STALE that fails in the copy: the first one",
        2,
        Trouble::Fails(&[&[64]]),
        &[
            TORN,
            BROUGHT,
            &[
                (Call::State(0, 0), OFF),
                (Call::State(0, 1), ON),
                (Call::Failed, Told::Failed(None)),
            ],
            AGAIN,
        ],
        &[],
    ),
    (
        "an import holds the first disk as failed that fails in the commit",
        2,
        Trouble::Fails(&[&[66], &[71]]),
        &[TORN, BROUGHT, FIRST_FAILED, AGAIN],
        &[],
    ),
    (
        "an import holds the second disk as failed that fails in the commit",
        2,
        Trouble::Fails(&[&[72], &[77]]),
        &[TORN, BROUGHT, SECOND_FAILED, AGAIN],
        &[],
    ),
    (
        "a group behind a crash",
        2,
        NONE,
        &[
            &[
                (Call::Make(b"log1", 64, 2), Told::Volume(0)),
                (Call::Make(b"maps", 8, 2), Told::Volume(1)),
                (Call::Make(b"v", 256, 2), Told::Volume(2)),
                (Call::Put(2, 0, 0x11), Told::Done),
                (Call::Flush(2), Told::Done),
                (Call::Crash(0), Told::Done),
            ],
            WHOLE,
            &[
                (Call::Crash(u64::MAX), Told::Done),
                (Call::State(1, 0), ON),
                (Call::State(1, 1), ON),
                (Call::Failed, Told::Failed(None)),
                (Call::Crash(u64::MAX), Told::Done),
                (Call::State(2, 0), ON),
                (Call::State(2, 1), ON),
                (Call::Failed, Told::Failed(None)),
                (Call::Crash(u64::MAX), Told::Done),
                (Call::Get(2, 0), Told::Block(0x11)),
                (Call::Get(2, 0), Told::Block(0x11)),
            ],
        ],
        &[],
    ),
    // Call 87 is the write to the second plex.
    (
        "a group behind a deport",
        3,
        Trouble::Fails(&[&[87]]),
        &[
            &[
                (Call::Make(b"v", 256, 2), Told::Volume(0)),
                (Call::Put(0, 70, 0xbb), Told::Done),
                (Call::Deport, Told::Done),
            ],
            SECOND_STALE,
            &[
                (Call::Crash(u64::MAX), Told::Done),
                (Call::Get(0, 70), Told::Block(0xbb)),
                (Call::Get(0, 70), Told::Block(0xbb)),
            ],
        ],
        &[],
    ),
    // Of the calls above 18 are writes and flushes.
    (
        "an import is cut behind its last write, and what was written is lost",
        2,
        NONE,
        &[TORN, &[(Call::Cut(1, 18, 0), Told::Done)], WHOLE, AGAIN],
        &[],
    ),
    (
        "an import is cut behind its last write, and what was written is kept",
        2,
        NONE,
        &[
            TORN,
            &[(Call::Cut(1, 18, u64::MAX), Told::Done)],
            WHOLE,
            AGAIN,
        ],
        &[],
    ),
    // Behind a new group and a volume of 64 blocks, which have 36 writes and flushes, the commit comes to the first disk.
    (
        "a detach that was cut",
        2,
        Trouble::Cut(36, &[4], 0, 0),
        &[
            &[
                (Call::Make(b"v", 64, 2), Told::Volume(0)),
                (Call::Det(0, 1), Told::Down),
                (Call::Without(0, 0), Told::Missing(0)),
            ],
            SECOND_STALE,
        ],
        &[],
    ),
];

#[test]
fn each_call_of_an_import_is_cut(rt: HostRuntime) -> Result<(), Fail> {
    let alloc = rt.alloc();
    for pick in [0, u64::MAX] {
        for calls in 0..18 {
            let group = group_on(alloc, disks_of(alloc, &[], 2, 1024)?)?;
            let rows = [
                (Call::Make(b"v", 16, 2), Told::Volume(0)),
                (Call::Put(0, 3, 0x11), Told::Done),
                (Call::Cut(1, calls, pick), Told::Down),
                (Call::Get(0, 3), Told::Block(0x11)),
                (Call::Get(0, 3), Told::Block(0x11)),
            ];
            assert!(rt; went(alloc, group, &rows).is_some(), "{calls}, {pick}");
        }
    }
    Ok(())
}

#[test]
fn no_group_is_found(rt: HostRuntime) -> Result<(), Fail> {
    let alloc = rt.alloc();
    for blocks in [1023, 1024] {
        let (_, told) = brought(alloc, disks_of(alloc, &[], 2, blocks)?, 0);
        assert!(rt; told == Told::NoConfig, "{blocks}");
    }
    Ok(())
}
