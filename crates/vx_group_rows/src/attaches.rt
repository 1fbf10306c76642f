// Plexes that are attached: the regions that are copied, each device call of it failing, and what a crash in it leaves.
use crate::imports::{disks_of, group_on};
use crate::rows::{Call, Case, OFF, ON, Row, Trouble};
use crate::volumes::{Told, det, flush, get, make, plain, put, state, told_of};
use std::alloc::Global;
use std::test::*;
use vx_config::PlexState;
use vx_copies::import;
use vx_copyio::are_large;
use vx_disk::{MemShelf, Rack, Shelf};
use vx_group::Group;
use vx_model::OutOfMemory;
use vx_untold::Untold;

pub fn att<S: Shelf>(group: &mut Group<S>, volume: u32, plex: u32) -> Told {
    match group.att(volume, plex) {
        Ok(regions) => Told::Attached(regions),
        Err(stop) => told_of(stop),
    }
}

// A volume is made, and its second plex detached.
const DETACHED: &[Row] = &[
    (Call::Make(b"v", 16, 2), Told::Volume(0)),
    (Call::Det(0, 1), Told::Done),
];

// A write, and its block from both plexes that are ACTIVE; and then from the second one alone.
const WRITTEN: &[Row] = &[
    (Call::Put(0, 3, 0x22), Told::Done),
    (Call::Get(0, 3), Told::Block(0x22)),
    (Call::Get(0, 3), Told::Block(0x22)),
];

const ALONE: &[Row] = &[
    (Call::Det(0, 0), Told::Done),
    (Call::Get(0, 3), Told::Block(0x22)),
];

pub const CASES: &[Case] = &[
    // Call 87 is the write to the second plex.
    (
        "a plex is attached",
        3,
        Trouble::Fails(&[&[87]]),
        &[&[
            (Call::Make(b"v", 256, 2), Told::Volume(0)),
            (Call::Put(0, 70, 0xbb), Told::Done),
            (Call::State(0, 1), OFF),
            (Call::Att(0, 1), Told::Attached(4)),
            (Call::State(0, 1), ON),
            (Call::Att(0, 1), Told::Attached(0)),
            (Call::Att(0, 2), Told::Unknown),
            (Call::Att(1, 0), Told::Unknown),
            (Call::Det(0, 0), Told::Done),
            (Call::Get(0, 70), Told::Block(0xbb)),
            (Call::Get(0, 255), Told::Block(0)),
            (Call::Put(0, 255, 0xcc), Told::Done),
            (Call::Att(0, 0), Told::Attached(4)),
        ]],
        &[
            (0, 512 + 70, 0xbb),
            (0, 512 + 255, 0xcc),
            (1, 512 + 255, 0xcc),
        ],
    ),
    // A volume of two plexes is made with call 38, its second plex detached with call 50. A read, a write and a flush copy it, and a
    // commit begins with call 54; where both disks fail in it, a further one takes the plex back.
    (
        "the read of an attach fails",
        2,
        Trouble::Fails(&[&[51]]),
        &[
            DETACHED,
            &[(Call::Att(0, 1), Told::Device(0)), (Call::State(0, 1), OFF)],
            WRITTEN,
            &[(Call::Att(0, 1), Told::Attached(1))],
            ALONE,
        ],
        &[],
    ),
    (
        "the write or the flush of an attach fails, or its commit on both disks",
        2,
        Trouble::Fails(&[&[52], &[53], &[54, 55]]),
        &[
            DETACHED,
            &[(Call::Att(0, 1), Told::Device(1)), (Call::State(0, 1), OFF)],
            WRITTEN,
            &[(Call::Att(0, 1), Told::Attached(1))],
            ALONE,
        ],
        &[],
    ),
    (
        "the commit of an attach fails on one disk",
        2,
        Trouble::Fails(&[&[54], &[60]]),
        &[
            DETACHED,
            &[
                (Call::Att(0, 1), Told::Attached(1)),
                (Call::State(0, 1), ON),
            ],
            WRITTEN,
            &[(Call::Att(0, 1), Told::Attached(0))],
            ALONE,
        ],
        &[],
    ),
];

// Attaches the second plex of a volume on disks that fall after so many writes and flushes, and keep what `pick` says. Tells what an import
// of the configuration and reads of the plexes that are ACTIVE by it then give for the block that was written.
fn cut(alloc: Global, calls: u64, pick: u64) -> Result<(Told, Told), OutOfMemory> {
    let mut disks = disks_of(alloc, &[], 2, 1024)?.shelf;
    disks.fuse(calls, pick);
    let mut group = group_on(alloc, Untold { shelf: disks })?;
    make(alloc, &mut group, b"v", &plain(16, 2));
    det(&mut group, 0, 1);
    put(&mut group, 0, 3, 0x11);
    flush(&mut group, 0);
    let told = att(&mut group, 0, 1);
    let (shelf, _core) = group.apart();
    let mut disks = shelf.shelf;
    if disks.is_down() {
        disks.revive();
    }
    Ok((told, look(alloc, &mut disks)))
}

// The block on the plexes that are ACTIVE by the newest configuration.
fn look(alloc: Global, shelf: &mut MemShelf) -> Told {
    if shelf.is_down() || !are_large(shelf) {
        return Told::Other;
    }
    match import(alloc, shelf) {
        Ok((config, _)) => {
            let first = get(shelf, 0, 512 + 3);
            let second = get(shelf, 1, 512 + 3);
            match (state(&config, 0, 0), state(&config, 0, 1)) {
                (Some(PlexState::Active), Some(PlexState::Stale)) => first,
                (Some(PlexState::Active), Some(PlexState::Active)) => {
                    if first == second { first } else { Told::Mixed }
                }
                _ => Told::Other,
            }
        }
        Err(_) => Told::Other,
    }
}

#[test]
fn an_attach_is_cut_at_each_call(rt: HostRuntime) -> Result<(), Fail> {
    let alloc = rt.alloc();
    // A flush of the volume is the last call before the attach, which has a write and a flush of the plex and a commit of eight.
    for calls in [40, 41, 42, 43, 44, 45, 46, 47, 48, 49] {
        for pick in [0, u64::MAX] {
            let wanted = (Told::Down, Told::Block(0x11));
            assert!(rt; cut(alloc, calls, pick)? == wanted, "{calls}, {pick}");
        }
    }
    assert!(rt; cut(alloc, 50, 0)? == (Told::Attached(1), Told::Block(0x11)));
    Ok(())
}
