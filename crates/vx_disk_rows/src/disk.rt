// What no clause says: worked crashes, fuses and faults, the printed text of errors, and that each call succeeds.
use std::alloc::Global;
use std::mem::size_of;
use std::snapshot::Snapshot;
use std::test::Fail;
use vx_disk::{MemShelf, Rack, Shelf, ShelfError, put};
use vx_model::limits::MOST_DISKS;
use vx_model::{Counted, No, OutOfMemory, Stop};

// A shelf in memory of so many disks of 8 blocks.
fn fitted(alloc: Global, fails: &[u64], disks: u32) -> Result<MemShelf, OutOfMemory> {
    let mut shelf = MemShelf::new(alloc, fails)?;
    if disks == 0 || shelf.fit(alloc, None, 0, disks, 8).is_err() {
        return Err(OutOfMemory);
    }
    Ok(shelf)
}

// The last byte of a block, or what the read was answered.
fn last_byte<S: Shelf>(shelf: &mut S, unit: u32, block: u64) -> Result<u8, ShelfError> {
    let mut into = [9u8; 512];
    if shelf.units() <= unit || shelf.size(unit) <= block {
        return Ok(255);
    }
    shelf.read(unit, block, &mut into)?;
    Ok(into[511])
}

fn write<S: Shelf>(shelf: &mut S, unit: u32, block: u64, value: u8) -> Result<(), ShelfError> {
    if shelf.units() <= unit || shelf.size(unit) <= block {
        return Ok(());
    }
    shelf.write(unit, block, &[value; 512])
}

fn flush<S: Shelf>(shelf: &mut S, unit: u32) -> Result<(), ShelfError> {
    if shelf.units() <= unit {
        return Ok(());
    }
    shelf.flush(unit)
}

fn put_two<S: Shelf>(shelf: &mut S, unit: u32, block: u64, value: u8) -> Result<(), ShelfError> {
    if shelf.units() <= unit || shelf.size(unit) <= block || shelf.size(unit) - block < 2 {
        return Ok(());
    }
    put(shelf, unit, block, &[value; 1024])
}

fn faults<S: Shelf>(shelf: &S, unit: u32) -> u64 {
    if shelf.units() <= unit {
        return 0;
    }
    shelf.faults(unit)
}

fn raise<R: Rack>(rack: &mut R) {
    if rack.is_down() {
        rack.revive();
    }
}

fn make_fail<R: Rack>(rack: &mut R, disk: u32, on: bool) {
    if disk < rack.units() {
        rack.fail(disk, on);
    }
}

const DONE: Result<(), ShelfError> = Ok(());

const DOWN: Result<(), ShelfError> = Err(ShelfError::Down);

const FAULT: Result<(), ShelfError> = Err(ShelfError::Fault { disk: 1 });

// What is done to a shelf, or what a call on it is answered.
enum Step {
    // The disk, the block, the byte and the answer; and of two blocks.
    Writes(u32, u64, u8, Result<(), ShelfError>),
    PutsTwo(u32, u64, u8, Result<(), ShelfError>),
    Flushes(u32, Result<(), ShelfError>),
    // The last byte of a block of a disk, or why it is not read.
    Reads(u32, u64, Result<u8, ShelfError>),
    // The faults of a disk.
    Faults(u32, u64),
    Crashes(u64),
    Fuse(u64, u64),
    Raises,
    Fails(u32),
    Works(u32),
}

// What the steps show, the calls that fail, the disks of 8 blocks, and the steps.
const STEPS: &[(&str, &[u64], u32, &[Step])] = &[
    (
        "a crash keeps the picked blocks",
        &[],
        2,
        &[
            Step::Writes(1, 0, 3, DONE),
            Step::Writes(0, 3, 2, DONE),
            Step::Writes(0, 1, 1, DONE),
            Step::Crashes(5),
            Step::Reads(0, 3, Err(ShelfError::Down)),
            Step::Raises,
            Step::Reads(0, 1, Ok(1)),
            Step::Reads(0, 3, Ok(0)),
            Step::Reads(1, 0, Ok(3)),
        ],
    ),
    (
        "what was flushed stays",
        &[],
        1,
        &[
            Step::Writes(0, 1, 1, DONE),
            Step::Flushes(0, DONE),
            Step::PutsTwo(0, 2, 4, DONE),
            Step::Writes(0, 1, 7, DONE),
            Step::Crashes(0),
            Step::Raises,
            Step::Reads(0, 0, Ok(0)),
            Step::Reads(0, 1, Ok(1)),
            Step::Reads(0, 2, Ok(4)),
            Step::Reads(0, 3, Ok(4)),
            Step::Reads(0, 4, Ok(0)),
        ],
    ),
    (
        "a fuse lets writes and flushes pass",
        &[],
        1,
        &[
            Step::Fuse(2, 1),
            Step::Writes(0, 1, 1, DONE),
            Step::Reads(0, 1, Ok(1)),
            Step::Writes(0, 2, 2, DONE),
            Step::Flushes(0, DOWN),
            Step::Raises,
            Step::Reads(0, 1, Ok(1)),
            Step::Reads(0, 2, Ok(0)),
            Step::Writes(0, 2, 2, DONE),
        ],
    ),
    (
        "listed calls fail",
        &[2, 4],
        2,
        &[
            Step::Writes(1, 0, 1, DONE),
            Step::Flushes(1, FAULT),
            Step::Reads(1, 0, Ok(1)),
            Step::Reads(0, 0, Err(ShelfError::Fault { disk: 0 })),
            Step::Reads(0, 0, Ok(0)),
            Step::Faults(0, 1),
            Step::Faults(1, 1),
        ],
    ),
    (
        "a failing disk fails until it works",
        &[],
        2,
        &[
            Step::Fails(1),
            Step::Writes(1, 0, 1, FAULT),
            Step::Reads(1, 0, Err(ShelfError::Fault { disk: 1 })),
            Step::Writes(0, 0, 1, DONE),
            Step::Works(1),
            Step::Reads(1, 0, Ok(0)),
            Step::Faults(1, 2),
        ],
    ),
];

// Whether a step is done, or answered what it says.
fn goes(shelf: &mut MemShelf, step: &Step) -> bool {
    match step {
        Step::Writes(unit, block, value, wanted) => write(shelf, *unit, *block, *value) == *wanted,
        Step::PutsTwo(unit, block, value, wanted) => {
            put_two(shelf, *unit, *block, *value) == *wanted
        }
        Step::Flushes(unit, wanted) => flush(shelf, *unit) == *wanted,
        Step::Reads(unit, block, wanted) => last_byte(shelf, *unit, *block) == *wanted,
        Step::Faults(unit, wanted) => faults(shelf, *unit) == *wanted,
        Step::Crashes(pick) => {
            shelf.crash(*pick);
            true
        }
        Step::Fuse(calls, pick) => {
            shelf.fuse(*calls, *pick);
            true
        }
        Step::Raises => {
            raise(shelf);
            true
        }
        Step::Fails(disk) => {
            make_fail(shelf, *disk, true);
            true
        }
        Step::Works(disk) => {
            make_fail(shelf, *disk, false);
            true
        }
    }
}

#[test]
fn shelves_crash_and_fail(rt: HostRuntime) -> Result<(), Fail> {
    for (shows, fails, disks, steps) in STEPS {
        let mut shelf = fitted(rt.alloc(), fails, *disks)?;
        for (at, step) in steps.iter().enumerate() {
            assert!(rt; goes(&mut shelf, step), "{shows}: step {at}");
        }
    }
    Ok(())
}

#[test]
fn a_fit_is_refused_above_its_limits(rt: HostRuntime) -> Result<(), Fail> {
    let alloc = rt.alloc();
    let disks = Stop::No(No::Limit {
        what: Counted::Disks,
        most: u64::from(MOST_DISKS),
    });
    let mut shelf = MemShelf::new(alloc, &[])?;
    assert!(rt; shelf.fit(alloc, None, 0, 9, 16385) == Err(disks));
    for (dir, most) in [(None, 16384), (Some("files"), 4194304)] {
        let mut shelf = MemShelf::new(alloc, &[])?;
        let blocks = Stop::No(No::Limit {
            what: Counted::Blocks,
            most,
        });
        assert!(rt; shelf.fit(alloc, dir, 0, 1, most + 1) == Err(blocks));
    }
    let mut shelf = MemShelf::new(alloc, &[])?;
    assert!(rt; shelf.fit(alloc, Some("files"), 0, 1, 16385) == Ok(()));
    assert!(rt; last_byte(&mut shelf, 0, 16384) == Ok(0));
    Ok(())
}

#[test]
fn the_past_has_no_bytes(rt: HostRuntime) {
    assert_eq!(rt; size_of::<Snapshot<Option<[u8; 512]>>>(), 0);
}

#[test]
fn errors_are_printed(rt: HostRuntime) -> Result<(), Fail> {
    let alloc = rt.alloc();
    for (error, want) in [
        (ShelfError::Fault { disk: 3 }, "a call on disk 3 failed"),
        (ShelfError::Down, "the shelf is down"),
    ] {
        let text = format!(in alloc; "{error}")?;
        assert!(rt; text.as_str() == want);
    }
    Ok(())
}
