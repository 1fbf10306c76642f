// Writes and detaches that are cut behind each of their writes and flushes, and what an import then gives.
use crate::rows::{Call, Case, OFF, ON, Row, Trouble};
use crate::volumes::Told;

// A new group has 18 writes and flushes, a volume of 16 blocks 12, and a write of it with its flush four.
pub const BEFORE: u64 = 34;

/// A volume of 16 blocks on two disks, one block of it written and flushed.
pub const VOLUME: &[Row] = &[
    (Call::Make(b"v", 16, 2), Told::Volume(0)),
    (Call::Put(0, 3, 0x11), Told::Done),
    (Call::Flush(0), Told::Done),
];

/// Crashes and imports: of what no flush made durable nothing is left, or all.
pub const LOST: &[Row] = &[(Call::Crash(0), Told::Done)];

pub const KEPT: &[Row] = &[(Call::Crash(u64::MAX), Told::Done)];

/// Two reads give the block as it was, and the second plex is ACTIVE, or STALE.
pub const OLD_ON: &[Row] = &[
    (Call::State(0, 1), ON),
    (Call::Get(0, 3), Told::Block(0x11)),
    (Call::Get(0, 3), Told::Block(0x11)),
];

pub const OLD_OFF: &[Row] = &[
    (Call::State(0, 1), OFF),
    (Call::Get(0, 3), Told::Block(0x11)),
    (Call::Get(0, 3), Told::Block(0x11)),
];

/// The same of the block with what was written to it then.
pub const NEW_ON: &[Row] = &[
    (Call::State(0, 1), ON),
    (Call::Get(0, 3), Told::Block(0x22)),
    (Call::Get(0, 3), Told::Block(0x22)),
];

pub const NEW_OFF: &[Row] = &[
    (Call::State(0, 1), OFF),
    (Call::Get(0, 3), Told::Block(0x22)),
    (Call::Get(0, 3), Told::Block(0x22)),
];

const WRITE_CUT: &[Row] = &[(Call::Put(0, 3, 0x22), Told::Down)];

const WRITE_DONE: &[Row] = &[(Call::Put(0, 3, 0x22), Told::Done)];

const DETACH_CUT: &[Row] = &[(Call::Det(0, 1), Told::Down)];

const DETACH_DONE: &[Row] = &[(Call::Det(0, 1), Told::Done)];

pub const CASES: &[Case] = &[
    // The first plex is written, and then the second one.
    (
        "a write is cut and what was written is lost: down, old",
        2,
        Trouble::Cut(BEFORE, &[0, 1], 0, 0),
        &[VOLUME, WRITE_CUT, LOST, OLD_ON],
        &[],
    ),
    (
        "a write is cut and what was written is lost: done, old",
        2,
        Trouble::Cut(BEFORE, &[2], 0, 0),
        &[VOLUME, WRITE_DONE, LOST, OLD_ON],
        &[],
    ),
    (
        "a write is cut and what was written is kept: down, old",
        2,
        Trouble::Cut(BEFORE, &[0], u64::MAX, 0),
        &[VOLUME, WRITE_CUT, KEPT, OLD_ON],
        &[],
    ),
    (
        "a write is cut and what was written is kept: down, new",
        2,
        Trouble::Cut(BEFORE, &[1], u64::MAX, 0),
        &[VOLUME, WRITE_CUT, KEPT, NEW_ON],
        &[],
    ),
    (
        "a write is cut and what was written is kept: done, new",
        2,
        Trouble::Cut(BEFORE, &[2], u64::MAX, 0),
        &[VOLUME, WRITE_DONE, KEPT, NEW_ON],
        &[],
    ),
    // Call 44 is the write to the second plex, which counts for the fuse too. The commit behind it writes and flushes a body, and then a
    // header, on the first disk and then on the second one. Its first flush makes the block of the first plex durable, and the configuration
    // counts once the first header is durable, or kept.
    (
        "a write with its commit is cut and what was written is lost: down, old, ACTIVE",
        2,
        Trouble::Cut(BEFORE, &[2, 3], 0, 44),
        &[VOLUME, WRITE_CUT, LOST, OLD_ON],
        &[],
    ),
    (
        "a write with its commit is cut and what was written is lost: down, new, ACTIVE",
        2,
        Trouble::Cut(BEFORE, &[4, 5], 0, 44),
        &[VOLUME, WRITE_CUT, LOST, NEW_ON],
        &[],
    ),
    (
        "a write with its commit is cut and what was written is lost: down, new, STALE",
        2,
        Trouble::Cut(BEFORE, &[6, 7, 8, 9], 0, 44),
        &[VOLUME, WRITE_CUT, LOST, NEW_OFF],
        &[],
    ),
    (
        "a write with its commit is cut and what was written is lost: done, new, STALE",
        2,
        Trouble::Cut(BEFORE, &[10], 0, 44),
        &[VOLUME, WRITE_DONE, LOST, NEW_OFF],
        &[],
    ),
    (
        "a write with its commit is cut and what was written is kept: down, new, ACTIVE",
        2,
        Trouble::Cut(BEFORE, &[2, 3, 4], u64::MAX, 44),
        &[VOLUME, WRITE_CUT, KEPT, NEW_ON],
        &[],
    ),
    (
        "a write with its commit is cut and what was written is kept: down, new, STALE",
        2,
        Trouble::Cut(BEFORE, &[5, 6, 7, 8, 9], u64::MAX, 44),
        &[VOLUME, WRITE_CUT, KEPT, NEW_OFF],
        &[],
    ),
    (
        "a write with its commit is cut and what was written is kept: done, new, STALE",
        2,
        Trouble::Cut(BEFORE, &[10], u64::MAX, 44),
        &[VOLUME, WRITE_DONE, KEPT, NEW_OFF],
        &[],
    ),
    (
        "a detach is cut and what was written is lost: down, ACTIVE",
        2,
        Trouble::Cut(BEFORE, &[0, 1, 2, 3], 0, 0),
        &[VOLUME, DETACH_CUT, LOST, OLD_ON],
        &[],
    ),
    (
        "a detach is cut and what was written is lost: down, STALE",
        2,
        Trouble::Cut(BEFORE, &[4, 5, 6, 7], 0, 0),
        &[VOLUME, DETACH_CUT, LOST, OLD_OFF],
        &[],
    ),
    (
        "a detach is cut and what was written is lost: done, STALE",
        2,
        Trouble::Cut(BEFORE, &[8], 0, 0),
        &[VOLUME, DETACH_DONE, LOST, OLD_OFF],
        &[],
    ),
    (
        "a detach is cut and what was written is kept: down, ACTIVE",
        2,
        Trouble::Cut(BEFORE, &[0, 1, 2], u64::MAX, 0),
        &[VOLUME, DETACH_CUT, KEPT, OLD_ON],
        &[],
    ),
    (
        "a detach is cut and what was written is kept: down, STALE",
        2,
        Trouble::Cut(BEFORE, &[3, 4, 5, 6, 7], u64::MAX, 0),
        &[VOLUME, DETACH_CUT, KEPT, OLD_OFF],
        &[],
    ),
    (
        "a detach is cut and what was written is kept: done, STALE",
        2,
        Trouble::Cut(BEFORE, &[8], u64::MAX, 0),
        &[VOLUME, DETACH_DONE, KEPT, OLD_OFF],
        &[],
    ),
];
