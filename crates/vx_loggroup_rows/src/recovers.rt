// What an import by a dirty region log writes to the plexes, and what it does where the log is lost.
use crate::misses::{Disks, group_of, put};
use std::alloc::Global;
use std::test::*;
use vx_config::{Config, LogEntry, Subdisk};
use vx_disk::{MemShelf, Rack, Shelf};
use vx_group_rows::Untold;
use vx_layout::Shape;
use vx_loggroup::LoggedGroup;
use vx_logimport::Rested;
use vx_model::OutOfMemory;

// 256 blocks on two plexes, with a dirty region log.
const WANT: Shape = Shape {
    blocks: 256,
    mirrors: 2,
    ncol: 1,
    width: 0,
    drl: true,
    fmr: false,
    prefer: None,
};

// A group on three disks, of which these calls fail, with such a volume.
fn group_on(alloc: Global, fails: &[u64]) -> Result<LoggedGroup<Disks>, OutOfMemory> {
    group_of(alloc, fails, &WANT)
}

fn log_of(config: &Config) -> Option<LogEntry> {
    match config.volumes.as_slice().get(0) {
        Some(volume) => volume.drl,
        None => None,
    }
}

// Whether the volume has a log, and it is held as lost.
fn is_lost(config: &Config) -> Option<bool> {
    match log_of(config) {
        Some(entry) => Some(entry.lost),
        None => None,
    }
}

// The first run of a plex.
fn run_of(config: &Config, plex: usize) -> Option<Subdisk> {
    match config.volumes.as_slice().get(0) {
        Some(volume) => match volume.plexes.as_slice().get(plex) {
            Some(entry) => match entry.subdisks.as_slice().get(0) {
                Some(run) => Some(*run),
                None => None,
            },
            None => None,
        },
        None => None,
    }
}

// Writes a block of a disk.
fn mark(disks: &mut MemShelf, run: Option<Subdisk>, block: u64, byte: u8) {
    if let Some(run) = run {
        let unit = u32::from(run.disk);
        if unit < disks.units()
            && block < 256
            && run.start < 700
            && run.start + block < disks.size(unit)
        {
            match disks.write(unit, run.start + block, &[byte; 512]) {
                Ok(()) => {}
                Err(_) => {}
            }
        }
    }
}

// The first byte of a block of a disk.
fn look(disks: &mut MemShelf, run: Option<Subdisk>, block: u64) -> Option<u8> {
    let mut bytes = [0; 512];
    if let Some(run) = run {
        let unit = u32::from(run.disk);
        if unit < disks.units()
            && block < 256
            && run.start < 700
            && run.start + block < disks.size(unit)
        {
            return match disks.read(unit, run.start + block, &mut bytes) {
                Ok(()) => Some(bytes[0]),
                Err(_) => None,
            };
        }
    }
    None
}

// The disks behind a crash that loses all that may be lost, with other bytes in some blocks of the second plex, and its first run.
fn crashed(group: LoggedGroup<Disks>) -> (MemShelf, Option<Subdisk>) {
    let run = run_of(group.config(), 1);
    let (shelf, _rest) = group.apart();
    let mut disks = shelf.shelf;
    disks.crash(0);
    if disks.is_down() {
        disks.revive();
    }
    for block in [0, 63, 64, 127, 128, 255] {
        mark(&mut disks, run, block, 0xee);
    }
    (disks, run)
}

// The group that an import gives.
fn opened(alloc: Global, disks: MemShelf) -> Option<LoggedGroup<Disks>> {
    match LoggedGroup::import(alloc, Untold { shelf: disks }, &Rested::none()) {
        Ok(group) => Some(group),
        Err(_) => None,
    }
}

// What an import leaves in these blocks of the second plex, and whether the log is lost then.
fn again(alloc: Global, disks: MemShelf, run: Option<Subdisk>) -> ([Option<u8>; 6], Option<bool>) {
    match opened(alloc, disks) {
        Some(group) => {
            let lost = is_lost(group.config());
            let (shelf, _rest) = group.apart();
            let mut disks = shelf.shelf;
            (
                [
                    look(&mut disks, run, 0),
                    look(&mut disks, run, 63),
                    look(&mut disks, run, 64),
                    look(&mut disks, run, 127),
                    look(&mut disks, run, 128),
                    look(&mut disks, run, 255),
                ],
                lost,
            )
        }
        None => ([None; 6], None),
    }
}

// The bytes that were put there, and those of the first plex.
const KEPT: Option<u8> = Some(0xee);

const COPIED: Option<u8> = Some(0);

// A log is trusted behind the first write, and an import copies the regions of writes.
#[test]
fn an_import_copies_the_regions_of_writes(rt: HostRuntime) -> Result<(), Fail> {
    let alloc = rt.alloc();
    let mut group = group_on(alloc, &[])?;
    assert!(rt; is_lost(group.config()) == Some(true));
    assert!(rt; put(&mut group, 70, 0x11));
    assert!(rt; is_lost(group.config()) == Some(false));
    let (disks, run) = crashed(group);
    assert!(rt;
        again(alloc, disks, run) == ([KEPT, KEPT, COPIED, COPIED, KEPT, KEPT], Some(false))
    );
    Ok(())
}

#[test]
fn an_import_takes_marks_off(rt: HostRuntime) -> Result<(), Fail> {
    let alloc = rt.alloc();
    let mut group = group_on(alloc, &[])?;
    assert!(rt; put(&mut group, 70, 0x11));
    let (shelf, _rest) = group.apart();
    let mut disks = shelf.shelf;
    disks.crash(0);
    if disks.is_down() {
        disks.revive();
    }
    match opened(alloc, disks) {
        Some(group) => {
            let mut group = group;
            assert!(rt; put(&mut group, 200, 0x22));
            let (disks, run) = crashed(group);
            assert!(rt;
                again(alloc, disks, run) == ([KEPT, KEPT, KEPT, KEPT, KEPT, COPIED], Some(false))
            );
        }
        None => assert!(rt; false),
    }
    Ok(())
}

// A group with a block written, where its log is lost then, as one of these calls failed.
fn lost_by(alloc: Global, fails: &[u64]) -> Result<Option<LoggedGroup<Disks>>, OutOfMemory> {
    let mut group = group_on(alloc, fails)?;
    if put(&mut group, 70, 0x11) && is_lost(group.config()) == Some(true) {
        return Ok(Some(group));
    }
    Ok(None)
}

// How many of these calls lose the log where they fail, while the write is done. Behind a crash an import then copies the whole volume, and the log
// stays lost; 99, where it is not so.
fn losing(alloc: Global, from: u64, to: u64) -> u64 {
    let mut seen: u64 = 0;
    for call in from..to {
        match lost_by(alloc, &[call]) {
            Ok(Some(group)) => {
                seen = seen.saturating_add(1);
                let (disks, run) = crashed(group);
                if again(alloc, disks, run) != ([COPIED; 6], Some(true)) {
                    return 99;
                }
            }
            Ok(None) => {}
            Err(_) => {}
        }
    }
    seen
}

// How many of these calls the write is done behind, with the log trusted, where they fail, and behind a crash an import leaves this.
fn trusting(alloc: Global, from: u64, to: u64, want: ([Option<u8>; 6], Option<bool>)) -> u64 {
    let mut seen: u64 = 0;
    for call in from..to {
        match group_on(alloc, &[call]) {
            Ok(group) => {
                let mut group = group;
                if put(&mut group, 70, 0x11) && is_lost(group.config()) == Some(false) {
                    let (disks, run) = crashed(group);
                    if again(alloc, disks, run) == want {
                        seen = seen.saturating_add(1);
                    }
                }
            }
            Err(_) => {}
        }
    }
    seen
}

#[test]
fn a_log_is_lost_or_used(rt: HostRuntime) -> Result<(), Fail> {
    let alloc = rt.alloc();
    // A log that does not begin stays lost: the writing of its block, the flush behind it, and its reading are the first calls behind the 85 of the
    // making.
    assert!(rt; losing(alloc, 86, 89) == 3);
    // A log that a write loses is not used: the writing of the mark, and the flush behind it, between the commit by which the log is trusted and the
    // writing of the plexes.
    assert!(rt; losing(alloc, 107, 109) == 2);
    // A log is used whose commit fails on another disk: the calls of that commit on the disk of the second plex, and on the one that has nothing, six
    // on each.
    let want = ([KEPT, KEPT, COPIED, COPIED, KEPT, KEPT], Some(false));
    assert!(rt; trusting(alloc, 95, 107, want) == 12);
    // A log is lost whose disk fails in its commit, by the calls on that disk: the plex on it is copied whole from the one on a disk that did not fail.
    assert!(rt; trusting(alloc, 89, 95, ([KEPT; 6], Some(true))) == 6);
    Ok(())
}
