// What no clause says: that copies succeed on a shelf in memory, how many regions they answer, and which disk a refusal names.
ghost use Rattle.std.specs.Prelude.{◌≡◌, ◌<◌, IsTrue, Some, length};
ghost use Rattle.vx_config.specs.Checks.{blocks_of as blocks_of_is, is_sound};
ghost use Rattle.vx_volume.specs.Plexes.{DisksFit, SomeActive, active as active_is};

use crate::mirrors::{disks_fit, fitted, log, mirror};
use std::alloc::Global;
use std::test::*;
use vx_config::{Config, VolumeLog, blocks_of, check};
use vx_disk::{MemShelf, Rack, Shelf};
use vx_drl::Drl;
use vx_fmr::Fmr;
use vx_maplog::{disks_fit as disks_reach, has_log, plexes_of};
use vx_model::{No, OutOfMemory, PlexState};
use vx_resync::{attach, recover};
use vx_volume::is_active;

// The group with both logs and two plexes that are ACTIVE.
fn both(alloc: Global) -> Result<Config, OutOfMemory> {
    mirror(
        alloc,
        PlexState::Active,
        false,
        Some(log(900, 1)),
        Some(log(910, 2)),
    )
}

// Whether both plexes can be read and written.
fn is_ready<S: Shelf>(config: &Config, shelf: &S) -> bool
    ensures sound { IsTrue result → IsTrue (is_sound config.now) }
    ensures volume { IsTrue result → 0 < length config.now.volumes }
    ensures first { IsTrue result → IsTrue (active_is config.now 0 0) }
    ensures second { IsTrue result → IsTrue (active_is config.now 0 1) }
    ensures disks { IsTrue result → DisksFit config.now.disks (S.meaning shelf.now) }
    ensures up { IsTrue result → IsTrue (S.meaning shelf.now).down → ⊥ }
{
    if !check(config) || config.volumes.as_slice().is_empty() {
        return false;
    }
    if !is_active(config, 0, 0) || !is_active(config, 0, 1) {
        return false;
    }
    disks_fit(config.disks.as_slice(), shelf) && !shelf.is_down()
}

#[derive(Clone, Copy, PartialEq, Eq)]
enum Told {
    Copied(u64),
    Device(u32),
    Other,
}

fn said(res: Result<u64, No>) -> Told {
    match res {
        Ok(count) => Told::Copied(count),
        Err(No::Device { disk }) => Told::Device(disk),
        Err(_) => Told::Other,
    }
}

// The shelf, of which the calls with these numbers fail. Eight calls write the four regions of the plexes, with 1 to 4 on the first and
// with 9 on the second.
fn filled(alloc: Global, fails: &[u64]) -> Result<MemShelf, OutOfMemory> {
    let mut shelf = fitted(alloc, fails)?;
    for (region, byte) in [(0, 1), (1, 2), (2, 3), (3, 4)] {
        put(&mut shelf, 0, region, byte);
        put(&mut shelf, 1, region, 9);
    }
    Ok(shelf)
}

fn put<S: Shelf>(shelf: &mut S, disk: u32, region: u64, byte: u8) {
    if disk < shelf.units() && region < 4 && shelf.size(disk) == 1024 && !shelf.is_down() {
        let _res = shelf.write(disk, 512 + 64 * region, &[byte; 32_768]);
    }
}

// What each block of a region of a disk begins with, where they are all alike.
fn has<S: Shelf>(shelf: &mut S, disk: u32, region: u64) -> Option<u8> {
    let mut into = [0; 32_768];
    if disk < shelf.units() && region < 4 && shelf.size(disk) == 1024 && !shelf.is_down() {
        match shelf.read(disk, 512 + 64 * region, &mut into) {
            Ok(()) => {
                let byte = into[0];
                if into.iter().all(|b| *b == byte) {
                    return Some(byte);
                }
            }
            Err(_) => {}
        }
    }
    None
}

fn has_all<S: Shelf>(shelf: &mut S, disk: u32) -> [Option<u8>; 4] {
    [
        has(shelf, disk, 0),
        has(shelf, disk, 1),
        has(shelf, disk, 2),
        has(shelf, disk, 3),
    ]
}

// Marks a region in three calls.
fn mark<S: Shelf>(alloc: Global, shelf: &mut S, config: &Config, region: u64) {
    if !has_log(config, 0, VolumeLog::Drl)
        || !disks_reach(config.disks.as_slice(), shelf)
        || shelf.is_down()
    {
        return;
    }
    match Drl::load(alloc, shelf, config, 0) {
        Ok(mut drl) => {
            if blocks_of(config, 0) == 256 && region < 4 {
                let _res = drl.mark(shelf, region, region);
            }
        }
        Err(_) => {}
    }
}

// Reads the log in one call, and recovers.
fn recovered<S: Shelf>(alloc: Global, shelf: &mut S, config: &Config) -> Told {
    if !has_log(config, 0, VolumeLog::Drl)
        || !disks_reach(config.disks.as_slice(), shelf)
        || shelf.is_down()
    {
        return Told::Other;
    }
    match Drl::load(alloc, shelf, config, 0) {
        Ok(drl) => {
            if is_ready(config, shelf) {
                said(recover(0, config, Some(&drl), shelf))
            } else {
                Told::Other
            }
        }
        Err(_) => Told::Other,
    }
}

fn recovered_all<S: Shelf>(shelf: &mut S, config: &Config) -> Told {
    if is_ready(config, shelf) {
        said(recover(0, config, None, shelf))
    } else {
        Told::Other
    }
}

// Notes a region for the second plex in three calls.
fn note<S: Shelf>(alloc: Global, shelf: &mut S, config: &Config, region: u64) {
    if !has_log(config, 0, VolumeLog::Fmr)
        || !disks_reach(config.disks.as_slice(), shelf)
        || shelf.is_down()
    {
        return;
    }
    match Fmr::load(alloc, shelf, config, 0) {
        Ok(mut fmr) => {
            if blocks_of(config, 0) == 256 && plexes_of(config, 0) == 2 && region < 4 {
                let _res = fmr.note(shelf, 1, region, region);
            }
        }
        Err(_) => {}
    }
}

// Reads the map in one call, and attaches the second plex.
fn attached<S: Shelf>(alloc: Global, shelf: &mut S, config: &Config) -> Told {
    if !has_log(config, 0, VolumeLog::Fmr)
        || !disks_reach(config.disks.as_slice(), shelf)
        || shelf.is_down()
    {
        return Told::Other;
    }
    match Fmr::load(alloc, shelf, config, 0) {
        Ok(fmr) => {
            if is_ready(config, shelf) && plexes_of(config, 0) == 2 {
                said(attach(0, config, Some(&fmr), 1, shelf))
            } else {
                Told::Other
            }
        }
        Err(_) => Told::Other,
    }
}

fn attached_all<S: Shelf>(shelf: &mut S, config: &Config) -> Told {
    if is_ready(config, shelf) {
        said(attach(0, config, None, 1, shelf))
    } else {
        Told::Other
    }
}

const FIRST: [Option<u8>; 4] = [Some(1), Some(2), Some(3), Some(4)];

// A write to block 70 marks region 1, which is blocks 64 to 127: these alone are written, and are there behind a crash. Without a log all regions
// are copied.
#[test]
fn a_marked_region_alone_is_copied(rt: HostRuntime) -> Result<(), Fail> {
    let alloc = rt.alloc();
    let config = both(alloc)?;
    let mut shelf = filled(alloc, &[])?;
    mark(alloc, &mut shelf, &config, 1);
    assert!(rt; recovered(alloc, &mut shelf, &config) == Told::Copied(1));
    shelf.crash(0);
    if shelf.is_down() {
        shelf.revive();
    }
    assert!(rt; has_all(&mut shelf, 0) == FIRST);
    assert!(rt; has_all(&mut shelf, 1) == [Some(9), Some(2), Some(9), Some(9)]);
    let mut shelf = filled(alloc, &[])?;
    assert!(rt; recovered_all(&mut shelf, &config) == Told::Copied(4));
    assert!(rt; has_all(&mut shelf, 0) == FIRST);
    assert!(rt; has_all(&mut shelf, 1) == FIRST);
    let mut shelf = filled(alloc, &[])?;
    note(alloc, &mut shelf, &config, 2);
    assert!(rt; attached(alloc, &mut shelf, &config) == Told::Copied(1));
    assert!(rt; has_all(&mut shelf, 1) == [Some(9), Some(9), Some(3), Some(9)]);
    assert!(rt; attached_all(&mut shelf, &config) == Told::Copied(4));
    assert!(rt; has_all(&mut shelf, 1) == FIRST);
    Ok(())
}

// Behind the eight calls that fill the plexes and the three of the mark come that which reads the log, a read of the source, a write of
// each plex and a flush of each. An attach has a read of the first plex, a write of the second and its flush.
#[test]
fn a_failing_plex_is_named(rt: HostRuntime) -> Result<(), Fail> {
    let alloc = rt.alloc();
    let config = both(alloc)?;
    for (is_recovery, call, disk) in [
        (true, 13, 0),
        (true, 14, 0),
        (true, 15, 1),
        (true, 16, 0),
        (true, 17, 1),
        (false, 13, 0),
        (false, 14, 1),
        (false, 15, 1),
    ] {
        let mut shelf = filled(alloc, &[call])?;
        let told = if is_recovery {
            mark(alloc, &mut shelf, &config, 1);
            recovered(alloc, &mut shelf, &config)
        } else {
            note(alloc, &mut shelf, &config, 2);
            attached(alloc, &mut shelf, &config)
        };
        assert!(rt; told == Told::Device(disk), "{is_recovery}, {call}");
    }
    Ok(())
}
