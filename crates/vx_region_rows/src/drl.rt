// What no clause says: that marks succeed on a shelf in memory and are there behind a crash, and which disk a refusal names.
ghost use Rattle.std.specs.Prelude.{IfOk};
ghost use Rattle.vx_drl.specs.Dirty.{DrlLoaded};

use crate::mirrors::{good, has_region, run};
use std::alloc::Global;
use std::test::*;
use vx_config::{
    Config, Disks, LogEntry, PlexEntry, Plexes, Subdisks, VolumeEntry, VolumeLog, Volumes,
};
use vx_disk::{MemShelf, Rack, Shelf};
use vx_drl::Drl;
use vx_maplog::{disks_fit, has_log};
use vx_model::{Name, No, OutOfMemory, PlexState, Stop};

// A volume of 8,192 blocks on disk 0 whose dirty region log is block 600 of disk 1.
fn group(alloc: Global) -> Result<Config, OutOfMemory> {
    let mut disks = Disks::new();
    disks.push(good(16_384));
    disks.push(good(16_384));
    let mut subdisks = Subdisks::new(alloc);
    subdisks.push(run(0, 512, 8192))?;
    let mut plexes = Plexes::new(alloc);
    plexes.push(PlexEntry {
        state: PlexState::Active,
        whole: false,
        subdisks,
    })?;
    let mut volumes = Volumes::new(alloc);
    volumes.push(VolumeEntry {
        name: Name::new(b"v"),
        blocks: 8192,
        ncol: 1,
        width: 0,
        prefer: None,
        drl: Some(LogEntry {
            lost: false,
            disk: 1,
            start: 600,
            blocks: 1,
        }),
        fmr: None,
        plexes,
    })?;
    Ok(Config {
        serial: 1,
        site: 0,
        disks,
        volumes,
        rvg: None,
    })
}

// A shelf in memory of two disks of 16,384 blocks, of which the calls with these numbers fail.
fn fitted(alloc: Global, fails: &[u64]) -> Result<MemShelf, OutOfMemory> {
    let mut shelf = MemShelf::new(alloc, fails)?;
    if shelf.fit(alloc, None, 0, 2, 16_384).is_err() {
        return Err(OutOfMemory);
    }
    Ok(shelf)
}

fn loaded<S: Shelf>(alloc: Global, shelf: &mut S, config: &Config) -> Result<Drl, Stop>
    ensures { IfOk result (λ drl. DrlLoaded config.now 0 drl) }
{
    if !has_log(config, 0, VolumeLog::Drl)
        || !disks_fit(config.disks.as_slice(), shelf)
        || shelf.is_down()
    {
        return Err(Stop::No(No::Role));
    }
    Drl::load(alloc, shelf, config, 0)
}

#[derive(Clone, Copy, PartialEq, Eq)]
enum Told {
    Done,
    Device(u32),
    Other,
}

fn said(res: Result<(), No>) -> Told {
    match res {
        Ok(()) => Told::Done,
        Err(No::Device { disk }) => Told::Device(disk),
        Err(_) => Told::Other,
    }
}

// Reads the log and marks a run of regions.
fn marked<S: Shelf>(alloc: Global, shelf: &mut S, config: &Config, first: u64, last: u64) -> Told {
    if !has_log(config, 0, VolumeLog::Drl)
        || !disks_fit(config.disks.as_slice(), shelf)
        || shelf.is_down()
    {
        return Told::Other;
    }
    match Drl::load(alloc, shelf, config, 0) {
        Ok(mut drl) => {
            if first > last || !has_region(config, last) {
                return Told::Other;
            }
            said(drl.mark(shelf, first, last))
        }
        Err(_) => Told::Other,
    }
}

// Reads the log and takes its marks off.
fn cleared<S: Shelf>(alloc: Global, shelf: &mut S, config: &Config) -> Told {
    if !has_log(config, 0, VolumeLog::Drl)
        || !disks_fit(config.disks.as_slice(), shelf)
        || shelf.is_down()
    {
        return Told::Other;
    }
    match Drl::load(alloc, shelf, config, 0) {
        Ok(mut drl) => said(drl.flushed(shelf)),
        Err(_) => Told::Other,
    }
}

// Whether a region is marked, where the log can be read.
fn is_dirty<S: Shelf>(alloc: Global, shelf: &mut S, config: &Config, region: u64) -> Option<bool> {
    match loaded(alloc, shelf, config) {
        Ok(drl) => {
            if has_region(config, region) {
                Some(drl.dirty(region))
            } else {
                None
            }
        }
        Err(_) => None,
    }
}

// Marks a run of regions twice, and takes marks off between where the caller says so.
fn marked_twice<S: Shelf>(
    alloc: Global,
    shelf: &mut S,
    config: &Config,
    first: u64,
    last: u64,
    cleared: bool,
) -> Told {
    if !has_log(config, 0, VolumeLog::Drl)
        || !disks_fit(config.disks.as_slice(), shelf)
        || shelf.is_down()
    {
        return Told::Other;
    }
    match Drl::load(alloc, shelf, config, 0) {
        Ok(mut drl) => {
            if first > last || !has_region(config, last) {
                return Told::Other;
            }
            let once = said(drl.mark(shelf, first, last));
            if once != Told::Done {
                return once;
            }
            if cleared {
                let flushed = said(drl.flushed(shelf));
                if flushed != Told::Done {
                    return flushed;
                }
            }
            said(drl.mark(shelf, first, last))
        }
        Err(_) => Told::Other,
    }
}

// What a load answers.
fn load_said<S: Shelf>(alloc: Global, shelf: &mut S, config: &Config) -> Told {
    match loaded(alloc, shelf, config) {
        Ok(_) => Told::Done,
        Err(Stop::No(No::Device { disk })) => Told::Device(disk),
        Err(_) => Told::Other,
    }
}

// Marks of 100 regions are there behind a crash, and the first that are flushed behind a load are taken off.
#[test]
fn marks_are_there_behind_a_crash(rt: HostRuntime) -> Result<(), Fail> {
    let alloc = rt.alloc();
    let config = group(alloc)?;
    let mut shelf = fitted(alloc, &[])?;
    assert!(rt; marked(alloc, &mut shelf, &config, 5, 104) == Told::Done);
    shelf.crash(0);
    if shelf.is_down() {
        shelf.revive();
    }
    for (region, is) in [
        (4, Some(false)),
        (5, Some(true)),
        (104, Some(true)),
        (105, Some(false)),
        (128, None),
    ] {
        assert!(rt;
            is_dirty(alloc, &mut shelf, &config, region) == is,
            "{region}"
        );
    }
    assert!(rt; cleared(alloc, &mut shelf, &config) == Told::Done);
    for region in [5, 104] {
        assert!(rt;
            is_dirty(alloc, &mut shelf, &config, region) == Some(false),
            "{region}"
        );
    }
    Ok(())
}

// The first three calls read the log, write a mark and flush it. A mark of what is marked makes no call: each behind them would fail. Marks are
// taken off in two calls, the fourth and the fifth, and set again in two more.
#[test]
fn a_failing_disk_is_named(rt: HostRuntime) -> Result<(), Fail> {
    let alloc = rt.alloc();
    let config = group(alloc)?;
    for (fails, is_cleared, wanted) in [
        ([4, 5, 6, 7], false, Told::Done),
        ([4, 0, 0, 0], true, Told::Device(1)),
        ([5, 0, 0, 0], true, Told::Device(1)),
        ([7, 0, 0, 0], true, Told::Device(1)),
        ([8, 0, 0, 0], true, Told::Done),
    ] {
        let mut shelf = fitted(alloc, &fails)?;
        let told = marked_twice(alloc, &mut shelf, &config, 5, 9, is_cleared);
        assert!(rt; told == wanted, "{fails:?}");
    }
    // The second call, the write of the mark, fails: refusal 7 names the log's disk.
    let mut shelf = fitted(alloc, &[2])?;
    assert!(rt; marked(alloc, &mut shelf, &config, 7, 7) == Told::Device(1));
    assert!(rt; is_dirty(alloc, &mut shelf, &config, 7) == Some(false));
    // So it does where the load fails.
    let mut shelf = fitted(alloc, &[1])?;
    assert!(rt; load_said(alloc, &mut shelf, &config) == Told::Device(1));
    assert!(rt; load_said(alloc, &mut shelf, &config) == Told::Done);
    Ok(())
}
