// What no clause says: that notes succeed on a shelf in memory and are there behind a crash, and which disk a refusal names.
ghost use Rattle.std.specs.Prelude.{IfOk};
ghost use Rattle.vx_fmr.specs.Missed.{FmrLoaded};

use crate::mirrors::{good, has_region, run};
use std::alloc::Global;
use std::test::*;
use vx_config::{
    Config, Disks, LogEntry, PlexEntry, Plexes, Subdisks, VolumeEntry, VolumeLog, Volumes,
};
use vx_disk::{MemShelf, Rack, Shelf};
use vx_fmr::Fmr;
use vx_maplog::{disks_fit, has_log, plexes_of};
use vx_model::{Name, No, OutOfMemory, PlexState, Stop};

const LOG: LogEntry = LogEntry {
    lost: false,
    disk: 1,
    start: 600,
    blocks: 2,
};

// A volume of 7,872 blocks on two plexes, both on disk 0, whose log of missed regions is blocks 600 and 601 of disk 1.
fn group(alloc: Global) -> Result<Config, OutOfMemory> {
    let mut disks = Disks::new();
    disks.push(good(16_384));
    disks.push(good(16_384));
    let mut one = Subdisks::new(alloc);
    one.push(run(0, 512, 7872))?;
    let mut two = Subdisks::new(alloc);
    two.push(run(0, 8384, 7872))?;
    let mut plexes = Plexes::new(alloc);
    plexes.push(PlexEntry {
        state: PlexState::Active,
        whole: false,
        subdisks: one,
    })?;
    plexes.push(PlexEntry {
        state: PlexState::Stale,
        whole: false,
        subdisks: two,
    })?;
    let mut volumes = Volumes::new(alloc);
    volumes.push(VolumeEntry {
        name: Name::new(b"v"),
        blocks: 7872,
        ncol: 1,
        width: 0,
        prefer: None,
        drl: None,
        fmr: Some(LOG),
        plexes,
    })?;
    Ok(Config {
        serial: 1,
        site: 0,
        disks,
        volumes,
        rvg: None,
    })
}

// A shelf in memory of two disks of 16,384 blocks, of which the calls with these numbers fail.
fn fitted(alloc: Global, fails: &[u64]) -> Result<MemShelf, OutOfMemory> {
    let mut shelf = MemShelf::new(alloc, fails)?;
    if shelf.fit(alloc, None, 0, 2, 16_384).is_err() {
        return Err(OutOfMemory);
    }
    Ok(shelf)
}

fn loaded<S: Shelf>(alloc: Global, shelf: &mut S, config: &Config) -> Result<Fmr, Stop>
    ensures { IfOk result (λ fmr. FmrLoaded config.now 0 fmr) }
{
    if !has_log(config, 0, VolumeLog::Fmr)
        || !disks_fit(config.disks.as_slice(), shelf)
        || shelf.is_down()
    {
        return Err(Stop::No(No::Role));
    }
    Fmr::load(alloc, shelf, config, 0)
}

#[derive(Clone, Copy, PartialEq, Eq)]
enum Told {
    Done,
    Device(u32),
    Other,
}

fn said(res: Result<(), No>) -> Told {
    match res {
        Ok(()) => Told::Done,
        Err(No::Device { disk }) => Told::Device(disk),
        Err(_) => Told::Other,
    }
}

// Reads the log and notes a run of regions for a plex.
fn noted<S: Shelf>(
    alloc: Global,
    shelf: &mut S,
    config: &Config,
    plex: u32,
    first: u64,
    last: u64,
) -> Told {
    if !has_log(config, 0, VolumeLog::Fmr)
        || !disks_fit(config.disks.as_slice(), shelf)
        || shelf.is_down()
    {
        return Told::Other;
    }
    match Fmr::load(alloc, shelf, config, 0) {
        Ok(mut fmr) => {
            if u64::from(plex) >= plexes_of(config, 0)
                || first > last
                || !has_region(config, last)
            {
                return Told::Other;
            }
            said(fmr.note(shelf, plex, first, last))
        }
        Err(_) => Told::Other,
    }
}

// Reads the log and empties the map of a plex.
fn begun<S: Shelf>(alloc: Global, shelf: &mut S, config: &Config, plex: u32) -> Told {
    if !has_log(config, 0, VolumeLog::Fmr)
        || !disks_fit(config.disks.as_slice(), shelf)
        || shelf.is_down()
    {
        return Told::Other;
    }
    match Fmr::load(alloc, shelf, config, 0) {
        Ok(mut fmr) => {
            if u64::from(plex) >= plexes_of(config, 0) {
                return Told::Other;
            }
            said(fmr.begin(shelf, plex))
        }
        Err(_) => Told::Other,
    }
}

// Whether a region is noted for a plex, where the log can be read.
fn has_missed<S: Shelf>(
    alloc: Global,
    shelf: &mut S,
    config: &Config,
    plex: u32,
    region: u64,
) -> Option<bool> {
    match loaded(alloc, shelf, config) {
        Ok(fmr) => {
            if u64::from(plex) < plexes_of(config, 0) && has_region(config, region) {
                Some(fmr.missed(plex, region))
            } else {
                None
            }
        }
        Err(_) => None,
    }
}

// Notes are there behind a crash, and the map of one plex is emptied without that of the other. Where the second call, the write of a note, fails,
// refusal 7 names the log's disk.
#[test]
fn each_plex_has_its_map(rt: HostRuntime) -> Result<(), Fail> {
    let alloc = rt.alloc();
    let config = group(alloc)?;
    let mut shelf = fitted(alloc, &[])?;
    for (plex, first, last) in [(0, 5, 104), (1, 7, 7)] {
        assert!(rt;
            noted(alloc, &mut shelf, &config, plex, first, last) == Told::Done,
            "{plex}"
        );
    }
    shelf.crash(0);
    if shelf.is_down() {
        shelf.revive();
    }
    for (plex, region, is) in [(0, 104, true), (0, 105, false), (1, 7, true), (1, 8, false)] {
        let missed = has_missed(alloc, &mut shelf, &config, plex, region);
        assert!(rt; missed == Some(is), "{plex}, {region}");
    }
    assert!(rt; begun(alloc, &mut shelf, &config, 0) == Told::Done);
    for (plex, is) in [(0, false), (1, true)] {
        assert!(rt;
            has_missed(alloc, &mut shelf, &config, plex, 7) == Some(is),
            "{plex}"
        );
    }
    let mut shelf = fitted(alloc, &[2])?;
    assert!(rt; noted(alloc, &mut shelf, &config, 1, 7, 7) == Told::Device(1));
    assert!(rt; has_missed(alloc, &mut shelf, &config, 1, 7) == Some(false));
    Ok(())
}
