// The group that several files test: a volume of 256 blocks, which are 4 regions, on a plex of disk 0 and one of disk 1, with its logs on disk 2.
ghost use Rattle.std.specs.Prelude.{◌≡◌, ◌<◌, IsFalse, IsTrue};
ghost use Rattle.vx_config.specs.Checks.{blocks_of as blocks_of_is, is_sound};
ghost use Rattle.vx_logs.specs.Held.{LogsFit};
ghost use Rattle.vx_model.specs.Sizes.{regions_of};
ghost use Rattle.vx_volume.specs.Plexes.{DisksFit};

use std::alloc::Global;
use vx_config::{
    Config, DiskEntry, Disks, LogEntry, PlexEntry, Plexes, Subdisk, Subdisks, VolumeEntry, Volumes,
    blocks_of, check,
};
use vx_disk::{MemShelf, Rack, Shelf};
use vx_logs::Logs;
use vx_model::{Name, OutOfMemory, PlexState};
use vx_volume::plex_count;

// These blocks of a disk.
pub fn run(disk: u8, start: u64, blocks: u64) -> Subdisk {
    Subdisk {
        disk,
        start,
        blocks,
    }
}

// A disk of so many blocks that has not failed.
pub fn good(blocks: u64) -> DiskEntry {
    DiskEntry {
        blocks,
        failed: false,
    }
}

// A log of so many blocks on disk 2, from this one on.
pub fn log(start: u64, blocks: u64) -> LogEntry {
    LogEntry {
        lost: false,
        disk: 2,
        start,
        blocks,
    }
}

fn plex(alloc: Global, disk: u8, state: PlexState) -> Result<PlexEntry, OutOfMemory> {
    let mut subdisks = Subdisks::new(alloc);
    subdisks.push(run(disk, 512, 256))?;
    Ok(PlexEntry {
        state,
        whole: false,
        subdisks,
    })
}

// The group with its second plex in this state, these logs, and a disk of logs that has failed or not.
pub fn mirror(
    alloc: Global,
    state: PlexState,
    failed: bool,
    drl: Option<LogEntry>,
    fmr: Option<LogEntry>,
) -> Result<Config, OutOfMemory> {
    let mut disks = Disks::new();
    disks.push(good(1024));
    disks.push(good(1024));
    disks.push(DiskEntry {
        blocks: 1024,
        failed,
    });
    let mut plexes = Plexes::new(alloc);
    plexes.push(plex(alloc, 0, PlexState::Active)?)?;
    plexes.push(plex(alloc, 1, state)?)?;
    let mut volumes = Volumes::new(alloc);
    volumes.push(VolumeEntry {
        name: Name::new(b"v"),
        blocks: 256,
        ncol: 1,
        width: 0,
        prefer: None,
        drl,
        fmr,
        plexes,
    })?;
    Ok(Config {
        serial: 1,
        site: 0,
        disks,
        volumes,
        rvg: None,
    })
}

// A shelf in memory of three disks of 1,024 blocks, of which the calls with these numbers fail.
pub fn fitted(alloc: Global, fails: &[u64]) -> Result<MemShelf, OutOfMemory> {
    let mut shelf = MemShelf::new(alloc, fails)?;
    if shelf.fit(alloc, None, 0, 3, 1024).is_err() {
        return Err(OutOfMemory);
    }
    Ok(shelf)
}

// Whether each disk of a configuration is a unit of the shelf with its blocks.
pub fn disks_fit<S: Shelf>(disks: &[DiskEntry], shelf: &S) -> bool
    ensures { IsTrue result → DisksFit disks.now (S.meaning shelf.now) }
{
    for k in 0..disks.len() {
        if k >= shelf.units() as usize || shelf.size(k as u32) != disks[k].blocks {
            return false;
        }
    }
    true
}

// Whether the volume is there with this block, on a shelf that is up.
pub fn is_ready<S: Shelf>(config: &Config, shelf: &S, block: u64) -> bool
    ensures sound { IsTrue result → IsTrue (is_sound config.now) }
    ensures inside { IsTrue result → block < blocks_of_is config.now.volumes 0 }
    ensures disks { IsTrue result → DisksFit config.now.disks (S.meaning shelf.now) }
    ensures up { IsTrue result → IsFalse (S.meaning shelf.now).down }
{
    if !check(config) || block >= blocks_of(config, 0) {
        return false;
    }
    disks_fit(config.disks.as_slice(), shelf) && !shelf.is_down()
}

// Whether the volume has a region of this number.
pub fn has_region(config: &Config, region: u64) -> bool
    ensures { IsTrue result → region < regions_of (blocks_of_is config.now.volumes 0) }
{
    region < blocks_of(config, 0).div_ceil(64)
}

// Whether a region is marked.
pub fn is_dirty(logs: &Logs, config: &Config, region: u64) -> bool
    requires fits { LogsFit config.now 0 logs.now }
{
    if !has_region(config, region) {
        return false;
    }
    match &logs.drl {
        Some(drl) => drl.dirty(region),
        None => false,
    }
}

// Whether a region is noted for a plex.
pub fn has_missed(logs: &Logs, config: &Config, plex: u32, region: u64) -> bool
    requires fits { LogsFit config.now 0 logs.now }
{
    if !has_region(config, region) || plex >= plex_count(config, 0) {
        return false;
    }
    match &logs.fmr {
        Some(fmr) => fmr.missed(plex, region),
        None => false,
    }
}
