// Writes of a volume with its logs.
ghost use Rattle.std.specs.Prelude.{◌≡◌, ◌+◌, ◌/◌, ◌%◌, ◌^◌, ◌<◌, ◌≤◌, IsTrue, length};
ghost use Rattle.vx_config.specs.Checks.{blocks_of as blocks_of_is, is_sound};
ghost use Rattle.vx_disk.specs.Moves.{Along};
ghost use Rattle.vx_disk.specs.Shelf.{Goes};
ghost use Rattle.vx_logs.specs.Dirtying.{DrlHolds};
ghost use Rattle.vx_logs.specs.Held.{LogsFit};
ghost use Rattle.vx_logs.specs.Marks.{MarksFirst};
ghost use Rattle.vx_logs.specs.Writes.{MarkedAt, MarksLogs, PutAt, PutsPlexes, StaleStill, WritesMarked, WritesPlexes, first_region as first_region_is, last_region as last_region_is};
ghost use Rattle.vx_model.specs.Sizes.{regions_of};
ghost use Rattle.vx_volume.specs.Plexes.{DisksFit, SomeActive};

use crate::logs::{Logs, Lost};
use crate::marking::mark_dirty;
use crate::noting::note_missed;
use crate::sets::stale_set;
use vx_config::{Config, blocks_of};
use vx_disk::Shelf;
use vx_model::No;
use vx_model::limits::{BLOCK, REGION};
use vx_volume::{Failed, write_all};

/// What a write of the plexes did.
#[derive(Clone, Copy, Debug, PartialEq, Eq)]
pub struct Stored {
    /// The plexes that failed.
    pub failed: Failed,
    /// Whether the log of missed regions was lost as their maps began.
    pub lost: bool,
}

/// What a write did.
#[derive(Clone, Copy, Debug, PartialEq, Eq)]
pub enum Written {
    /// The plexes have the blocks, but those that failed.
    Stored(Stored),
    /// No plex was written: a region could not be marked, and these logs are lost.
    Lost(Lost),
}

// The region of a block.
fn first_region(block: u64) -> u64
    ensures { result ≡ first_region_is block }
{
    block / REGION
}

// The region of the last of a run of blocks.
fn last_region(block: u64, bytes: &[u8]) -> u64
    requires end { block + length bytes.now / BLOCK < 2 ^ 64 }
    requires some { 0 < length bytes.now / BLOCK }
    ensures { result ≡ last_region_is block (length bytes.now / BLOCK) }
{
    (block + (bytes.len() / BLOCK) as u64 - 1) / REGION
}

/// Marks the regions from `first` to `last`, both included, durably: as dirty, and as missed by each plex that is STALE. Answers which logs
/// were lost. It makes no device call where all are marked.
///
/// Refusal 6, where the shelf is down.

pub fn mark<S: Shelf>(
    logs: &mut Logs,
    config: &Config,
    vol: u32,
    shelf: &mut S,
    first: u64,
    last: u64,
) -> Result<Lost, No>
    requires checked { IsTrue (is_sound config.now) }
    requires fits { LogsFit config.now vol logs.old }
    requires some { first ≤ last }
    requires inside { last < regions_of (blocks_of_is config.now.volumes vol) }
    requires disks { DisksFit config.now.disks (S.meaning shelf.old) }
    ensures writes { Goes (MarkedAt config.now vol first last logs.old (S.meaning shelf.old)) (S.meaning shelf.old) (S.meaning shelf.new) }
    ensures marks { MarksLogs config.now vol first last logs.old logs.new (S.meaning shelf.old) (S.meaning shelf.new) result }
    ensures fits { LogsFit config.now vol logs.new }
    ensures nothing { DrlHolds first last logs.old.drl → StaleStill config.now vol first last logs.old.fmr → shelf.new ≡ shelf.old }
{
    let stale = stale_set(config, vol);
    match mark_dirty(&mut logs.drl, shelf, first, last) {
        Ok(drl) => match note_missed(&mut logs.fmr, shelf, stale, false, first, last) {
            Ok(fmr) => Ok(Lost { drl, fmr }),
            Err(no) => Err(no),
        },
        Err(no) => Err(no),
    }
}

/// Writes whole blocks to each plex that is ACTIVE. The maps of those that fail begin anew, with the regions of this write.
///
/// Answers the plexes that failed, where one that is ACTIVE did not, and whether the log of missed regions was lost. The caller commits
/// both. 7 where each plex failed in this call, and 6 where the shelf is down.
pub fn put<S: Shelf>(
    logs: &mut Logs,
    config: &Config,
    vol: u32,
    shelf: &mut S,
    block: u64,
    bytes: &[u8],
) -> Result<Stored, No>
    requires checked { IsTrue (is_sound config.now) }
    requires fits { LogsFit config.now vol logs.old }
    requires volume { vol < length config.now.volumes }
    requires within { block + length bytes.now / BLOCK ≤ blocks_of_is config.now.volumes vol }
    requires whole { length bytes.now % BLOCK ≡ 0 }
    requires many { 0 < length bytes.now }
    requires some { SomeActive config.now vol }
    requires disks { DisksFit config.now.disks (S.meaning shelf.old) }
    requires up { IsTrue (S.meaning shelf.old).down → ⊥ }
    ensures writes { Goes (PutAt config.now vol block (length bytes.now / BLOCK) bytes.now logs.old (S.meaning shelf.old)) (S.meaning shelf.old) (S.meaning shelf.new) }
    ensures puts { PutsPlexes config.now vol block (length bytes.now / BLOCK) bytes.now logs.old logs.new (S.meaning shelf.old) (S.meaning shelf.new) result }
    ensures fits { LogsFit config.now vol logs.new }
{
    // Read for its bound: no block of a volume is past 2^64.
    let _end = blocks_of(config, vol);
    let first = first_region(block);
    let last = last_region(block, bytes);
    match write_all(config, vol, shelf, block, bytes) {
        Ok(failed) => match note_missed(&mut logs.fmr, shelf, failed.set, true, first, last) {
            Ok(lost) => Ok(Stored { failed, lost }),
            Err(no) => Err(no),
        },
        Err(no) => Err(no),
    }
}

/// Writes whole blocks to each plex that is ACTIVE, behind durable marks of their regions in the logs.
///
/// Where a region cannot be marked, no plex is written and the log is lost: the caller commits that, and then goes on with `put`. Answers
/// else what `put` does. 7 where each plex failed in this call, and 6 where the shelf is down.

pub fn write<S: Shelf>(
    logs: &mut Logs,
    config: &Config,
    vol: u32,
    shelf: &mut S,
    block: u64,
    bytes: &[u8],
) -> Result<Written, No>
    requires checked { IsTrue (is_sound config.now) }
    requires fits { LogsFit config.now vol logs.old }
    requires volume { vol < length config.now.volumes }
    requires within { block + length bytes.now / BLOCK ≤ blocks_of_is config.now.volumes vol }
    requires whole { length bytes.now % BLOCK ≡ 0 }
    requires many { 0 < length bytes.now }
    requires some { SomeActive config.now vol }
    requires disks { DisksFit config.now.disks (S.meaning shelf.old) }
    requires up { IsTrue (S.meaning shelf.old).down → ⊥ }
    ensures goes { Goes (WritesPlexes config.now vol block (length bytes.now / BLOCK) bytes.now logs.old (S.meaning shelf.old)) (S.meaning shelf.old) (S.meaning shelf.new) }
    ensures first { Along (S.meaning shelf.old) (S.meaning shelf.new) (MarksFirst config.now vol (first_region_is block) (last_region_is block (length bytes.now / BLOCK)) logs.old (S.meaning shelf.old)) }
    ensures writes { WritesMarked config.now vol block (length bytes.now / BLOCK) bytes.now logs.old logs.new (S.meaning shelf.old) (S.meaning shelf.new) result }
    ensures fits { LogsFit config.now vol logs.new }
{
    // Read for its bound: no block of a volume is past 2^64.
    let _end = blocks_of(config, vol);
    let first = first_region(block);
    let last = last_region(block, bytes);
    match mark(logs, config, vol, shelf, first, last) {
        Ok(lost) => {
            if lost.drl || lost.fmr {
                return Ok(Written::Lost(lost));
            }
            match put(logs, config, vol, shelf, block, bytes) {
                Ok(stored) => Ok(Written::Stored(stored)),
                Err(no) => Err(no),
            }
        }
        Err(no) => Err(no),
    }
}
