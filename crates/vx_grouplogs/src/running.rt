// Marks of the regions of a run of blocks, before its plexes are written.
ghost use Rattle.std.specs.Prelude.{◌≡◌, ◌+◌, ◌<◌, ◌≤◌, IsTrue, OnOk, length};
ghost use Rattle.vx_config.specs.Checks.{blocks_of as blocks_of_is, is_sound};
ghost use Rattle.vx_disk.specs.Shelf.{Goes};
ghost use Rattle.vx_grouplogs.specs.Covering.{DiskCovers, KeepsOthers, MemoryCovers, OnLogs};
ghost use Rattle.vx_grouplogs.specs.Keeps.{KeepsGroup};
ghost use Rattle.vx_grouplogs.specs.Marking.{HoldRegions};
ghost use Rattle.vx_logs.specs.Dirtying.{DrlHolds};
ghost use Rattle.vx_logs.specs.Held.{LogsFit, LogsStand};
ghost use Rattle.vx_logs.specs.Writes.{MarksLogs, StaleStill, first_region, last_region};
ghost use Rattle.vx_volume.specs.Plexes.{DisksFit};

use vx_config::{Config, blocks_of};
use vx_disk::Shelf;
use vx_logs::{Logs, Lost, mark};
use vx_model::No;
use vx_model::limits::REGION;

/// Marks the regions of a run of blocks durably in the logs of a volume, and answers which logs were lost. The caller commits these as lost
/// before a plex is written. It makes no device call where all are marked.
///
/// It writes blocks of the logs alone. Whatever it answers, a crash leaves a log that has each region in which plexes differ. Refusal 6, where
/// the shelf is down.
pub fn mark_run<S: Shelf>(
    logs: &mut Logs,
    config: &Config,
    vol: u32,
    shelf: &mut S,
    block: u64,
    count: u64,
) -> Result<Lost, No>
    requires checked { IsTrue (is_sound config.now) }
    requires fits { LogsFit config.now vol logs.old }
    requires some { 0 < count }
    requires within { block + count ≤ blocks_of_is config.now.volumes vol }
    requires disks { DisksFit config.now.disks (S.meaning shelf.old) }
    ensures goes { Goes (OnLogs config.now vol) (S.meaning shelf.old) (S.meaning shelf.new) }
    ensures group { KeepsGroup config.now (S.meaning shelf.old) (S.meaning shelf.new) }
    ensures others { KeepsOthers config.now vol (S.meaning shelf.old) (S.meaning shelf.new) }
    ensures marks { MarksLogs config.now vol (first_region block) (last_region block count) logs.old logs.new (S.meaning shelf.old) (S.meaning shelf.new) result }
    ensures held { OnOk result (HoldRegions (first_region block) (last_region block count) logs.new) }
    ensures fits { LogsFit config.now vol logs.new }
    ensures stands { OnOk result (LogsStand logs.old (S.meaning shelf.old) → LogsStand logs.new (S.meaning shelf.new)) }
    ensures memory { OnOk result (MemoryCovers config.now vol logs.old (S.meaning shelf.old) → MemoryCovers config.now vol logs.new (S.meaning shelf.new)) }
    ensures covers { LogsStand logs.old (S.meaning shelf.old) → MemoryCovers config.now vol logs.old (S.meaning shelf.old) → DiskCovers config.now vol (S.meaning shelf.old) → DiskCovers config.now vol (S.meaning shelf.new) }
    ensures nothing { DrlHolds (first_region block) (last_region block count) logs.old.drl → StaleStill config.now vol (first_region block) (last_region block count) logs.old.fmr → shelf.new ≡ shelf.old }
{
    // Read for its bound: no block of a volume is past 2^64.
    let _end = blocks_of(config, vol);
    let first = block / REGION;
    let last = (block + count - 1) / REGION;
    match mark(logs, config, vol, shelf, first, last) {
        Ok(lost) => Ok(lost),
        Err(no) => Err(no),
    }
}
