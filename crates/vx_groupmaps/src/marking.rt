// Marks of the regions of a run of blocks, in both logs of a volume.
ghost use Rattle.std.specs.Prelude.{◌≡◌, ◌+◌, ◌<◌, ◌≤◌, ℕ, Bool, IsTrue, OnOk};
ghost use Rattle.vx_config.specs.Checks.{blocks_of as blocks_of_is, is_sound};
ghost use Rattle.vx_disk.specs.Shelf.{Goes};
ghost use Rattle.vx_groupmaps.specs.Missing.{HoldMissed, MapsCoverBy, MapsReady, or_run};
ghost use Rattle.vx_logs.specs.Dirtying.{DrlHolds};
ghost use Rattle.vx_logs.specs.Held.{LogsFit};
ghost use Rattle.vx_logs.specs.Writes.{MarkedAt, MarksLogs, StaleStill, first_region, last_region};
ghost use Rattle.vx_volume.specs.Plexes.{DisksFit};

use vx_config::{Config, blocks_of};
use vx_disk::Shelf;
use vx_logs::{Logs, Lost, mark};
use vx_model::No;
use vx_model::limits::REGION;

/// Marks the regions of a run of blocks durably, as `mark` of vx_logs does: before a write, and again behind one that failed a plex, which is
/// STALE by then. Answers which logs were lost, which the caller commits.
///
/// Behind it each plex that is STALE has noted the regions. The maps then have each region in which a plex that goes by its map differs from
/// the volume, where they had each but these. Maps of plexes that are ACTIVE stay empty. It makes no device call where all are marked. Refusal
/// 6, where the shelf is down.
pub fn mark_maps<S: Shelf>(
    logs: &mut Logs,
    config: &Config,
    vol: u32,
    shelf: &mut S,
    block: u64,
    count: u64,
) -> Result<Lost, No>
    requires checked { IsTrue (is_sound config.now) }
    requires fits { LogsFit config.now vol logs.old }
    requires some { 0 < count }
    requires within { block + count ≤ blocks_of_is config.now.volumes vol }
    requires disks { DisksFit config.now.disks (S.meaning shelf.old) }
    ensures writes { Goes (MarkedAt config.now vol (first_region block) (last_region block count) logs.old (S.meaning shelf.old)) (S.meaning shelf.old) (S.meaning shelf.new) }
    ensures marks { MarksLogs config.now vol (first_region block) (last_region block count) logs.old logs.new (S.meaning shelf.old) (S.meaning shelf.new) result }
    ensures fits { LogsFit config.now vol logs.new }
    ensures holds { OnOk result (HoldMissed config.now vol (first_region block) (last_region block count) logs.new) }
    ensures covers { (spare : ℕ → ℕ → Bool) → OnOk result (MapsCoverBy config.now vol (or_run (first_region block) (last_region block count) spare) logs.old (S.meaning shelf.old) → MapsCoverBy config.now vol spare logs.new (S.meaning shelf.new)) }
    ensures ready { OnOk result (MapsReady config.now vol logs.old → MapsReady config.now vol logs.new) }
    ensures nothing { DrlHolds (first_region block) (last_region block count) logs.old.drl → StaleStill config.now vol (first_region block) (last_region block count) logs.old.fmr → shelf.new ≡ shelf.old }
{
    // Read for its bound: no block of a volume is past 2^64.
    let _end = blocks_of(config, vol);
    let first = block / REGION;
    let last = (block + count - 1) / REGION;
    mark(logs, config, vol, shelf, first, last)
}
