// The maps of plexes that may have missed anything.
ghost use Rattle.std.specs.Prelude.{◌≡◌, ◌-◌, ◌/◌, ◌<◌, ◌≤◌, ℕ, Bool, IsTrue, OnOk};
ghost use Rattle.vx_config.specs.Checks.{blocks_of as blocks_of_is, is_sound};
ghost use Rattle.vx_disk.specs.Shelf.{Goes};
ghost use Rattle.vx_groupmaps.specs.Filling.{AreFilled, FillAnswers, FilledAt, HasMapRegion, LostAnswers};
ghost use Rattle.vx_groupmaps.specs.Missing.{MapsCoverBy, MapsReady, OnMaps, by_map, or_set};
ghost use Rattle.vx_logs.specs.Held.{LogsFit, LogsStand};
ghost use Rattle.vx_logs.specs.Noting.{FmrKeeps};
ghost use Rattle.vx_model.specs.declared.limits.TheConstants.{REGION};
ghost use Rattle.vx_volume.specs.Plexes.{DisksFit};

use crate::flushing::goes_by_map;
use vx_config::{Config, blocks_of};
use vx_disk::Shelf;
use vx_fmr::Fmr;
use vx_logs::{Logs, is_in};
use vx_model::No;
use vx_model::limits::{MOST_PLEXES, REGION};

// Fills the map of a plex up to a region, where there is a log. Answers whether it was lost.
fn fill_one<S: Shelf>(
    fmr: &mut Option<Fmr>,
    shelf: &mut S,
    plex: u32,
    last: u64,
) -> Result<bool, No>
    requires has { HasMapRegion plex last fmr.old (S.meaning shelf.old) }
    ensures writes { Goes (FilledAt plex last fmr.old (S.meaning shelf.old)) (S.meaning shelf.old) (S.meaning shelf.new) }
    ensures answers { FillAnswers plex last fmr.old fmr.new (S.meaning shelf.old) (S.meaning shelf.new) result }
    ensures keeps { FmrKeeps fmr.old fmr.new }
{
    match fmr {
        Some(map) => match map.note(shelf, plex, 0, last) {
            Ok(()) => Ok(false),
            Err(No::Device { .. }) => {
                *fmr = None;
                Ok(true)
            }
            Err(no) => Err(no),
        },
        None => Ok(false),
    }
}

/// Fills the map of each plex of a set that goes by its map, durably, so that its next attach copies all regions: behind an import that copied
/// the volume, for plexes that were detached while others read another value, and before a deport at which a plex could not be made durable. Answers whether the log was lost, which the caller commits.
///
/// It writes blocks of that log alone. The maps in memory then have each region in which a plex that goes by its map differs from the volume,
/// where they had each of the plexes out of the set. Refusal 6, where the shelf is down.
pub fn fill_maps<S: Shelf>(
    logs: &mut Logs,
    config: &Config,
    vol: u32,
    shelf: &mut S,
    set: u8,
) -> Result<bool, No>
    requires checked { IsTrue (is_sound config.now) }
    requires fits { LogsFit config.now vol logs.old }
    requires some { 0 < blocks_of_is config.now.volumes vol }
    requires disks { DisksFit config.now.disks (S.meaning shelf.old) }
    ensures goes { Goes (OnMaps config.now vol) (S.meaning shelf.old) (S.meaning shelf.new) }
    ensures answers { LostAnswers logs.old.fmr logs.new.fmr (S.meaning shelf.old) (S.meaning shelf.new) result }
    ensures drl { logs.new.drl ≡ logs.old.drl }
    ensures fits { LogsFit config.now vol logs.new }
    ensures filled { OnOk result (AreFilled config.now vol set ((blocks_of_is config.now.volumes vol - 1) / REGION) logs.new) }
    ensures stands { OnOk result (LogsStand logs.old (S.meaning shelf.old) → LogsStand logs.new (S.meaning shelf.new)) }
    ensures covers { (spare : ℕ → ℕ → Bool) → OnOk result (MapsCoverBy config.now vol (or_set set spare) logs.old (S.meaning shelf.old) → MapsCoverBy config.now vol spare logs.new (S.meaning shelf.new)) }
    ensures ready { OnOk result (MapsReady config.now vol logs.old → MapsReady config.now vol logs.new) }
{
    let last = (blocks_of(config, vol) - 1) / REGION;
    for plex in 0..MOST_PLEXES as u32 {
        if is_in(set, plex) {
            if goes_by_map(config, vol, plex) {
                match fill_one(&mut logs.fmr, shelf, plex, last) {
                    Ok(gone) => {
                        if gone {
                            return Ok(true);
                        }
                    }
                    Err(no) => return Err(no),
                }
            }
        }
    }
    Ok(false)
}
