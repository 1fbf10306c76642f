// The maps of all plexes that take part.
ghost use Rattle.std.specs.Prelude.{◌≡◌, ◌<◌, ℕ, Bool, IsTrue, OnOk};
ghost use Rattle.vx_config.specs.Checks.{blocks_of as blocks_of_is, is_sound};
ghost use Rattle.vx_disk.specs.Shelf.{Goes};
ghost use Rattle.vx_groupmaps.specs.Missing.{MapsCoverBy, MapsReady, OnMaps};
ghost use Rattle.vx_groupmaps.specs.Readying.{ReadyAnswers};
ghost use Rattle.vx_logs.specs.Held.{LogsFit, LogsStand};
ghost use Rattle.vx_volume.specs.Plexes.{DisksFit};

use crate::beginning::begin_map;
use vx_config::Config;
use vx_disk::Shelf;
use vx_logs::Logs;
use vx_model::No;
use vx_model::limits::MOST_PLEXES;
use vx_volume::is_active;

/// Empties the map of each plex of a volume that is ACTIVE, durably, so that one which a write fails later has missed no region yet. Answers
/// whether the log was lost, which the caller commits. It makes no device call where these maps are empty.
///
/// It writes blocks of that log alone. Whatever it answers, the maps in memory go on to have each region in which a plex that goes by its map
/// differs from the volume. Refusal 6, where the shelf is down.
pub fn ready_maps<S: Shelf>(
    logs: &mut Logs,
    config: &Config,
    vol: u32,
    shelf: &mut S,
) -> Result<bool, No>
    requires checked { IsTrue (is_sound config.now) }
    requires fits { LogsFit config.now vol logs.old }
    requires some { 0 < blocks_of_is config.now.volumes vol }
    requires disks { DisksFit config.now.disks (S.meaning shelf.old) }
    ensures goes { Goes (OnMaps config.now vol) (S.meaning shelf.old) (S.meaning shelf.new) }
    ensures answers { ReadyAnswers config.now vol logs.old logs.new (S.meaning shelf.old) (S.meaning shelf.new) result }
    ensures drl { logs.new.drl ≡ logs.old.drl }
    ensures fits { LogsFit config.now vol logs.new }
    ensures ready { OnOk result (MapsReady config.now vol logs.new) }
    ensures stands { OnOk result (LogsStand logs.old (S.meaning shelf.old) → LogsStand logs.new (S.meaning shelf.new)) }
    ensures covers { (spare : ℕ → ℕ → Bool) → MapsCoverBy config.now vol spare logs.old (S.meaning shelf.old) → MapsCoverBy config.now vol spare logs.new (S.meaning shelf.new) }
    ensures nothing { MapsReady config.now vol logs.old → shelf.new ≡ shelf.old }
{
    for plex in 0..MOST_PLEXES as u32 {
        if is_active(config, vol, plex) {
            match begin_map(logs, config, vol, shelf, plex) {
                Ok(gone) => {
                    if gone {
                        return Ok(true);
                    }
                }
                Err(no) => return Err(no),
            }
        }
    }
    Ok(false)
}
