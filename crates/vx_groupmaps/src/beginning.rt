// The map of a plex that is emptied.
ghost use Rattle.std.specs.Prelude.{◌≡◌, ◌<◌, ℕ, Bool, IsTrue, OnOk, false};
ghost use Rattle.vx_config.specs.Checks.{blocks_of as blocks_of_is, is_sound, plexes_of};
ghost use Rattle.vx_disk.specs.Shelf.{Goes};
ghost use Rattle.vx_groupmaps.specs.Beginning.{EmptiedAt, EmptyAnswers, HasPlexMap, IsMapEmpty};
ghost use Rattle.vx_groupmaps.specs.Missing.{MapsCoverBy, MapsReady, OnMaps, by_map};
ghost use Rattle.vx_logs.specs.Held.{LogsFit, LogsStand};
ghost use Rattle.vx_logs.specs.Noting.{FmrKeeps};
ghost use Rattle.vx_volume.specs.Plexes.{DisksFit};

use vx_config::Config;
use vx_disk::Shelf;
use vx_fmr::Fmr;
use vx_logs::Logs;
use vx_model::No;

// Empties the map of a plex, where there is a log. Answers whether it was lost.
fn empty_one<S: Shelf>(fmr: &mut Option<Fmr>, shelf: &mut S, plex: u32) -> Result<bool, No>
    requires has { HasPlexMap plex fmr.old (S.meaning shelf.old) }
    ensures writes { Goes (EmptiedAt plex fmr.old (S.meaning shelf.old)) (S.meaning shelf.old) (S.meaning shelf.new) }
    ensures answers { EmptyAnswers plex fmr.old fmr.new (S.meaning shelf.old) (S.meaning shelf.new) result }
    ensures keeps { FmrKeeps fmr.old fmr.new }
    ensures nothing { IsMapEmpty plex fmr.old → shelf.new ≡ shelf.old }
{
    match fmr {
        Some(map) => match map.begin(shelf, plex) {
            Ok(()) => Ok(false),
            Err(No::Device { .. }) => {
                *fmr = None;
                Ok(true)
            }
            Err(no) => Err(no),
        },
        None => Ok(false),
    }
}

/// Empties the map of a plex of a volume durably, where the volume has a log of missed regions. Answers whether the log was lost, which the
/// caller commits. It makes no device call where the map is empty.
///
/// It writes blocks of that log alone, and no other plex's map changes. Whatever it answers, the maps in memory go on to have each region in
/// which a plex that goes by its map differs from the volume, where this plex is none of those. Refusal 6, where the shelf is down.
pub fn begin_map<S: Shelf>(
    logs: &mut Logs,
    config: &Config,
    vol: u32,
    shelf: &mut S,
    plex: u32,
) -> Result<bool, No>
    requires checked { IsTrue (is_sound config.now) }
    requires fits { LogsFit config.now vol logs.old }
    requires some { 0 < blocks_of_is config.now.volumes vol }
    requires exists { plex < plexes_of config.now vol }
    requires disks { DisksFit config.now.disks (S.meaning shelf.old) }
    ensures goes { Goes (OnMaps config.now vol) (S.meaning shelf.old) (S.meaning shelf.new) }
    ensures answers { EmptyAnswers plex logs.old.fmr logs.new.fmr (S.meaning shelf.old) (S.meaning shelf.new) result }
    ensures drl { logs.new.drl ≡ logs.old.drl }
    ensures fits { LogsFit config.now vol logs.new }
    ensures stands { OnOk result (LogsStand logs.old (S.meaning shelf.old) → LogsStand logs.new (S.meaning shelf.new)) }
    ensures covers { (spare : ℕ → ℕ → Bool) → by_map config.now vol plex ≡ false → MapsCoverBy config.now vol spare logs.old (S.meaning shelf.old) → MapsCoverBy config.now vol spare logs.new (S.meaning shelf.new) }
    ensures ready { OnOk result (MapsReady config.now vol logs.old → MapsReady config.now vol logs.new) }
    ensures nothing { IsMapEmpty plex logs.old.fmr → shelf.new ≡ shelf.old }
{
    empty_one(&mut logs.fmr, shelf, plex)
}
