// The log of missed regions of a volume as an import takes it up.
ghost use Rattle.std.specs.Prelude.{◌≡◌, ◌<◌, IfErr, IfOk, IsFalse, IsTrue, Some};
ghost use Rattle.vx_config.specs.Checks.{blocks_of as blocks_of_is, is_sound};
ghost use Rattle.vx_disk.specs.Shelf.{Goes, Nothing};
ghost use Rattle.vx_fmr.specs.Missed.{FmrLoaded, Missed, has_missed};
ghost use Rattle.vx_groupmaps.specs.Loading.{LoadIsRefused, TakesMaps, on_failed_disk as on_failed_is};
ghost use Rattle.vx_groupmaps.specs.Missing.{DiskAgrees, MapAgrees};
ghost use Rattle.vx_volume.specs.Plexes.{DisksFit};

use std::alloc::Global;
use vx_config::{Config, VolumeLog};
use vx_disk::Shelf;
use vx_fmr::Fmr;
use vx_logs::load_fmr;
use vx_maplog::{is_used, log_of};
use vx_model::{No, Stop};

/// A log of missed regions that was taken up.
#[derive(Drop)]
pub struct LoadedMaps {
    /// None where the volume has none in use, or where it is lost.
    pub fmr: Option<Fmr>,
    /// It was in use, and is lost.
    pub gone: bool,
}

/// Whether a volume has such a log that is not lost, on a disk that is held as failed.
pub fn on_failed_disk(config: &Config, vol: u32, log: VolumeLog) -> bool
    ensures { result ≡ on_failed_is config.now vol log }
{
    match log_of(config, vol, log) {
        Some(entry) => match config.disks.as_slice().get(entry.disk as usize) {
            Some(disk) => !entry.lost && disk.failed,
            None => false,
        },
        None => false,
    }
}

/// Reads the log of missed regions of a volume of a checked configuration. It is lost where its disk is held as failed, or where the device
/// call fails: the caller commits that, and the next attach of each plex copies all regions. It changes nothing.
///
/// Where a crash leaves of the log and of the plexes what agrees, the maps in memory have each region in which a plex that goes by its map
/// differs from the volume. It takes the memory of the maps' blocks. Refusal 6, where the shelf is down.
pub fn load_maps<S: Shelf>(
    alloc: Global,
    shelf: &mut S,
    config: &Config,
    vol: u32,
) -> Result<LoadedMaps, Stop>
    requires checked { IsTrue (is_sound config.now) }
    requires some { 0 < blocks_of_is config.now.volumes vol }
    requires disks { DisksFit config.now.disks (S.meaning shelf.old) }
    requires up { IsFalse (S.meaning shelf.old).down }
    ensures takes { IfOk result (λ loaded. TakesMaps config.now vol loaded.fmr loaded.gone (S.meaning shelf.old) (S.meaning shelf.new)) }
    ensures fits { IfOk result (λ loaded. (f : Missed) → loaded.fmr ≡ Some f → FmrLoaded config.now vol f) }
    ensures covers { DiskAgrees config.now vol (S.meaning shelf.old) → IfOk result (λ loaded. (f : Missed) → loaded.fmr ≡ Some f → IsFalse (S.meaning shelf.new).down → MapAgrees config.now vol (has_missed f) (S.meaning shelf.new).reads) }
    ensures goes { Goes Nothing (S.meaning shelf.old) (S.meaning shelf.new) }
    ensures cause { IfErr result (LoadIsRefused (S.meaning shelf.new)) }
{
    if !is_used(config, vol, VolumeLog::Fmr) {
        return Ok(LoadedMaps {
            fmr: None,
            gone: false,
        });
    }
    if on_failed_disk(config, vol, VolumeLog::Fmr) {
        return Ok(LoadedMaps {
            fmr: None,
            gone: true,
        });
    }
    match load_fmr(alloc, shelf, config, vol) {
        Ok(fmr) => Ok(LoadedMaps { fmr, gone: false }),
        Err(Stop::No(No::Device { .. })) => Ok(LoadedMaps {
            fmr: None,
            gone: true,
        }),
        Err(stop) => Err(stop),
    }
}
