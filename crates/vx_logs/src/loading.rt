// The logs of a volume as they are read.
ghost use Rattle.std.specs.Prelude.{◌≡◌, ◌<◌, IfErr, IfOk, IsFalse, IsTrue};
ghost use Rattle.vx_bitmap.specs.Maps.{LoadCause};
ghost use Rattle.vx_config.specs.Checks.{blocks_of as blocks_of_is, is_sound};
ghost use Rattle.vx_disk.specs.Shelf.{Goes, Nothing};
ghost use Rattle.vx_logs.specs.Held.{DrlFound, FmrFound};
ghost use Rattle.vx_volume.specs.Plexes.{DisksFit};

use std::alloc::Global;
use vx_config::{Config, VolumeLog};
use vx_disk::Shelf;
use vx_drl::Drl;
use vx_fmr::Fmr;
use vx_maplog::is_used;
use vx_model::Stop;

/// Reads the dirty region log of a volume of a checked configuration; none where it has none, or where that is lost. It changes nothing.
/// Where a crash leaves one value at most in each block of the log, the log stands.
///
/// It takes the memory of the map's blocks. Refusal 7, where the device call failed.
pub fn load_drl<S: Shelf>(
    alloc: Global,
    shelf: &mut S,
    config: &Config,
    volume: u32,
) -> Result<Option<Drl>, Stop>
    requires checked { IsTrue (is_sound config.now) }
    requires some { 0 < blocks_of_is config.now.volumes volume }
    requires disks { DisksFit config.now.disks (S.meaning shelf.old) }
    requires up { IsFalse (S.meaning shelf.old).down }
    ensures found { IfOk result (λ drl. DrlFound config.now volume drl (S.meaning shelf.old) (S.meaning shelf.new)) }
    ensures goes { Goes Nothing (S.meaning shelf.old) (S.meaning shelf.new) }
    ensures cause { IfErr result (LoadCause (S.meaning shelf.old) (S.meaning shelf.new)) }
{
    if !is_used(config, volume, VolumeLog::Drl) {
        return Ok(None);
    }
    match Drl::load(alloc, shelf, config, volume) {
        Ok(drl) => Ok(Some(drl)),
        Err(stop) => Err(stop),
    }
}

/// The same of the log of missed regions.
pub fn load_fmr<S: Shelf>(
    alloc: Global,
    shelf: &mut S,
    config: &Config,
    volume: u32,
) -> Result<Option<Fmr>, Stop>
    requires checked { IsTrue (is_sound config.now) }
    requires some { 0 < blocks_of_is config.now.volumes volume }
    requires disks { DisksFit config.now.disks (S.meaning shelf.old) }
    requires up { IsFalse (S.meaning shelf.old).down }
    ensures found { IfOk result (λ fmr. FmrFound config.now volume fmr (S.meaning shelf.old) (S.meaning shelf.new)) }
    ensures goes { Goes Nothing (S.meaning shelf.old) (S.meaning shelf.new) }
    ensures cause { IfErr result (LoadCause (S.meaning shelf.old) (S.meaning shelf.new)) }
{
    if !is_used(config, volume, VolumeLog::Fmr) {
        return Ok(None);
    }
    match Fmr::load(alloc, shelf, config, volume) {
        Ok(fmr) => Ok(Some(fmr)),
        Err(stop) => Err(stop),
    }
}
