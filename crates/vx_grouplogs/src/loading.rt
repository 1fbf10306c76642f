// The dirty region log of a volume as an import takes it up.
ghost use Rattle.std.specs.Prelude.{◌≡◌, ◌+◌, ◌<◌, IfErr, IfOk, IsFalse, IsTrue, Some};
ghost use Rattle.vx_config.specs.Checks.{blocks_of as blocks_of_is, is_sound};
ghost use Rattle.vx_disk.specs.Shelf.{Goes, Nothing};
ghost use Rattle.vx_drl.specs.Dirty.{Dirty};
ghost use Rattle.vx_drl.specs.declared.marks.TheConstants.{MOST_HELD};
ghost use Rattle.vx_grouplogs.specs.Loading.{TakesUp};
ghost use Rattle.vx_groupmaps.specs.Loading.{LoadIsRefused};
ghost use Rattle.vx_logs.specs.Held.{DrlFits};
ghost use Rattle.vx_volume.specs.Plexes.{DisksFit};

use std::alloc::Global;
use vx_config::{Config, VolumeLog};
use vx_disk::Shelf;
use vx_drl::Drl;
use vx_groupmaps::on_failed_disk;
use vx_maplog::is_used;
use vx_model::{No, Stop};

/// A dirty region log that was taken up.
#[derive(Drop)]
pub struct Loaded {
    /// None where the volume has none in use, or where it is lost.
    pub drl: Option<Drl>,
    /// It was in use, and is lost.
    pub gone: bool,
}

/// Reads the dirty region log of a volume of a checked configuration. It is lost where its disk is held as failed, or where the device call
/// fails: the caller commits that, and copies all regions. It changes nothing.
///
/// It takes the memory of the map's blocks. Refusal 6, where the shelf is down.
pub fn load_marks<S: Shelf>(
    alloc: Global,
    shelf: &mut S,
    config: &Config,
    vol: u32,
) -> Result<Loaded, Stop>
    requires checked { IsTrue (is_sound config.now) }
    requires some { 0 < blocks_of_is config.now.volumes vol }
    requires disks { DisksFit config.now.disks (S.meaning shelf.old) }
    requires up { IsFalse (S.meaning shelf.old).down }
    ensures takes { IfOk result (λ loaded. TakesUp config.now vol loaded.drl loaded.gone (S.meaning shelf.old) (S.meaning shelf.new)) }
    ensures fits { IfOk result (λ loaded. (d : Dirty) → loaded.drl ≡ Some d → DrlFits config.now vol d) }
    ensures full { IfOk result (λ loaded. (d : Dirty) → loaded.drl ≡ Some d → d.held ≡ MOST_HELD + 1) }
    ensures goes { Goes Nothing (S.meaning shelf.old) (S.meaning shelf.new) }
    ensures cause { IfErr result (LoadIsRefused (S.meaning shelf.new)) }
{
    if !is_used(config, vol, VolumeLog::Drl) {
        return Ok(Loaded {
            drl: None,
            gone: false,
        });
    }
    if on_failed_disk(config, vol, VolumeLog::Drl) {
        return Ok(Loaded {
            drl: None,
            gone: true,
        });
    }
    match Drl::load(alloc, shelf, config, vol) {
        Ok(drl) => Ok(Loaded {
            drl: Some(drl),
            gone: false,
        }),
        Err(Stop::No(No::Device { .. })) => Ok(Loaded {
            drl: None,
            gone: true,
        }),
        Err(stop) => Err(stop),
    }
}
