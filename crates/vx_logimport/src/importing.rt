// A group that is imported by its logs.
ghost use Rattle.std.specs.Prelude.{◌≡◌, ℕ, true};
ghost use Rattle.vx_group.specs.Creates.{SameUnits};
ghost use Rattle.vx_group.specs.Resumes.{CanImport};
ghost use Rattle.vx_logimport.specs.Covers.{DisksCover, DisksTell};
ghost use Rattle.vx_logimport.specs.Marked.{MarkedEnds};
ghost use Rattle.vx_logimport.specs.Rests.{rests};

use crate::reading::read_logs;
use std::alloc::Global;
use vx_copyio::are_large;
use vx_disk::Shelf;
use vx_group::{Inner, Plan, renew, take_up};
use vx_logs::Logs;
use vx_model::limits::MOST_VOLUMES;
use vx_model::{No, Stop};

/// A group that was imported.
#[derive(Drop)]
pub struct Marked {
    pub core: Inner,
    /// Of each volume its logs: the dirty region log, where it could be read.
    pub logs: Vec<Logs>,
    /// Of each volume whether it stopped uncleanly, so that its plexes were made alike.
    pub stopped: [bool; MOST_VOLUMES],
    /// The disks that the configuration which was found holds as good.
    pub good: u8,
}

/// Imports a group behind a crash: the newest configuration of the disks that can be read is taken up with each plex that is CLEAN in the state
/// ACTIVE, the logs of its volumes are read, the headers of each disk that was read are written back, of volumes that stopped uncleanly the
/// regions that their log has are copied from the plex that they are gone by, or all of them where no log was read, and it ends with a commit.
///
/// The caller says that where a log on the disks has not a region, the plexes that take part have one value there, whatever a crash leaves; so
/// nothing else needs a copy. It says besides of which volumes a crash leaves one value of each block of the log; no other log is read. A log that could not
/// be read, or lies on a disk that was held as failed, is not in memory: the caller commits it as lost before it writes. A refusal changes no block of a
/// volume but as a crash might have left it. It takes memory.
pub fn import_marked<S: Shelf>(
    alloc: Global,
    shelf: &mut S,
    told: &[bool; MOST_VOLUMES],
) -> Result<Marked, Stop>
    requires can { CanImport (S.meaning shelf.old) }
    requires covers { (v : ℕ) → DisksCover v (S.meaning shelf.old) }
    requires tells { (v : ℕ) → rests told.now v ≡ true → DisksTell v (S.meaning shelf.old) }
    ensures ends { MarkedEnds told.now (S.meaning shelf.old) (S.meaning shelf.new) result }
    ensures same { SameUnits (S.meaning shelf.old) (S.meaning shelf.new) }
{
    if shelf.is_down() {
        return Err(Stop::No(No::Down));
    }
    if !are_large(shelf) {
        return Err(Stop::No(No::NoConfig));
    }
    match take_up(alloc, shelf) {
        Ok(plan) => {
            let Plan {
                core,
                stopped,
                sources,
            } = plan;
            let mut core = core;
            let good = core.good;
            match read_logs(alloc, shelf, &core.config, good, told) {
                Ok(logs) => match renew(shelf, &mut core, &stopped, &sources, logs.as_slice()) {
                    Ok(()) => Ok(Marked {
                        core,
                        logs,
                        stopped,
                        good,
                    }),
                    Err(no) => Err(Stop::No(no)),
                },
                Err(stop) => Err(stop),
            }
        }
        Err(stop) => Err(stop),
    }
}
