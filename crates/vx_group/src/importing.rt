// A group that is imported.
ghost use Rattle.vx_group.specs.Creates.{SameUnits};
ghost use Rattle.vx_group.specs.Imports.{ImportEnds};
ghost use Rattle.vx_group.specs.Resumes.{CanImport};

use crate::finishing::renew;
use crate::inner::Inner;
use crate::taking::{Plan, take_up};
use std::alloc::Global;
use vx_copyio::are_large;
use vx_disk::Shelf;
use vx_model::{No, Stop};

/// Imports a group: the newest configuration of the disks that can be read is taken up with each plex that is CLEAN in the state ACTIVE, the
/// headers of each disk that was read are written back, volumes that stopped uncleanly are copied whole from the plex that they are gone by,
/// and it ends with a commit.
///
/// A refusal changes no block of a volume but as a crash might have left it. It takes memory.
pub fn import_in<S: Shelf>(alloc: Global, shelf: &mut S) -> Result<Inner, Stop>
    requires can { CanImport (S.meaning shelf.old) }
    ensures ends { ImportEnds (S.meaning shelf.old) (S.meaning shelf.new) result }
    ensures same { SameUnits (S.meaning shelf.old) (S.meaning shelf.new) }
{
    if shelf.is_down() {
        return Err(Stop::No(No::Down));
    }
    if !are_large(shelf) {
        return Err(Stop::No(No::NoConfig));
    }
    match take_up(alloc, shelf) {
        Ok(plan) => {
            let Plan {
                core,
                stopped,
                sources,
            } = plan;
            let mut core = core;
            match renew(shelf, &mut core, &stopped, &sources, &[]) {
                Ok(()) => Ok(core),
                Err(no) => Err(Stop::No(no)),
            }
        }
        Err(stop) => Err(stop),
    }
}
