// A read of a volume.
ghost use Rattle.std.specs.Prelude.{◌≡◌, ◌/◌, length, OnOk};
ghost use Rattle.vx_disk.specs.Causes.{Cause, CountsOnly};
ghost use Rattle.vx_disk.specs.Shelf.{Fits, Goes, Nothing, Read};
ghost use Rattle.vx_group.specs.Holding.{GroupStands, wide};
ghost use Rattle.vx_group.specs.Stands.{inner_meaning};
ghost use Rattle.vx_group.specs.Turns.{ReadsInTurn};
ghost use Rattle.vx_model.specs.declared.limits.TheConstants.{BLOCK};

use crate::counting::{count_fault, set_next};
use crate::group_core::GroupCore;
use vx_disk::{Shelf, ShelfError};
use vx_model::No;
use vx_volume::{Volume, read};

/// Reads a run of blocks of a volume, from one plex that is ACTIVE: the preferred one or the next in turn, or the first behind it that does not fail. It fails
/// only where a call on a disk of each of them failed.
pub fn read_in<S: Shelf>(
    shelf: &mut S,
    core: &mut GroupCore,
    vol: u32,
    block: u64,
    into: &mut [u8],
) -> Result<(), ShelfError>
    requires stands { GroupStands core.old (S.meaning shelf.old) }
    requires fits { Fits (inner_meaning (wide core.old) (S.meaning shelf.old)) vol block (length into.old) }
    ensures stands { GroupStands core.new (S.meaning shelf.new) }
    ensures goes { Goes Nothing (inner_meaning (wide core.old) (S.meaning shelf.old)) (inner_meaning (wide core.new) (S.meaning shelf.new)) }
    ensures shown { OnOk result (Read (inner_meaning core.old.inner (S.meaning shelf.old)) vol block into.new) }
    ensures ok { OnOk result (Read (inner_meaning (wide core.old) (S.meaning shelf.old)) vol block into.new) }
    ensures below { Goes Nothing (S.meaning shelf.old) (S.meaning shelf.new) }
    ensures down { (S.meaning shelf.new).down ≡ (S.meaning shelf.old).down }
    ensures cause { Cause (inner_meaning (wide core.old) (S.meaning shelf.old)) (inner_meaning (wide core.new) (S.meaning shelf.new)) vol result }
    ensures counts { CountsOnly vol result (inner_meaning (wide core.old) (S.meaning shelf.old)).faults (inner_meaning (wide core.new) (S.meaning shelf.new)).faults }
    ensures held { core.new.held ≡ core.old.held }
    ensures trusted { (core.new.inner.committed ≡ core.old.inner.committed) × (core.new.inner.agreed ≡ core.old.inner.agreed) }
    ensures same { core.new.inner.config ≡ core.old.inner.config }
    ensures settled { core.new.inner.unsettled ≡ core.old.inner.unsettled }
    ensures unsure { core.new.inner.unsure ≡ core.old.inner.unsure }
    ensures turn { ReadsInTurn core.old.inner.config vol core.old.inner.next core.new.inner.next block (length into.old / BLOCK) into.new (S.meaning shelf.old) (S.meaning shelf.new) result }
{
    if shelf.is_down() {
        return Err(ShelfError::Down);
    }
    let mut volume = Volume {
        number: vol,
        next: core.inner.next[vol as usize],
    };
    match read(&mut volume, &core.inner.config, shelf, block, into) {
        Ok(()) => {
            set_next(&mut core.inner.next, vol, volume.next);
            Ok(())
        }
        Err(No::Device { disk }) => {
            count_fault(&mut core.inner.faults, vol);
            Err(ShelfError::Fault { disk })
        }
        Err(_) => Err(ShelfError::Down),
    }
}
