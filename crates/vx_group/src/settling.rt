// The headers of the good disks, which are written back before the commit behind a refused one.
ghost use Rattle.vx_kept.specs.Finds.{FindsFrom, NoConfiguration};
ghost use Rattle.vx_group.specs.Finds.{CoreFinds};
ghost use Rattle.std.specs.Prelude.{◌≡◌, ◌⊎◌, ◌+◌, ◌<◌, ◌≤◌, length, true, false, IfErr, IfOk, IsTrue, OnOk};
ghost use Rattle.vx_copies.specs.Commits.{MoreFailed, NamesFailed};
ghost use Rattle.vx_group.specs.Blames.{Blames};
ghost use Rattle.vx_group.specs.GivesUp.{MissesNone, NoCommit};
ghost use Rattle.vx_group.specs.Loses.{SameParts};
ghost use Rattle.vx_group.specs.Moves.{Narrows};
ghost use Rattle.vx_group.specs.Quiesces.{AnyFailed};
ghost use Rattle.vx_group.specs.Settled.{SameBut};
ghost use Rattle.vx_group.specs.Settles.{CoreSettles, LacksCommit};
ghost use Rattle.vx_group.specs.Stands.{InnerStands};
ghost use Rattle.vx_config.specs.Table.{greatest};

use crate::detaching::detach;
use crate::inner::Inner;
use vx_copies::{has_good, hold_failed};
use vx_copyio::settle;
use vx_disk::{Shelf, ShelfError};
use vx_model::limits::MOST_NUMBER;
use vx_volume::Failed;

/// Writes the headers of each good disk back after a refused commit, so that a commit may follow. A disk that fails is held as failed from
/// then on; where none of the set is left, nothing has changed in memory.
///
/// It answers the device that failed last, where a disk came to be held as failed.
pub fn settle_named<S: Shelf>(shelf: &mut S, core: &mut Inner) -> Result<u32, ShelfError>
    requires stands { InnerStands core.old (S.meaning shelf.old) }
    requires up { IsTrue (S.meaning shelf.old).down → ⊥ }
    ensures stands { InnerStands core.new (S.meaning shelf.new) }
    ensures narrows { Narrows core.old core.new (S.meaning shelf.old) (S.meaning shelf.new) }
    ensures volumes { core.new.config.volumes ≡ core.old.config.volumes }
    ensures serial { core.new.config.serial ≡ core.old.config.serial }
    ensures good { core.new.good ≡ core.old.good }
    ensures trust { core.new.committed ≡ core.old.committed }
    ensures agreed { core.new.agreed ≡ core.old.agreed }
    ensures same { SameBut core.old.config core.new.config }
    ensures settled { OnOk result (core.new.unsettled ≡ false) }
    ensures missed { IfErr result (λ e. core.new.unsettled ≡ true) }
    ensures still { OnOk result ((core.new.config ≡ core.old.config) ⊎ AnyFailed (S.meaning shelf.old) (S.meaning shelf.new)) }
    ensures finds { CoreFinds core.old core.new (S.meaning shelf.old) (S.meaning shelf.new) }
    ensures less { FindsFrom NoConfiguration (S.meaning shelf.old) (S.meaning shelf.new) }
    ensures back { IfErr result (λ e. core.new.config ≡ core.old.config) }
    ensures named { IfOk result (NamesFailed core.old.config core.new.config (S.meaning shelf.old) (S.meaning shelf.new)) }
    ensures failing { MoreFailed (S.meaning shelf.old) (S.meaning shelf.new) core.old.config.disks core.new.config.disks }
    ensures cause { Blames (S.meaning shelf.old) (S.meaning shelf.new) result }
{
    if !core.unsettled {
        return Ok(0);
    }
    let kept = core.config.disks.copy();
    let mut device = 0;
    let mut failed = false;
    for disk in 0..kept.as_slice().len() as u32 {
        if !core.config.disks.as_slice()[disk as usize].failed {
            match settle(shelf, disk) {
                Ok(()) => {}
                Err(ShelfError::Fault { disk: unit }) => {
                    hold_failed(&mut core.config, disk);
                    device = unit;
                    failed = true;
                }
                Err(ShelfError::Down) => {
                    core.config.disks = kept;
                    return Err(ShelfError::Down);
                }
            }
        }
    }
    if !has_good(&core.config.disks, core.good) {
        core.config.disks = kept;
        return Err(ShelfError::Fault { disk: device });
    }
    core.unsettled = false;
    Ok(device)
}

/// What `settle_named` does, without the device.
pub fn settle_headers<S: Shelf>(shelf: &mut S, core: &mut Inner) -> Result<(), ShelfError>
    requires stands { InnerStands core.old (S.meaning shelf.old) }
    requires up { IsTrue (S.meaning shelf.old).down → ⊥ }
    ensures stands { InnerStands core.new (S.meaning shelf.new) }
    ensures narrows { Narrows core.old core.new (S.meaning shelf.old) (S.meaning shelf.new) }
    ensures volumes { core.new.config.volumes ≡ core.old.config.volumes }
    ensures serial { core.new.config.serial ≡ core.old.config.serial }
    ensures good { core.new.good ≡ core.old.good }
    ensures trust { core.new.committed ≡ core.old.committed }
    ensures agreed { core.new.agreed ≡ core.old.agreed }
    ensures same { SameBut core.old.config core.new.config }
    ensures settled { OnOk result (core.new.unsettled ≡ false) }
    ensures missed { IfErr result (λ e. core.new.unsettled ≡ true) }
    ensures still { OnOk result ((core.new.config ≡ core.old.config) ⊎ AnyFailed (S.meaning shelf.old) (S.meaning shelf.new)) }
    ensures failing { MoreFailed (S.meaning shelf.old) (S.meaning shelf.new) core.old.config.disks core.new.config.disks }
    ensures finds { CoreFinds core.old core.new (S.meaning shelf.old) (S.meaning shelf.new) }
    ensures less { FindsFrom NoConfiguration (S.meaning shelf.old) (S.meaning shelf.new) }
    ensures cause { Blames (S.meaning shelf.old) (S.meaning shelf.new) result }
{
    match settle_named(shelf, core) {
        Ok(_) => Ok(()),
        Err(error) => Err(error),
    }
}

/// Makes the group ready for a write: after a refused commit it writes headers back, and commits the configuration as it stands.
/// Where no serial is left it does nothing.
pub fn make_ready<S: Shelf>(shelf: &mut S, core: &mut Inner) -> Result<(), ShelfError>
    requires stands { InnerStands core.old (S.meaning shelf.old) }
    requires up { IsTrue (S.meaning shelf.old).down → ⊥ }
    ensures stands { InnerStands core.new (S.meaning shelf.new) }
    ensures narrows { Narrows core.old core.new (S.meaning shelf.old) (S.meaning shelf.new) }
    ensures volumes { core.new.config.volumes ≡ core.old.config.volumes }
    ensures parts { SameParts core.old.config core.new.config }
    ensures failing { MoreFailed (S.meaning shelf.old) (S.meaning shelf.new) core.old.config.disks core.new.config.disks }
    ensures few { OnOk result (core.new.config.serial ≤ core.old.config.serial + 1 + length core.old.config.disks) }
    ensures full { greatest ≤ core.old.config.serial → greatest ≤ core.new.config.serial }
    ensures good { core.new.unsettled ≡ true → core.new.good ≡ core.old.good }
    ensures missed { IfErr result (λ e. NoCommit core.new (S.meaning shelf.new)) }
    ensures ready { OnOk result (MissesNone core.new) }
    ensures trust { OnOk result (core.old.committed ≡ true → core.new.committed ≡ true) }
    ensures agreed { IfErr result (λ e. core.old.committed ≡ true → core.new.agreed ≡ true) }
    ensures finds { CoreFinds core.old core.new (S.meaning shelf.old) (S.meaning shelf.new) }
    ensures settles { CoreSettles core.old core.new (S.meaning shelf.old) (S.meaning shelf.new) }
    ensures cause { Blames (S.meaning shelf.old) (S.meaning shelf.new) result }
{
    if !core.unsettled {
        return Ok(());
    }
    if core.config.serial >= MOST_NUMBER {
        return Ok(());
    }
    match settle_headers(shelf, core) {
        Ok(()) => {}
        Err(error) => return Err(error),
    }
    detach(shelf, core, 0, Failed { set: 0, disk: 0 })
}

/// Whether a commit is missed for which no serial is left: then writes go to plexes without it.
pub fn lacks_commit(core: &Inner) -> bool
    ensures free { result ≡ false → LacksCommit core.now → ⊥ }
{
    if !core.unsettled {
        return false;
    }
    if core.config.serial < MOST_NUMBER {
        return false;
    }
    true
}
