// Disks that are held as failed, and are held as good again before a plex on them is attached.
ghost use Rattle.vx_group.specs.Finds.{CoreFinds, Recommits};
ghost use Rattle.std.specs.Prelude.{◌≡◌, ◌+◌, ◌<◌, ◌≤◌, ◌&&◌, length, true, IsTrue, IsFalse, OnOk};
ghost use Rattle.vx_config.specs.Table.{greatest};
ghost use Rattle.vx_copies.specs.Commits.{MoreFailed};
ghost use Rattle.vx_copies.specs.Marks.{failed_at};
ghost use Rattle.vx_group.specs.Blames.{Blames};
ghost use Rattle.vx_kept.specs.Commits.{IsCommitted};
ghost use Rattle.vx_volume.specs.Plexes.{uses as uses_is};
ghost use Rattle.vx_group.specs.Loses.{SameParts};
ghost use Rattle.vx_group.specs.Moves.{Narrows};
ghost use Rattle.vx_group.specs.Regains.{AreHeld, HeldOne, HoldsNow, LiesOnFailed, Regained, Regains};
ghost use Rattle.vx_group.specs.Settles.{CoreSettles, EndsSettled};
ghost use Rattle.vx_group.specs.Stands.{InnerStands};
ghost use Rattle.vx_model.specs.declared.limits.TheConstants.{MOST_DISKS};

use crate::detaching::detach_named;
use crate::inner::Inner;
use crate::marking::hold_good;
use crate::settling::settle_named;
use vx_config::Config;
use vx_disk::{Shelf, ShelfError};
use vx_model::limits::COMMIT_SERIALS;
use vx_volume::{Failed, uses};

// Holds a disk as good where the plex lies on it, and tells whether it was held as failed, or another one before.
fn hold_one(config: &mut Config, vol: u32, plex: u32, disk: u32, any: bool) -> bool
    requires inside { disk < length config.old.disks }
    ensures { HeldOne config.old config.new vol plex disk any result }
{
    if !uses(config, vol, plex, disk) {
        return any;
    }
    if !config.disks.as_slice()[disk as usize].failed {
        return any;
    }
    hold_good(config, disk);
    true
}

// Holds each disk as good on which the plex lies, and tells whether one of them was held as failed.
fn hold_plex(config: &mut Config, vol: u32, plex: u32) -> bool
    ensures few { length config.old.disks ≤ MOST_DISKS }
    ensures regained { Regained config.old config.new vol plex (length config.old.disks) result }
{
    let mut any = false;
    for disk in 0..config.disks.as_slice().len() as u32 {
        any = hold_one(config, vol, plex, disk, any);
    }
    any
}

// Whether a disk is held as failed, and the plex lies on it.
fn is_failed(config: &Config, vol: u32, plex: u32, disk: u32) -> bool
    requires inside { disk < length config.now.disks }
    ensures { result ≡ uses_is config.now vol plex disk && failed_at config.now.disks disk }
{
    uses(config, vol, plex, disk) && config.disks.as_slice()[disk as usize].failed
}

// Whether the plex lies on a disk that is held as failed.
fn lies_on_failed(config: &Config, vol: u32, plex: u32) -> bool
    ensures some { IsTrue result → LiesOnFailed config.now vol plex }
    ensures none { IsFalse result → AreHeld config.now vol plex }
{
    for disk in 0..config.disks.as_slice().len() as u32 {
        if is_failed(config, vol, plex, disk) {
            return true;
        }
    }
    false
}

// Writes headers back, and commits the configuration as it stands. It is a fault where a disk on which the plex lies fails in this: it is
// then held as failed.
fn recommit<S: Shelf>(
    shelf: &mut S,
    core: &mut Inner,
    vol: u32,
    plex: u32,
) -> Result<(), ShelfError>
    requires stands { InnerStands core.old (S.meaning shelf.old) }
    requires more { core.old.config.serial < greatest }
    requires held { AreHeld core.old.config vol plex }
    requires up { IsTrue (S.meaning shelf.old).down → ⊥ }
    ensures stands { InnerStands core.new (S.meaning shelf.new) }
    ensures narrows { Narrows core.old core.new (S.meaning shelf.old) (S.meaning shelf.new) }
    ensures volumes { core.new.config.volumes ≡ core.old.config.volumes }
    ensures parts { SameParts core.old.config core.new.config }
    ensures failing { MoreFailed (S.meaning shelf.old) (S.meaning shelf.new) core.old.config.disks core.new.config.disks }
    ensures few { OnOk result (core.new.config.serial ≤ core.old.config.serial + 1 + length core.old.config.disks) }
    ensures good { core.new.unsettled ≡ true → core.new.good ≡ core.old.good }
    ensures held { OnOk result (AreHeld core.new.config vol plex) }
    ensures committed { OnOk result (IsCommitted core.new.config (S.meaning shelf.new)) }
    ensures trust { OnOk result (core.old.committed ≡ true → core.new.committed ≡ true) }
    ensures finds { Recommits core.old core.new (S.meaning shelf.old) (S.meaning shelf.new) result }
    ensures settles { EndsSettled core.new (S.meaning shelf.old) (S.meaning shelf.new) }
    ensures cause { Blames (S.meaning shelf.old) (S.meaning shelf.new) result }
{
    let first = match settle_named(shelf, core) {
        Ok(device) => device,
        Err(error) => return Err(error),
    };
    let missed = lies_on_failed(&core.config, vol, plex);
    let last = match detach_named(shelf, core, 0, Failed { set: 0, disk: 0 }) {
        Ok(device) => device,
        Err(error) => return Err(error),
    };
    if missed {
        return Err(ShelfError::Fault { disk: first });
    }
    if lies_on_failed(&core.config, vol, plex) {
        return Err(ShelfError::Fault { disk: last });
    }
    Ok(())
}

/// Holds each disk as good on which a plex lies, and commits this, where one of them was held as failed. Where such a disk fails in the
/// commit it is held as failed again, and that is a fault.
pub fn regain<S: Shelf>(
    shelf: &mut S,
    core: &mut Inner,
    vol: u32,
    plex: u32,
) -> Result<(), ShelfError>
    requires stands { InnerStands core.old (S.meaning shelf.old) }
    requires more { core.old.config.serial < greatest }
    requires up { IsTrue (S.meaning shelf.old).down → ⊥ }
    ensures stands { InnerStands core.new (S.meaning shelf.new) }
    ensures narrows { Narrows core.old core.new (S.meaning shelf.old) (S.meaning shelf.new) }
    ensures volumes { core.new.config.volumes ≡ core.old.config.volumes }
    ensures parts { SameParts core.old.config core.new.config }
    ensures few { OnOk result (core.new.config.serial ≤ core.old.config.serial + COMMIT_SERIALS) }
    ensures regains { Regains core.old.config core.new.config vol plex (S.meaning shelf.old) (S.meaning shelf.new) }
    ensures held { OnOk result (HoldsNow core.old.config core.new.config vol plex (S.meaning shelf.new)) }
    ensures trust { OnOk result (core.old.committed ≡ true → core.new.committed ≡ true) }
    ensures finds { CoreFinds core.old core.new (S.meaning shelf.old) (S.meaning shelf.new) }
    ensures settles { CoreSettles core.old core.new (S.meaning shelf.old) (S.meaning shelf.new) }
    ensures cause { Blames (S.meaning shelf.old) (S.meaning shelf.new) result }
{
    let kept = core.config.disks.copy();
    if !hold_plex(&mut core.config, vol, plex) {
        return Ok(());
    }
    core.unsettled = true;
    match recommit(shelf, core, vol, plex) {
        Ok(()) => Ok(()),
        Err(error) => {
            if !core.unsettled {
                return Err(error);
            }
            core.config.disks = kept;
            core.committed = false;
            Err(error)
        }
    }
}
