// Plexes that failed, which are detached by a commit.
ghost use Rattle.vx_group.specs.Finds.{CoreEnds};
ghost use Rattle.std.specs.Prelude.{◌≡◌, ◌⊎◌, ◌+◌, ◌<◌, ◌≤◌, ℕ, length, true, false, IfErr, IfOk, IsTrue, OnOk};
ghost use Rattle.vx_config.specs.Table.{greatest};
ghost use Rattle.vx_copies.specs.Commits.{MoreFailed, NamesFailed};
ghost use Rattle.vx_group.specs.GivesUp.{KeepsVolumes, NoCommit};
ghost use Rattle.vx_group.specs.Blames.{Blames, BlamesOr, fault_of as fault_is};
ghost use Rattle.vx_group.specs.Moves.{AreOff, Narrows};
ghost use Rattle.vx_group.specs.Settles.{EndsSettled};
ghost use Rattle.vx_group.specs.Stands.{InnerStands};
ghost use Rattle.vx_disk.specs.Blocks.{bit_at};
ghost use Rattle.vx_kept.specs.Commits.{IsCommitted};
ghost use Rattle.vx_kept.specs.Trusts.{HasFailed};
ghost use Rattle.vx_kept.specs.States.{AreOn, SomeLeft, staled};
ghost use Rattle.vx_volume.specs.Plexes.{active, uses};
ghost use Rattle.vx_group.specs.Loses.{SameParts, TrustsStill};

use crate::inner::Inner;
use crate::marking::is_committed;
use vx_copies::good_of;
use vx_disk::{Shelf, ShelfError};
use vx_kept::commit_stale;
use vx_model::No;
use vx_model::limits::MOST_PLEXES;
use vx_volume::Failed;

/// A refusal as a fault, which names this disk where no serial was left.
pub fn fault_of(no: No, device: u32) -> ShelfError
    ensures { result ≡ fault_is no device }
{
    match no {
        No::Device { disk } => ShelfError::Fault { disk },
        No::Down => ShelfError::Down,
        _ => ShelfError::Fault { disk: device },
    }
}

/// Commits the configuration with the plexes of a set STALE, and as it stands where the set is empty.
///
/// It answers the device that failed last, where a disk came to be held as failed. A fault is that of the commit, or where no serial was left
/// that of the failed plexes.
pub fn detach_named<S: Shelf>(
    shelf: &mut S,
    core: &mut Inner,
    vol: u32,
    failed: Failed,
) -> Result<u32, ShelfError>
    requires stands { InnerStands core.old (S.meaning shelf.old) }
    requires settled { core.old.unsettled ≡ false }
    requires left { vol < length core.old.config.volumes → SomeLeft core.old.config vol failed.set }
    requires those { AreOn core.old.config vol failed.set }
    ensures stands { InnerStands core.new (S.meaning shelf.new) }
    ensures narrows { Narrows core.old core.new (S.meaning shelf.old) (S.meaning shelf.new) }
    ensures off { OnOk result (AreOff core.new.config vol failed.set) }
    ensures others { (w p : ℕ) → (w ≡ vol → bit_at failed.set p ≡ true → ⊥) → active core.new.config w p ≡ active core.old.config w p }
    ensures settled { OnOk result (core.new.unsettled ≡ false) }
    ensures lies { (w p u : ℕ) → uses core.new.config w p u ≡ uses core.old.config w p u }
    ensures parts { SameParts core.old.config core.new.config }
    ensures failing { MoreFailed (S.meaning shelf.old) (S.meaning shelf.new) core.old.config.disks core.new.config.disks }
    ensures few { OnOk result (core.new.config.serial ≤ core.old.config.serial + 1 + length core.old.config.disks) }
    ensures room { OnOk result (core.old.config.serial < greatest) }
    ensures good { core.new.unsettled ≡ true → core.new.good ≡ core.old.good }
    ensures kept { (core.new.config.volumes ≡ core.old.config.volumes) ⊎ (core.new.config.volumes ≡ (staled vol failed.set core.old.config MOST_PLEXES).volumes) }
    ensures none { failed.set ≡ 0 → core.new.config.volumes ≡ core.old.config.volumes }
    ensures keeps { KeepsVolumes core.old.config core.new.config result }
    ensures missed { IfErr result (λ e. NoCommit core.new (S.meaning shelf.new)) }
    ensures trust { OnOk result (core.old.committed ≡ true → core.new.committed ≡ true) }
    ensures agreed { IfErr result (λ e. core.old.committed ≡ true → core.new.agreed ≡ true) }
    ensures whole { OnOk result ((core.new.committed ≡ true) ⊎ HasFailed core.new.config.disks) }
    ensures committed { OnOk result (IsCommitted core.new.config (S.meaning shelf.new)) }
    ensures finds { CoreEnds core.new (S.meaning shelf.old) (S.meaning shelf.new) }
    ensures settles { EndsSettled core.new (S.meaning shelf.old) (S.meaning shelf.new) }
    ensures named { IfOk result (NamesFailed core.old.config core.new.config (S.meaning shelf.old) (S.meaning shelf.new)) }
    ensures logs { TrustsStill core.old.config core.new.config }
    ensures cause { BlamesOr failed.disk (S.meaning shelf.old) (S.meaning shelf.new) result }
    ensures sure { core.old.config.serial < greatest → Blames (S.meaning shelf.old) (S.meaning shelf.new) result }
{
    match commit_stale(
        shelf,
        &mut core.config,
        vol,
        failed.set,
        core.good,
        &mut core.room,
    ) {
        Ok(device) => {
            core.good = good_of(&core.config.disks);
            core.committed = is_committed(core.committed, &core.config.disks);
            core.agreed = core.committed;
            if shelf.is_down() {
                return Err(ShelfError::Down);
            }
            Ok(device)
        }
        Err(no) => {
            core.unsettled = true;
            core.agreed = core.committed;
            core.committed = false;
            if shelf.is_down() {
                return Err(ShelfError::Down);
            }
            Err(fault_of(no, failed.disk))
        }
    }
}

/// What `detach_named` does, without the device.
pub fn detach<S: Shelf>(
    shelf: &mut S,
    core: &mut Inner,
    vol: u32,
    failed: Failed,
) -> Result<(), ShelfError>
    requires stands { InnerStands core.old (S.meaning shelf.old) }
    requires settled { core.old.unsettled ≡ false }
    requires left { vol < length core.old.config.volumes → SomeLeft core.old.config vol failed.set }
    requires those { AreOn core.old.config vol failed.set }
    ensures stands { InnerStands core.new (S.meaning shelf.new) }
    ensures narrows { Narrows core.old core.new (S.meaning shelf.old) (S.meaning shelf.new) }
    ensures off { OnOk result (AreOff core.new.config vol failed.set) }
    ensures others { (w p : ℕ) → (w ≡ vol → bit_at failed.set p ≡ true → ⊥) → active core.new.config w p ≡ active core.old.config w p }
    ensures settled { OnOk result (core.new.unsettled ≡ false) }
    ensures lies { (w p u : ℕ) → uses core.new.config w p u ≡ uses core.old.config w p u }
    ensures parts { SameParts core.old.config core.new.config }
    ensures failing { MoreFailed (S.meaning shelf.old) (S.meaning shelf.new) core.old.config.disks core.new.config.disks }
    ensures few { OnOk result (core.new.config.serial ≤ core.old.config.serial + 1 + length core.old.config.disks) }
    ensures room { OnOk result (core.old.config.serial < greatest) }
    ensures good { core.new.unsettled ≡ true → core.new.good ≡ core.old.good }
    ensures kept { (core.new.config.volumes ≡ core.old.config.volumes) ⊎ (core.new.config.volumes ≡ (staled vol failed.set core.old.config MOST_PLEXES).volumes) }
    ensures none { failed.set ≡ 0 → core.new.config.volumes ≡ core.old.config.volumes }
    ensures keeps { KeepsVolumes core.old.config core.new.config result }
    ensures missed { IfErr result (λ e. NoCommit core.new (S.meaning shelf.new)) }
    ensures trust { OnOk result (core.old.committed ≡ true → core.new.committed ≡ true) }
    ensures agreed { IfErr result (λ e. core.old.committed ≡ true → core.new.agreed ≡ true) }
    ensures whole { OnOk result ((core.new.committed ≡ true) ⊎ HasFailed core.new.config.disks) }
    ensures committed { OnOk result (IsCommitted core.new.config (S.meaning shelf.new)) }
    ensures finds { CoreEnds core.new (S.meaning shelf.old) (S.meaning shelf.new) }
    ensures settles { EndsSettled core.new (S.meaning shelf.old) (S.meaning shelf.new) }
    ensures logs { TrustsStill core.old.config core.new.config }
    ensures cause { BlamesOr failed.disk (S.meaning shelf.old) (S.meaning shelf.new) result }
    ensures sure { core.old.config.serial < greatest → Blames (S.meaning shelf.old) (S.meaning shelf.new) result }
{
    match detach_named(shelf, core, vol, failed) {
        Ok(_) => Ok(()),
        Err(error) => Err(error),
    }
}
