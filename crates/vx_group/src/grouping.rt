// The volumes of a group that are its replicated volume group.
ghost use Rattle.std.specs.Prelude.{◌≡◌, ◌⊎◌, ◌+◌, ◌<◌, ◌≤◌, ℕ, true, IsTrue, Some, None, Err, OnOk, IfErr};
ghost use Rattle.vx_config.specs.Checks.{is_group, is_sound};
ghost use Rattle.vx_config.specs.Table.{greatest};
ghost use Rattle.vx_copies.specs.Commits.{MoreFailed};
ghost use Rattle.vx_disk.specs.Shelf.{Goes, Nothing};
ghost use Rattle.vx_group.specs.Blames.{Blames};
ghost use Rattle.vx_group.specs.Calls.{GroupNarrows};
ghost use Rattle.vx_group.specs.Dets.{DetStops};
ghost use Rattle.vx_group.specs.Finds.{CoreFinds, GroupFinds};
ghost use Rattle.vx_group.specs.Holding.{GroupStands, wide};
ghost use Rattle.vx_group.specs.Moves.{Narrows};
ghost use Rattle.vx_group.specs.Rvgs.{RvgEnds, set_rvg_refusal};
ghost use Rattle.vx_group.specs.Stands.{InnerStands, inner_meaning};
ghost use Rattle.vx_kept.specs.Trusts.{HasFailed};
ghost use Rattle.vx_model.specs.declared.errors.Stop.TheVariants.{No as Refused};
ghost use Rattle.vx_model.specs.declared.no.No.{No as NoValue};
ghost use Rattle.vx_group.specs.Settles.{CoreSettles};

use crate::detaching::detach;
use crate::group_core::GroupCore;
use crate::inner::Inner;
use crate::releasing::release;
use crate::settling::settle_headers;
use vx_config::{Config, check};
use vx_disk::{Shelf, ShelfError, refusal};
use vx_model::limits::{COMMIT_MARGIN, COMMIT_SERIALS, MOST_NUMBER};
use vx_model::{Counted, No, Stop, Units};
use vx_volume::Failed;

// The volumes of the replicated volume group once more.
fn named_by(config: &Config) -> Option<Units>
    ensures { result ≡ config.now.rvg }
{
    match &config.rvg {
        Some(units) => Some(units.copy()),
        None => None,
    }
}

/// Whether the configuration would be sound with these volumes as the replicated volume group. It is left as it was.
pub fn may_name(config: &mut Config, units: &Units) -> bool
    requires sound { is_sound config.old ≡ true }
    ensures same { config.new ≡ config.old }
    ensures is { result ≡ is_group config.old.volumes units.now }
{
    let before = named_by(config);
    config.rvg = Some(units.copy());
    let is_sound = check(config);
    config.rvg = before;
    is_sound
}

// Commits the configuration with these volumes as the replicated volume group, behind the headers that a refused commit asks for.
fn commit_rvg<S: Shelf>(shelf: &mut S, core: &mut Inner, units: &Units) -> Result<(), ShelfError>
    requires stands { InnerStands core.old (S.meaning shelf.old) }
    requires may { is_group core.old.config.volumes units.now ≡ true }
    requires more { core.old.config.serial < greatest }
    requires up { IsTrue (S.meaning shelf.old).down → ⊥ }
    ensures stands { InnerStands core.new (S.meaning shelf.new) }
    ensures narrows { Narrows core.old core.new (S.meaning shelf.old) (S.meaning shelf.new) }
    ensures volumes { core.new.config.volumes ≡ core.old.config.volumes }
    ensures site { core.new.config.site ≡ core.old.config.site }
    ensures failing { MoreFailed (S.meaning shelf.old) (S.meaning shelf.new) core.old.config.disks core.new.config.disks }
    ensures ends { RvgEnds units.now core.old.config core.new.config (S.meaning shelf.new) result }
    ensures trust { OnOk result (core.old.committed ≡ true → core.new.committed ≡ true) }
    ensures whole { OnOk result ((core.new.committed ≡ true) ⊎ HasFailed core.new.config.disks) }
    ensures agreed { IfErr result (λ e. core.old.committed ≡ true → core.new.agreed ≡ true) }
    ensures later { core.old.config.serial ≤ core.new.config.serial }
    ensures finds { CoreFinds core.old core.new (S.meaning shelf.old) (S.meaning shelf.new) }
    ensures settles { CoreSettles core.old core.new (S.meaning shelf.old) (S.meaning shelf.new) }
    ensures cause { Blames (S.meaning shelf.old) (S.meaning shelf.new) result }
{
    match settle_headers(shelf, core) {
        Ok(()) => {}
        Err(error) => return Err(error),
    }
    let before = named_by(&core.config);
    core.config.rvg = Some(units.copy());
    match detach(shelf, core, 0, Failed { set: 0, disk: 0 }) {
        Ok(()) => Ok(()),
        Err(error) => {
            core.config.rvg = before;
            core.committed = false;
            Err(error)
        }
    }
}

// Names volumes that may be the replicated volume group, behind the commit that detaches the plex that is held back.
fn name_rvg<S: Shelf>(shelf: &mut S, core: &mut GroupCore, units: &Units) -> Result<(), Stop>
    requires stands { GroupStands core.old (S.meaning shelf.old) }
    requires may { is_group core.old.inner.config.volumes units.now ≡ true }
    requires more { core.old.inner.config.serial + COMMIT_SERIALS < greatest }
    ensures stands { GroupStands core.new (S.meaning shelf.new) }
    ensures goes { Goes Nothing (inner_meaning (wide core.old) (S.meaning shelf.old)) (inner_meaning (wide core.new) (S.meaning shelf.new)) }
    ensures narrows { GroupNarrows core.old core.new (S.meaning shelf.old) (S.meaning shelf.new) }
    ensures volumes { core.new.inner.config.volumes ≡ core.old.inner.config.volumes }
    ensures site { core.new.inner.config.site ≡ core.old.inner.config.site }
    ensures disks { MoreFailed (S.meaning shelf.old) (S.meaning shelf.new) core.old.inner.config.disks core.new.inner.config.disks }
    ensures ends { RvgEnds units.now core.old.inner.config core.new.inner.config (S.meaning shelf.new) result }
    ensures trust { OnOk result (core.old.inner.committed ≡ true → core.new.inner.committed ≡ true) }
    ensures whole { OnOk result ((core.new.inner.committed ≡ true) ⊎ HasFailed core.new.inner.config.disks) }
    ensures agreed { IfErr result (λ e. core.old.inner.committed ≡ true → core.new.inner.agreed ≡ true) }
    ensures later { core.old.inner.config.serial ≤ core.new.inner.config.serial }
    ensures finds { GroupFinds core.old core.new (S.meaning shelf.old) (S.meaning shelf.new) }
    ensures up { OnOk result (IsTrue (S.meaning shelf.new).down → ⊥) }
    ensures cause { DetStops (S.meaning shelf.old) (S.meaning shelf.new) result }
{
    if shelf.is_down() {
        return Err(Stop::No(No::Down));
    }
    match release(shelf, core) {
        Ok(()) => {}
        Err(error) => return Err(Stop::No(refusal(error))),
    }
    match commit_rvg(shelf, &mut core.inner, units) {
        Ok(()) => Ok(()),
        Err(error) => Err(Stop::No(refusal(error))),
    }
}

/// Names the volumes that are the replicated volume group, by a commit. Every volume is left as it was.
///
/// Answers 19 exactly where fewer than 65,536 serials are left, else 4 exactly where these may not be such a group, and then nothing has
/// changed; else 7 only where the count of the disk that it names rose, and 6 only where the shelf is then down. Then memory has the group of
/// before, or none. It takes no memory.
pub fn set_rvg_in<S: Shelf>(shelf: &mut S, core: &mut GroupCore, units: &Units) -> Result<(), Stop>
    requires stands { GroupStands core.old (S.meaning shelf.old) }
    ensures stands { GroupStands core.new (S.meaning shelf.new) }
    ensures refused { (no : NoValue) → set_rvg_refusal core.old.inner.config units.now ≡ Some no → (result ≡ Err (Refused no)) × (core.new ≡ core.old) × (shelf.new ≡ shelf.old) }
    ensures goes { Goes Nothing (inner_meaning (wide core.old) (S.meaning shelf.old)) (inner_meaning (wide core.new) (S.meaning shelf.new)) }
    ensures narrows { GroupNarrows core.old core.new (S.meaning shelf.old) (S.meaning shelf.new) }
    ensures volumes { core.new.inner.config.volumes ≡ core.old.inner.config.volumes }
    ensures site { core.new.inner.config.site ≡ core.old.inner.config.site }
    ensures disks { MoreFailed (S.meaning shelf.old) (S.meaning shelf.new) core.old.inner.config.disks core.new.inner.config.disks }
    ensures ends { RvgEnds units.now core.old.inner.config core.new.inner.config (S.meaning shelf.new) result }
    ensures trust { OnOk result (core.old.inner.committed ≡ true → core.new.inner.committed ≡ true) }
    ensures whole { OnOk result ((core.new.inner.committed ≡ true) ⊎ HasFailed core.new.inner.config.disks) }
    ensures agreed { IfErr result (λ e. core.old.inner.committed ≡ true → core.new.inner.agreed ≡ true) }
    ensures later { core.old.inner.config.serial ≤ core.new.inner.config.serial }
    ensures finds { GroupFinds core.old core.new (S.meaning shelf.old) (S.meaning shelf.new) }
    ensures up { OnOk result (IsTrue (S.meaning shelf.new).down → ⊥) }
    ensures cause { set_rvg_refusal core.old.inner.config units.now ≡ None → DetStops (S.meaning shelf.old) (S.meaning shelf.new) result }
{
    if MOST_NUMBER - COMMIT_MARGIN < core.inner.config.serial {
        return Err(Stop::No(No::Limit {
            what: Counted::Number,
            most: MOST_NUMBER,
        }));
    }
    if !may_name(&mut core.inner.config, units) {
        return Err(Stop::No(No::Size));
    }
    name_rvg(shelf, core, units)
}
