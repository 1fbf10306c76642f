// A volume that is made.
ghost use Rattle.vx_group.specs.Finds.{CoreFinds, GroupFinds};
ghost use Rattle.std.specs.Prelude.{◌≡◌, ◌⊎◌, ◌<◌, ℕ, true, false, IsTrue, IfSome, Some, None, Err, OnOk, IfErr, length};
ghost use Rattle.vx_config.specs.Checks.{is_sound};
ghost use Rattle.vx_config.specs.Configs.{CanSpell};
ghost use Rattle.vx_config.specs.Table.{greatest};
ghost use Rattle.vx_model.specs.declared.errors.Stop.TheVariants.{No as Refused};
ghost use Rattle.vx_model.specs.declared.no.No.{No as NoValue};
ghost use Rattle.vx_group.specs.Blames.{StopsByDevice};
ghost use Rattle.vx_group.specs.Calls.{GroupStays};
ghost use Rattle.vx_group.specs.Holding.{GroupStands};
ghost use Rattle.vx_group.specs.Loses.{SameParts, TrustsStill};
ghost use Rattle.vx_group.specs.Makes.{MakeEnds, MakesBeside, StayAsWere, Unmoved, ZerosOn, make_refusal};
ghost use Rattle.vx_group.specs.Nexts.{Adds, IsNextConfig, PlanEnds};
ghost use Rattle.vx_copies.specs.Commits.{MoreFailed};
ghost use Rattle.vx_disk.specs.Moves.{Anything};
ghost use Rattle.vx_kept.specs.Commits.{IsCommitted};
ghost use Rattle.vx_kept.specs.Keeping.{Acts};
ghost use Rattle.vx_kept.specs.Trusts.{HasFailed};
ghost use Rattle.vx_group.specs.Stands.{InnerStands};
ghost use Rattle.vx_group.specs.Settles.{CoreSettles, FindsNoneClean, KeepsAlike};

use crate::detaching::fault_of;
use crate::group_core::GroupCore;
use crate::inner::Inner;
use crate::lengthening::longer;
use crate::marking::is_committed;
use crate::releasing::release;
use crate::settling::settle_headers;
use crate::shaping::{are_few, refuse_volume, volume_of};
use crate::zeroing::zero_volume;
use std::alloc::Global;
use vx_config::Config;
use vx_copies::good_of;
use vx_disk::{Shelf, ShelfError, refusal};
use vx_kept::commit_next;
use vx_layout::{Shape, find_space};
use vx_model::limits::MOST_SUBDISKS;
use vx_model::{Counted, Name, No, Stop};

// The width, whose bound is known with it.
fn width_of(want: &Shape) -> u32
    ensures { result ≡ want.now.width }
{
    want.width
}

// The configuration with the volume, in the space that is found for it.
fn plan(alloc: Global, config: &Config, name: &Name, want: &Shape) -> Result<Config, Stop>
    requires can { CanSpell config.now }
    requires checked { is_sound config.now ≡ true }
    requires may { make_refusal config.now name.now want.now ≡ None }
    requires prefer { IfSome want.now.prefer (λ p. p < want.now.mirrors) }
    ensures may { make_refusal config.now name.now want.now ≡ None }
    ensures ends { PlanEnds config.now name.now want.now result }
{
    width_of(want);
    let found = match find_space(alloc, config, want) {
        Ok(found) => found,
        Err(stop) => return Err(stop),
    };
    if !are_few(&found.plexes) {
        return Err(Stop::No(No::Limit {
            what: Counted::Subdisks,
            most: MOST_SUBDISKS as u64,
        }));
    }
    match volume_of(alloc, name, want, &found) {
        Ok(volume) => longer(alloc, config, volume),
        Err(_) => Err(Stop::OutOfMemory),
    }
}

// Writes zeros to the plexes of the last volume of the next configuration, and commits it.
fn add_last<S: Shelf>(shelf: &mut S, core: &mut Inner, next: Config) -> Result<(), ShelfError>
    requires stands { InnerStands core.old (S.meaning shelf.old) }
    requires settled { core.old.unsettled ≡ false }
    requires more { core.old.config.serial < greatest }
    requires is_next { IsNextConfig core.old.config next }
    requires up { IsTrue (S.meaning shelf.old).down → ⊥ }
    ensures stands { InnerStands core.new (S.meaning shelf.new) }
    ensures stays { StayAsWere core.old core.new (S.meaning shelf.old) (S.meaning shelf.new) }
    ensures adds { Adds core.old core.new next (S.meaning shelf.new) result }
    ensures up { OnOk result (IsTrue (S.meaning shelf.new).down → ⊥) }
    ensures parts { SameParts core.old.config core.new.config }
    ensures disks { MoreFailed (S.meaning shelf.old) (S.meaning shelf.new) core.old.config.disks core.new.config.disks }
    ensures newest { OnOk result (IsCommitted core.new.config (S.meaning shelf.new)) }
    ensures beside { Acts (ZerosOn next (length core.old.config.volumes)) Anything (S.meaning shelf.old) (S.meaning shelf.new) }
    ensures trust { OnOk result (core.old.committed ≡ true → core.new.committed ≡ true) }
    ensures whole { OnOk result ((core.new.committed ≡ true) ⊎ HasFailed core.new.config.disks) }
    ensures agreed { IfErr result (λ e. core.old.committed ≡ true → core.new.agreed ≡ true) }
    ensures off { IfErr result (λ e. core.old.committed ≡ false → core.new.committed ≡ false) }
    ensures finds { CoreFinds core.old core.new (S.meaning shelf.old) (S.meaning shelf.new) }
    ensures alikes { KeepsAlike (S.meaning shelf.old) (S.meaning shelf.new) }
    ensures nones { ((v : ℕ) → FindsNoneClean v (S.meaning shelf.old)) → core.new.unsettled ≡ false → (v : ℕ) → FindsNoneClean v (S.meaning shelf.new) }
    ensures dones { OnOk result ((v : ℕ) → FindsNoneClean v (S.meaning shelf.new)) }
    ensures logs { TrustsStill core.old.config core.new.config }
    ensures cause { StopsByDevice (S.meaning shelf.old) (S.meaning shelf.new) result }
{
    let mut next = next;
    let vol = core.config.volumes.as_slice().len() as u32;
    match zero_volume(shelf, &next, vol) {
        Ok(()) => {}
        Err(error) => return Err(error),
    }
    match commit_next(shelf, &core.config, &mut next, core.good, &mut core.room) {
        Ok(()) => {
            core.good = good_of(&next.disks);
            core.committed = is_committed(core.committed, &next.disks);
            core.agreed = core.committed;
            core.config = next;
            Ok(())
        }
        Err(no) => {
            core.config.serial = next.serial;
            core.unsettled = true;
            core.agreed = core.committed;
            core.committed = false;
            if shelf.is_down() {
                return Err(ShelfError::Down);
            }
            Err(fault_of(no, 0))
        }
    }
}

// The same, behind the headers that a refused commit asks for. A commit that is missed stays so where none is done here.
fn add<S: Shelf>(shelf: &mut S, core: &mut Inner, next: Config) -> Result<(), ShelfError>
    requires stands { InnerStands core.old (S.meaning shelf.old) }
    requires more { core.old.config.serial < greatest }
    requires is_next { IsNextConfig core.old.config next }
    requires up { IsTrue (S.meaning shelf.old).down → ⊥ }
    ensures stands { InnerStands core.new (S.meaning shelf.new) }
    ensures stays { StayAsWere core.old core.new (S.meaning shelf.old) (S.meaning shelf.new) }
    ensures adds { Adds core.old core.new next (S.meaning shelf.new) result }
    ensures up { OnOk result (IsTrue (S.meaning shelf.new).down → ⊥) }
    ensures parts { SameParts core.old.config core.new.config }
    ensures disks { MoreFailed (S.meaning shelf.old) (S.meaning shelf.new) core.old.config.disks core.new.config.disks }
    ensures newest { OnOk result (IsCommitted core.new.config (S.meaning shelf.new)) }
    ensures beside { MakesBeside core.old.config (S.meaning shelf.old) (S.meaning shelf.new) }
    ensures trust { OnOk result (core.old.committed ≡ true → core.new.committed ≡ true) }
    ensures whole { OnOk result ((core.new.committed ≡ true) ⊎ HasFailed core.new.config.disks) }
    ensures agreed { IfErr result (λ e. core.old.committed ≡ true → core.new.agreed ≡ true) }
    ensures missed { core.old.unsettled ≡ true → IfErr result (λ e. core.new.unsettled ≡ true) }
    ensures finds { CoreFinds core.old core.new (S.meaning shelf.old) (S.meaning shelf.new) }
    ensures settles { CoreSettles core.old core.new (S.meaning shelf.old) (S.meaning shelf.new) }
    ensures logs { TrustsStill core.old.config core.new.config }
    ensures cause { StopsByDevice (S.meaning shelf.old) (S.meaning shelf.new) result }
{
    let unsettled = core.unsettled;
    match settle_headers(shelf, core) {
        Ok(()) => {}
        Err(error) => return Err(error),
    }
    let mut next = next;
    next.disks = core.config.disks.copy();
    match add_last(shelf, core, next) {
        Ok(()) => Ok(()),
        Err(error) => {
            if unsettled {
                core.unsettled = true;
                return Err(error);
            }
            Err(error)
        }
    }
}

/// Makes a volume, which begins as zeros, and answers its number. Beside the configuration areas it writes zeros on the plexes of the volume
/// alone.
///
/// Answers 2 exactly where a volume has its name, else 19 exactly where there are 32 volumes, more than 8 plexes are wanted, or fewer than
/// 65,536 serials are left, else 4 exactly where it is no shape, else 11 with what find_space says, or 19 where its subdisks are too many,
/// and so far nothing has changed; else 7 only where the count of the disk that it names rose, and 6 only where the shelf is then down. It
/// takes memory.
pub fn make_in<S: Shelf>(
    alloc: Global,
    shelf: &mut S,
    core: &mut GroupCore,
    name: &Name,
    want: &Shape,
) -> Result<u32, Stop>
    requires stands { GroupStands core.old (S.meaning shelf.old) }
    requires prefer { IfSome want.now.prefer (λ p. p < want.now.mirrors) }
    ensures stands { GroupStands core.new (S.meaning shelf.new) }
    ensures refused { (no : NoValue) → make_refusal core.old.inner.config name.now want.now ≡ Some no → (result ≡ Err (Refused no)) × (core.new ≡ core.old) × (shelf.new ≡ shelf.old) }
    ensures stays { GroupStays core.old core.new (S.meaning shelf.old) (S.meaning shelf.new) }
    ensures beside { MakesBeside core.old.inner.config (S.meaning shelf.old) (S.meaning shelf.new) }
    ensures ends { make_refusal core.old.inner.config name.now want.now ≡ None → MakeEnds name.now want.now core.old.inner core.new.inner (S.meaning shelf.old) (S.meaning shelf.new) result }
    ensures parts { SameParts core.old.inner.config core.new.inner.config }
    ensures disks { MoreFailed (S.meaning shelf.old) (S.meaning shelf.new) core.old.inner.config.disks core.new.inner.config.disks }
    ensures held { OnOk result (core.new.held ≡ None) }
    ensures up { OnOk result (IsTrue (S.meaning shelf.new).down → ⊥) }
    ensures newest { OnOk result (IsCommitted core.new.inner.config (S.meaning shelf.new)) }
    ensures trust { OnOk result (core.old.inner.committed ≡ true → core.new.inner.committed ≡ true) }
    ensures whole { OnOk result ((core.new.inner.committed ≡ true) ⊎ HasFailed core.new.inner.config.disks) }
    ensures agreed { IfErr result (λ e. core.old.inner.committed ≡ true → core.new.inner.agreed ≡ true) }
    ensures unmoved { Unmoved result ((core.new ≡ core.old) × (shelf.new ≡ shelf.old)) }
    ensures finds { GroupFinds core.old core.new (S.meaning shelf.old) (S.meaning shelf.new) }
    ensures logs { TrustsStill core.old.inner.config core.new.inner.config }
{
    if let Some(no) = refuse_volume(&core.inner.config, name, want) {
        return Err(Stop::No(no));
    }
    let next = match plan(alloc, &core.inner.config, name, want) {
        Ok(next) => next,
        Err(stop) => return Err(stop),
    };
    if shelf.is_down() {
        return Err(Stop::No(No::Down));
    }
    let vol = core.inner.config.volumes.as_slice().len() as u32;
    match release(shelf, core) {
        Ok(()) => {}
        Err(error) => return Err(Stop::No(refusal(error))),
    }
    let mut next = next;
    next.serial = core.inner.config.serial;
    next.disks = core.inner.config.disks.copy();
    match add(shelf, &mut core.inner, next) {
        Ok(()) => Ok(vol),
        Err(error) => Err(Stop::No(refusal(error))),
    }
}
