// A volume of a group with logs that is made.
ghost use Rattle.vx_loggroup.specs.Keeping.{LogsKeep, SureKept};
ghost use Rattle.vx_group.specs.Finds.{GroupFinds};
ghost use Rattle.std.specs.Prelude.{◌≡◌, ◌⊎◌, ◌<◌, ℕ, true, IfErr, IfOk, IfSome, IsTrue, None, OnOk, Some, Err};
ghost use Rattle.vx_copies.specs.Commits.{MoreFailed};
ghost use Rattle.vx_group.specs.Calls.{GroupStays};
ghost use Rattle.vx_group.specs.Creates.{SameUnits};
ghost use Rattle.vx_group.specs.Loses.{SameParts, TrustsStill};
ghost use Rattle.vx_group.specs.Makes.{MakeEnds, Unmoved, make_refusal};
ghost use Rattle.vx_kept.specs.Commits.{IsCommitted};
ghost use Rattle.vx_kept.specs.Trusts.{HasFailed};
ghost use Rattle.vx_loggroup.specs.Fresh.{FreshStands};
ghost use Rattle.vx_loggroup.specs.Attaching.{fmr_at};
ghost use Rattle.vx_loggroup.specs.LoggedVolumes.{LoggedStands, is_alike};
ghost use Rattle.vx_model.specs.declared.errors.Stop.TheVariants.{No as Refused};
ghost use Rattle.vx_model.specs.declared.no.No.{No as NoValue};

use crate::alike::set_alike;
use std::alloc::Global;
use vx_disk::Shelf;
use vx_group::{GroupCore, make_in, refuse_volume};
use vx_layout::Shape;
use vx_logs::Logs;
use vx_model::limits::MOST_VOLUMES;
use vx_model::{Name, Stop};

/// Makes a volume, as a group does without logs, and answers its number. Its logs are held as lost, and none is in memory; each may begin, as the
/// plexes are alike: the volume is fresh. It takes memory.
///
/// Answers what the making of a volume of a group answers.
pub fn make_fresh<S: Shelf>(
    alloc: Global,
    shelf: &mut S,
    core: &mut GroupCore,
    logs: &mut Vec<Logs>,
    alike: &mut [bool; MOST_VOLUMES],
    fresh: &mut [bool; MOST_VOLUMES],
    stopped: bool,
    name: &Name,
    want: &Shape,
) -> Result<u32, Stop>
    requires stands { LoggedStands core.old logs.old.items alike.old stopped (S.meaning shelf.old) }
    requires fresh { FreshStands core.old fresh.old (S.meaning shelf.old) }
    requires prefer { IfSome want.now.prefer (λ p. p < want.now.mirrors) }
    ensures stands { LoggedStands core.new logs.new.items alike.new stopped (S.meaning shelf.new) }
    ensures fresh { FreshStands core.new fresh.new (S.meaning shelf.new) }
    ensures refused { (no : NoValue) → make_refusal core.old.inner.config name.now want.now ≡ Some no → (result ≡ Err (Refused no)) × (core.new ≡ core.old) × (shelf.new ≡ shelf.old) }
    ensures stays { GroupStays core.old core.new (S.meaning shelf.old) (S.meaning shelf.new) }
    ensures below { SameUnits (S.meaning shelf.old) (S.meaning shelf.new) }
    ensures ends { make_refusal core.old.inner.config name.now want.now ≡ None → MakeEnds name.now want.now core.old.inner core.new.inner (S.meaning shelf.old) (S.meaning shelf.new) result }
    ensures parts { SameParts core.old.inner.config core.new.inner.config }
    ensures disks { MoreFailed (S.meaning shelf.old) (S.meaning shelf.new) core.old.inner.config.disks core.new.inner.config.disks }
    ensures held { OnOk result (core.new.held ≡ None) }
    ensures up { OnOk result (IsTrue (S.meaning shelf.new).down → ⊥) }
    ensures newest { OnOk result (IsCommitted core.new.inner.config (S.meaning shelf.new)) }
    ensures keeps { LogsKeep core.old core.new logs.old.items logs.new.items (S.meaning shelf.old) (S.meaning shelf.new) }
    ensures kept { SureKept core.old core.new logs.old.items logs.new.items }
    ensures trust { OnOk result (core.old.inner.committed ≡ true → core.new.inner.committed ≡ true) }
    ensures whole { OnOk result ((core.new.inner.committed ≡ true) ⊎ HasFailed core.new.inner.config.disks) }
    ensures agreed { IfErr result (λ e. core.old.inner.committed ≡ true → core.new.inner.agreed ≡ true) }
    ensures unmoved { Unmoved result ((core.new ≡ core.old) × (shelf.new ≡ shelf.old)) }
    ensures left { (v : ℕ) → fmr_at logs.new.items v ≡ fmr_at logs.old.items v }
    ensures trusts { TrustsStill core.old.inner.config core.new.inner.config }
    ensures alike { IfOk result (λ n. is_alike alike.new n ≡ true) }
    ensures begins { IfOk result (λ n. is_alike fresh.new n ≡ true) }
    ensures flags { (w : ℕ) → is_alike alike.old w ≡ true → is_alike alike.new w ≡ true }
    ensures finds { GroupFinds core.old core.new (S.meaning shelf.old) (S.meaning shelf.new) }
{
    if let Some(no) = refuse_volume(&core.inner.config, name, want) {
        return Err(Stop::No(no));
    }
    match logs.push(Logs {
        drl: None,
        fmr: None,
    }) {
        Ok(()) => {}
        Err(_) => return Err(Stop::OutOfMemory),
    }
    match make_in(alloc, shelf, core, name, want) {
        Ok(vol) => {
            set_alike(alike, vol, true);
            set_alike(fresh, vol, true);
            Ok(vol)
        }
        Err(stop) => {
            logs.pop();
            Err(stop)
        }
    }
}
