// A plex of a volume whose logs may not have begun, that is detached.
ghost use Rattle.vx_loggroup.specs.Keeping.{LogsKeep, LogsStay, logs_at, SureKept, TrustsNew};
ghost use Rattle.vx_group.specs.Attaches.{region_count};
ghost use Rattle.vx_group.specs.Finds.{GroupFinds};
ghost use Rattle.std.specs.Prelude.{◌≡◌, ◌⊎◌, ℕ, Err, false, IfErr, IsOk, IsTrue, List, None, OnOk, Some, true};
ghost use Rattle.vx_copies.specs.Commits.{MoreFailed};
ghost use Rattle.vx_disk.specs.Shelf.{Goes, Nothing};
ghost use Rattle.vx_group.specs.Creates.{SameUnits};
ghost use Rattle.vx_group.specs.Dets.{DetStops, det_refusal};
ghost use Rattle.vx_group.specs.Holding.{wide};
ghost use Rattle.vx_group.specs.Loses.{LosesAlong, SameParts, TrustsStill};
ghost use Rattle.vx_group.specs.Stands.{inner_meaning};
ghost use Rattle.vx_kept.specs.Keeping.{frame_at};
ghost use Rattle.vx_loggroup.specs.Attaching.{fmr_at};
ghost use Rattle.vx_loggroup.specs.Detaching.{MapIsEmpty, MapsBegin};
ghost use Rattle.vx_loggroup.specs.Fresh.{FreshStands, ListMaps, LogsFirst};
ghost use Rattle.vx_loggroup.specs.LoggedVolumes.{LoggedStands, is_alike as is_alike_is};
ghost use Rattle.vx_loggroup.specs.Moving.{MovesDet};
ghost use Rattle.vx_logged.specs.Logged.{TrustsIn};
ghost use Rattle.vx_logs.specs.declared.logs.Logs.{Logs as LogsValue};
ghost use Rattle.vx_model.specs.declared.errors.Stop.TheVariants.{No as Refused};
ghost use Rattle.vx_model.specs.declared.no.No.{No as NoValue};
ghost use Rattle.vx_volume.specs.Plexes.{active};
ghost use Rattle.vx_logged.specs.Behind.{MapSaid};

use crate::detaching::det_whole;
use crate::first::begin_first;
use crate::fresh::takes_fresh;
use vx_disk::{Shelf, refusal};
use vx_group::{GroupCore, refuse_det};
use vx_logs::Logs;
use vx_model::Stop;
use vx_model::limits::{MOST_NUMBER, MOST_VOLUMES};
use vx_volume::is_active;

// So many serials are left at least where a detach may commit, beside those that beginnings of logs take.
const BEGIN_MARGIN: u64 = 65_563;

// Begins the logs of a volume that is fresh, before a plex of it is detached that is ACTIVE; where the detach is refused, or serials are few, it
// does nothing.
fn begin_before<S: Shelf>(
    shelf: &mut S,
    core: &mut GroupCore,
    logs: &mut Vec<Logs>,
    alike: &[bool; MOST_VOLUMES],
    fresh: &mut [bool; MOST_VOLUMES],
    stopped: bool,
    vol: u32,
    plex: u32,
) -> Result<(), Stop>
    requires stands { LoggedStands core.old logs.old.items alike.now stopped (S.meaning shelf.old) }
    requires fresh { FreshStands core.old fresh.old (S.meaning shelf.old) }
    ensures stands { LoggedStands core.new logs.new.items alike.now stopped (S.meaning shelf.new) }
    ensures fresh { FreshStands core.new fresh.new (S.meaning shelf.new) }
    ensures goes { Goes Nothing (inner_meaning (wide core.old) (S.meaning shelf.old)) (inner_meaning (wide core.new) (S.meaning shelf.new)) }
    ensures loses { LosesAlong core.old.inner.config core.new.inner.config (S.meaning shelf.old) (S.meaning shelf.new) }
    ensures still { (w p : ℕ) → active core.new.inner.config w p ≡ active core.old.inner.config w p }
    ensures below { SameUnits (S.meaning shelf.old) (S.meaning shelf.new) }
    ensures first { LogsFirst vol (region_count (wide core.old).config vol) logs.old.items logs.new.items }
    ensures news { ListMaps core.old.inner.config vol logs.old.items logs.new.items }
    ensures since { TrustsNew vol (logs_at logs.new.items vol) core.old core.new }
    ensures trusts { TrustsStill core.old.inner.config core.new.inner.config }
    ensures refused { (no : NoValue) → det_refusal core.old.inner.config vol plex ≡ Some no → IsOk result × (core.new ≡ core.old) × (shelf.new ≡ shelf.old) × (logs.new.items ≡ logs.old.items) }
    ensures may { det_refusal core.old.inner.config vol plex ≡ None → OnOk result (det_refusal core.new.inner.config vol plex ≡ None) }
    ensures stays { LogsStay core.old.inner.config core.new.inner.config logs.old.items logs.new.items (S.meaning shelf.old) (S.meaning shelf.new) }
    ensures trust { OnOk result (core.old.inner.committed ≡ true → core.new.inner.committed ≡ true) }
    ensures agreed { IfErr result (λ e. core.old.inner.committed ≡ true → core.new.inner.agreed ≡ true) }
    ensures finds { GroupFinds core.old core.new (S.meaning shelf.old) (S.meaning shelf.new) }
    ensures cause { DetStops (S.meaning shelf.old) (S.meaning shelf.new) result }
{
    if refuse_det(&core.inner.config, vol, plex).is_some() {
        return Ok(());
    }
    if MOST_NUMBER - BEGIN_MARGIN < core.inner.config.serial {
        return Ok(());
    }
    if !is_active(&core.inner.config, vol, plex) {
        return Ok(());
    }
    if !takes_fresh(fresh, stopped, vol) {
        return Ok(());
    }
    match begin_first(shelf, core, logs, alike, vol) {
        Ok(()) => Ok(()),
        Err(error) => Err(Stop::No(refusal(error))),
    }
}

/// Detaches a plex of a volume, of which the logs begin first where it is fresh. Nothing changes where the plex is not ACTIVE.
///
/// Answers what a detach answers without logs; a commit that is refused in the beginning is one of the detach.
pub fn det_fresh<S: Shelf>(
    shelf: &mut S,
    core: &mut GroupCore,
    logs: &mut Vec<Logs>,
    alike: &[bool; MOST_VOLUMES],
    fresh: &mut [bool; MOST_VOLUMES],
    stopped: bool,
    vol: u32,
    plex: u32,
) -> Result<(), Stop>
    requires stands { LoggedStands core.old logs.old.items alike.now stopped (S.meaning shelf.old) }
    requires fresh { FreshStands core.old fresh.old (S.meaning shelf.old) }
    ensures stands { LoggedStands core.new logs.new.items alike.now stopped (S.meaning shelf.new) }
    ensures fresh { FreshStands core.new fresh.new (S.meaning shelf.new) }
    ensures refused { (no : NoValue) → det_refusal core.old.inner.config vol plex ≡ Some no → (result ≡ Err (Refused no)) × (core.new ≡ core.old) × (shelf.new ≡ shelf.old) × (logs.new.items ≡ logs.old.items) }
    ensures goes { Goes Nothing (inner_meaning (wide core.old) (S.meaning shelf.old)) (inner_meaning (wide core.new) (S.meaning shelf.new)) }
    ensures parts { SameParts core.old.inner.config core.new.inner.config }
    ensures disks { MoreFailed (S.meaning shelf.old) (S.meaning shelf.new) core.old.inner.config.disks core.new.inner.config.disks }
    ensures frames { (v : ℕ) → frame_at core.new.inner.config v ≡ frame_at core.old.inner.config v }
    ensures below { SameUnits (S.meaning shelf.old) (S.meaning shelf.new) }
    ensures on { (v p : ℕ) → IsTrue (active core.new.inner.config v p) → IsTrue (active core.old.inner.config v p) }
    ensures begins { OnOk result (stopped ≡ false → core.new.held ≡ None → is_alike_is alike.now vol ≡ true → IsTrue (active core.old.inner.config vol plex) → MapIsEmpty core.old.inner.config vol plex (fmr_at logs.new.items vol)) }
    ensures off { OnOk result (active core.new.inner.config vol plex ≡ false) }
    ensures stays { IfErr result (λ stop. IsTrue (S.meaning shelf.new).down ⊎ (active core.new.inner.config vol plex ≡ active core.old.inner.config vol plex)) }
    ensures kept { OnOk result (SureKept core.old core.new logs.old.items logs.new.items) }
    ensures said { IsTrue (active core.old.inner.config vol plex) → stopped ≡ false → is_alike_is alike.now vol ≡ true → OnOk result (MapSaid core.new vol (logs_at logs.new.items vol)) }
    ensures others { (w p : ℕ) → (w ≡ vol → p ≡ plex → ⊥) → active core.new.inner.config w p ≡ active core.old.inner.config w p }
    ensures maps { (ls : List LogsValue) × LogsFirst vol (region_count (wide core.old).config vol) logs.old.items ls × MapsBegin vol plex ls logs.new.items }
    ensures moves { stopped ≡ false → MovesDet core.old.inner.config core.new.inner.config vol plex (is_alike_is alike.now vol) logs.old.items logs.new.items result }
    ensures left { (w : ℕ) → (w ≡ vol → ⊥) → fmr_at logs.new.items w ≡ fmr_at logs.old.items w }
    ensures trusts { TrustsIn vol (logs_at logs.new.items vol) core.old.inner.config core.new.inner.config }
    ensures keeps { LogsKeep core.old core.new logs.old.items logs.new.items (S.meaning shelf.old) (S.meaning shelf.new) }
    ensures trust { OnOk result (core.old.inner.committed ≡ true → core.new.inner.committed ≡ true) }
    ensures agreed { IfErr result (λ e. core.old.inner.committed ≡ true → core.new.inner.agreed ≡ true) }
    ensures finds { GroupFinds core.old core.new (S.meaning shelf.old) (S.meaning shelf.new) }
    ensures cause { det_refusal core.old.inner.config vol plex ≡ None → DetStops (S.meaning shelf.old) (S.meaning shelf.new) result }
{
    match begin_before(shelf, core, logs, alike, fresh, stopped, vol, plex) {
        Ok(()) => {}
        Err(stop) => return Err(stop),
    }
    det_whole(shelf, core, logs, alike, stopped, vol, plex)
}
