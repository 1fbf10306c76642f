// A plex of a group with logs that is detached, and whose map begins before.
ghost use Rattle.vx_loggroup.specs.Keeping.{LogsKeep, LogsStay, logs_at, SureKept};
ghost use Rattle.vx_kept.specs.Finds.{FindsFrom, NoConfiguration};
ghost use Rattle.vx_group.specs.Finds.{GroupFinds};
ghost use Rattle.std.specs.Prelude.{◌≡◌, ◌*◌, ◌⊎◌, ◌<◌, ◌≤◌, ℕ, Err, false, IfErr, IsTrue, None, OnOk, Some, length, true, ◌+◌};
ghost use Rattle.vx_disk.specs.Shelf.{Goes, Nothing};
ghost use Rattle.vx_group.specs.Dets.{DetStops, det_refusal};
ghost use Rattle.vx_config.specs.Checks.{blocks_of as blocks_of_is, plexes_of};
ghost use Rattle.vx_copies.specs.Commits.{MoreFailed};
ghost use Rattle.vx_group.specs.Creates.{SameUnits};
ghost use Rattle.vx_group.specs.Holding.{GroupStands, wide};
ghost use Rattle.vx_group.specs.Loses.{LosesAlong, LosesPlexes, SameParts};
ghost use Rattle.vx_kept.specs.Keeping.{frame_at};
ghost use Rattle.vx_loggroup.specs.Attaching.{fmr_at};
ghost use Rattle.vx_group.specs.Stands.{inner_meaning};
ghost use Rattle.vx_grouplogs.specs.Gone.{LogsDrop};
ghost use Rattle.vx_groupmaps.specs.Missing.{OnMaps};
ghost use Rattle.vx_logged.specs.Logged.{Known, LogOn, OthersOn, TrustsIn, Narrowed};
ghost use Rattle.vx_loggroup.specs.Detaching.{LogsBegin, MapIsEmpty, MapsBegin, ReadsAlike};
ghost use Rattle.vx_loggroup.specs.LoggedVolumes.{LoggedStands, is_alike as is_alike_is};
ghost use Rattle.vx_model.specs.declared.limits.TheConstants.{MOST_VOLUMES};
ghost use Rattle.vx_model.specs.declared.errors.Stop.TheVariants.{No as Refused};
ghost use Rattle.vx_model.specs.declared.no.No.{No as NoValue};
ghost use Rattle.vx_model.specs.declared.no.No.TheVariants.{Down as DownNo};
ghost use Rattle.vx_volume.specs.Plexes.{active};
ghost use Rattle.vx_logged.specs.Behind.{MapSaid};
ghost use Rattle.vx_config.specs.Table.{greatest};

use crate::alike::is_alike;
use vx_config::blocks_of;
use vx_disk::{Shelf, refusal};
use vx_group::{GroupCore, refuse_det};
use vx_groupmaps::begin_map;
use vx_logged::{det_beside, keep_map, ready_group};
use vx_logs::Logs;
use vx_model::limits::{COMMIT_SERIALS, MOST_VOLUMES};
use vx_model::{No, Stop};
use vx_volume::is_active;

// Empties the map of a plex that reads as the plexes that are ACTIVE.
fn begin_one<S: Shelf>(
    shelf: &mut S,
    core: &GroupCore,
    one: &mut Logs,
    vol: u32,
    plex: u32,
) -> Result<(), Stop>
    requires stands { GroupStands core.now (S.meaning shelf.old) }
    requires none { core.now.held ≡ None }
    requires some { 0 < blocks_of_is core.now.inner.config.volumes vol }
    requires exists { plex < plexes_of core.now.inner.config vol }
    requires log { LogOn core.now vol one.old (S.meaning shelf.old) }
    requires known { Known core.now vol one.old (S.meaning shelf.old) }
    requires reads { ReadsAlike core.now.inner.config vol plex (S.meaning shelf.old) }
    ensures stands { GroupStands core.now (S.meaning shelf.new) }
    ensures below { Goes (OnMaps core.now.inner.config vol) (S.meaning shelf.old) (S.meaning shelf.new) }
    ensures goes { Goes Nothing (inner_meaning (wide core.now) (S.meaning shelf.old)) (inner_meaning (wide core.now) (S.meaning shelf.new)) }
    ensures log { LogOn core.now vol one.new (S.meaning shelf.new) }
    ensures known { Known core.now vol one.new (S.meaning shelf.new) }
    ensures others { OthersOn vol core.now core.now (S.meaning shelf.old) (S.meaning shelf.new) }
    ensures begins { LogsBegin plex one.old one.new }
    ensures empty { OnOk result (MapIsEmpty core.now.inner.config vol plex one.new.fmr) }
    ensures less { FindsFrom NoConfiguration (S.meaning shelf.old) (S.meaning shelf.new) }
    ensures drops { LogsDrop core.now.inner.config vol one.old one.new (S.meaning shelf.old) (S.meaning shelf.new) }
    ensures down { IfErr result (λ stop. (stop ≡ Refused DownNo) × IsTrue (S.meaning shelf.new).down) }
{
    match begin_map(one, &core.inner.config, vol, shelf, plex) {
        Ok(_) => Ok(()),
        Err(_) => {
            one.fmr = None;
            Err(Stop::No(No::Down))
        }
    }
}

// The same of a volume in its place.
fn begin_missing<S: Shelf>(
    shelf: &mut S,
    core: &GroupCore,
    logs: &mut Vec<Logs>,
    alike: &[bool; MOST_VOLUMES],
    vol: u32,
    plex: u32,
) -> Result<(), Stop>
    requires stands { LoggedStands core.now logs.old.items alike.now false (S.meaning shelf.old) }
    requires none { core.now.held ≡ None }
    requires there { vol < length core.now.inner.config.volumes }
    requires exists { plex < plexes_of core.now.inner.config vol }
    requires reads { ReadsAlike core.now.inner.config vol plex (S.meaning shelf.old) }
    ensures stands { LoggedStands core.now logs.new.items alike.now false (S.meaning shelf.new) }
    ensures below { Goes (OnMaps core.now.inner.config vol) (S.meaning shelf.old) (S.meaning shelf.new) }
    ensures goes { Goes Nothing (inner_meaning (wide core.now) (S.meaning shelf.old)) (inner_meaning (wide core.now) (S.meaning shelf.new)) }
    ensures maps { MapsBegin vol plex logs.old.items logs.new.items }
    ensures empty { OnOk result (MapIsEmpty core.now.inner.config vol plex (fmr_at logs.new.items vol)) }
    ensures less { FindsFrom NoConfiguration (S.meaning shelf.old) (S.meaning shelf.new) }
    ensures stays { LogsStay core.now.inner.config core.now.inner.config logs.old.items logs.new.items (S.meaning shelf.old) (S.meaning shelf.new) }
    ensures down { IfErr result (λ stop. (stop ≡ Refused DownNo) × IsTrue (S.meaning shelf.new).down) }
{
    if blocks_of(&core.inner.config, vol) == 0 {
        return Ok(());
    }
    begin_one(shelf, core, &mut logs[vol as usize], vol, plex)
}

// Commits that the log of missed regions of a volume is lost, where it is in memory no more.
fn keep_begun<S: Shelf>(
    shelf: &mut S,
    core: &mut GroupCore,
    logs: &Vec<Logs>,
    alike: &[bool; MOST_VOLUMES],
    vol: u32,
) -> Result<(), Stop>
    requires stands { LoggedStands core.old logs.now.items alike.now false (S.meaning shelf.old) }
    requires none { core.old.held ≡ None }
    requires there { vol < length core.old.inner.config.volumes }
    ensures stands { LoggedStands core.new logs.now.items alike.now false (S.meaning shelf.new) }
    ensures goes { Goes Nothing (inner_meaning (wide core.old) (S.meaning shelf.old)) (inner_meaning (wide core.new) (S.meaning shelf.new)) }
    ensures loses { LosesPlexes core.old.inner.config core.new.inner.config (S.meaning shelf.old) (S.meaning shelf.new) }
    ensures rises { (u : ℕ) → (S.meaning shelf.old).faults u ≤ (S.meaning shelf.new).faults u }
    ensures still { (w p : ℕ) → active core.new.inner.config w p ≡ active core.old.inner.config w p }
    ensures below { SameUnits (S.meaning shelf.old) (S.meaning shelf.new) }
    ensures trusts { TrustsIn vol (logs_at logs.now.items vol) core.old.inner.config core.new.inner.config }
    ensures few { OnOk result (core.new.inner.config.serial ≤ core.old.inner.config.serial + 2 * COMMIT_SERIALS) }
    ensures narrow { Narrowed core.old core.new }
    ensures said { OnOk result (MapSaid core.new vol (logs_at logs.now.items vol)) }
    ensures trust { OnOk result (core.old.inner.committed ≡ true → core.new.inner.committed ≡ true) }
    ensures agreed { IfErr result (λ e. core.old.inner.committed ≡ true → core.new.inner.agreed ≡ true) }
    ensures finds { GroupFinds core.old core.new (S.meaning shelf.old) (S.meaning shelf.new) }
    ensures cause { DetStops (S.meaning shelf.old) (S.meaning shelf.new) result }
{
    match keep_map(shelf, core, &logs[vol as usize], vol) {
        Ok(_) => Ok(()),
        Err(error) => Err(Stop::No(refusal(error))),
    }
}

// Whether the map of a plex that was ACTIVE may be emptied.
fn may_begin(
    core: &GroupCore,
    alike: &[bool; MOST_VOLUMES],
    was: bool,
    stopped: bool,
    vol: u32,
) -> bool
    requires few { was ≡ true → vol < MOST_VOLUMES }
    ensures was { result ≡ true → was ≡ true }
    ensures going { result ≡ true → stopped ≡ false }
    ensures none { result ≡ true → core.now.held ≡ None }
    ensures alike { result ≡ true → is_alike_is alike.now vol ≡ true }
    ensures all { was ≡ true → stopped ≡ false → core.now.held ≡ None → is_alike_is alike.now vol ≡ true → result ≡ true }
{
    if !was {
        return false;
    }
    if stopped {
        return false;
    }
    if core.held.is_some() {
        return false;
    }
    is_alike(alike, vol)
}

// Makes a group ready for the detach of a plex that is ACTIVE: the one that is held back is detached, and where the plexes of the volume are alike the
// map of this one is emptied; a log of which the disk fails in that is lost by a commit. No plex changes its state.
fn begin_early<S: Shelf>(
    shelf: &mut S,
    core: &mut GroupCore,
    logs: &mut Vec<Logs>,
    alike: &[bool; MOST_VOLUMES],
    stopped: bool,
    vol: u32,
    plex: u32,
) -> Result<(), Stop>
    requires stands { LoggedStands core.old logs.old.items alike.now stopped (S.meaning shelf.old) }
    requires is_on { IsTrue (active core.old.inner.config vol plex) }
    requires more { core.old.inner.config.serial < greatest }
    ensures stands { LoggedStands core.new logs.new.items alike.now stopped (S.meaning shelf.new) }
    ensures goes { Goes Nothing (inner_meaning (wide core.old) (S.meaning shelf.old)) (inner_meaning (wide core.new) (S.meaning shelf.new)) }
    ensures loses { LosesAlong core.old.inner.config core.new.inner.config (S.meaning shelf.old) (S.meaning shelf.new) }
    ensures still { (w p : ℕ) → active core.new.inner.config w p ≡ active core.old.inner.config w p }
    ensures below { SameUnits (S.meaning shelf.old) (S.meaning shelf.new) }
    ensures narrow { Narrowed core.old core.new }
    ensures maps { MapsBegin vol plex logs.old.items logs.new.items }
    ensures begins { OnOk result (stopped ≡ false → is_alike_is alike.now vol ≡ true → MapIsEmpty core.old.inner.config vol plex (fmr_at logs.new.items vol)) }
    ensures free { OnOk result (core.new.held ≡ None) }
    ensures few { OnOk result (core.new.inner.config.serial ≤ core.old.inner.config.serial + 3 * COMMIT_SERIALS) }
    ensures trusts { TrustsIn vol (logs_at logs.new.items vol) core.old.inner.config core.new.inner.config }
    ensures stays { LogsStay core.old.inner.config core.new.inner.config logs.old.items logs.new.items (S.meaning shelf.old) (S.meaning shelf.new) }
    ensures kept { OnOk result (SureKept core.old core.new logs.old.items logs.new.items) }
    ensures said { OnOk result (stopped ≡ false → is_alike_is alike.now vol ≡ true → MapSaid core.new vol (logs_at logs.new.items vol)) }
    ensures trust { OnOk result (core.old.inner.committed ≡ true → core.new.inner.committed ≡ true) }
    ensures agreed { IfErr result (λ e. core.old.inner.committed ≡ true → core.new.inner.agreed ≡ true) }
    ensures finds { GroupFinds core.old core.new (S.meaning shelf.old) (S.meaning shelf.new) }
    ensures cause { DetStops (S.meaning shelf.old) (S.meaning shelf.new) result }
{
    match ready_group(shelf, core, vol) {
        Ok(_) => {}
        Err(error) => return Err(Stop::No(refusal(error))),
    }
    if !may_begin(core, alike, true, stopped, vol) {
        return Ok(());
    }
    match begin_missing(shelf, core, logs, alike, vol, plex) {
        Ok(()) => {}
        Err(stop) => return Err(stop),
    }
    keep_begun(shelf, core, logs, alike, vol)
}

/// Detaches a plex, as a group does without logs; where the plexes of the volume are alike its map begins before: it has missed no region then. A log of
/// which the disk fails in that is lost by a commit before the plex is detached. Where it is refused and the shelf is not down, the plex is in its state
/// as before.
pub fn det_whole<S: Shelf>(
    shelf: &mut S,
    core: &mut GroupCore,
    logs: &mut Vec<Logs>,
    alike: &[bool; MOST_VOLUMES],
    stopped: bool,
    vol: u32,
    plex: u32,
) -> Result<(), Stop>
    requires stands { LoggedStands core.old logs.old.items alike.now stopped (S.meaning shelf.old) }
    ensures stands { LoggedStands core.new logs.new.items alike.now stopped (S.meaning shelf.new) }
    ensures refused { (no : NoValue) → det_refusal core.old.inner.config vol plex ≡ Some no → (result ≡ Err (Refused no)) × (core.new ≡ core.old) × (shelf.new ≡ shelf.old) × (logs.new.items ≡ logs.old.items) }
    ensures goes { Goes Nothing (inner_meaning (wide core.old) (S.meaning shelf.old)) (inner_meaning (wide core.new) (S.meaning shelf.new)) }
    ensures parts { SameParts core.old.inner.config core.new.inner.config }
    ensures disks { MoreFailed (S.meaning shelf.old) (S.meaning shelf.new) core.old.inner.config.disks core.new.inner.config.disks }
    ensures frames { (v : ℕ) → frame_at core.new.inner.config v ≡ frame_at core.old.inner.config v }
    ensures below { SameUnits (S.meaning shelf.old) (S.meaning shelf.new) }
    ensures rises { (u : ℕ) → (S.meaning shelf.old).faults u ≤ (S.meaning shelf.new).faults u }
    ensures on { (v p : ℕ) → IsTrue (active core.new.inner.config v p) → IsTrue (active core.old.inner.config v p) }
    ensures begins { OnOk result (stopped ≡ false → core.new.held ≡ None → is_alike_is alike.now vol ≡ true → IsTrue (active core.old.inner.config vol plex) → MapIsEmpty core.old.inner.config vol plex (fmr_at logs.new.items vol)) }
    ensures off { OnOk result (active core.new.inner.config vol plex ≡ false) }
    ensures stays { IfErr result (λ stop. IsTrue (S.meaning shelf.new).down ⊎ (active core.new.inner.config vol plex ≡ active core.old.inner.config vol plex)) }
    ensures kept { OnOk result (SureKept core.old core.new logs.old.items logs.new.items) }
    ensures said { IsTrue (active core.old.inner.config vol plex) → stopped ≡ false → is_alike_is alike.now vol ≡ true → OnOk result (MapSaid core.new vol (logs_at logs.new.items vol)) }
    ensures others { (w p : ℕ) → (w ≡ vol → p ≡ plex → ⊥) → active core.new.inner.config w p ≡ active core.old.inner.config w p }
    ensures maps { MapsBegin vol plex logs.old.items logs.new.items }
    ensures same { active core.old.inner.config vol plex ≡ false → logs.new.items ≡ logs.old.items }
    ensures free { IsTrue (active core.old.inner.config vol plex) → OnOk result (core.new.held ≡ None) }
    ensures trusts { TrustsIn vol (logs_at logs.new.items vol) core.old.inner.config core.new.inner.config }
    ensures keeps { LogsKeep core.old core.new logs.old.items logs.new.items (S.meaning shelf.old) (S.meaning shelf.new) }
    ensures trust { OnOk result (core.old.inner.committed ≡ true → core.new.inner.committed ≡ true) }
    ensures agreed { IfErr result (λ e. core.old.inner.committed ≡ true → core.new.inner.agreed ≡ true) }
    ensures finds { GroupFinds core.old core.new (S.meaning shelf.old) (S.meaning shelf.new) }
    ensures cause { det_refusal core.old.inner.config vol plex ≡ None → DetStops (S.meaning shelf.old) (S.meaning shelf.new) result }
{
    if let Some(no) = refuse_det(&core.inner.config, vol, plex) {
        return Err(Stop::No(no));
    }
    if !is_active(&core.inner.config, vol, plex) {
        return Ok(());
    }
    match begin_early(shelf, core, logs, alike, stopped, vol, plex) {
        Ok(()) => {}
        Err(stop) => return Err(stop),
    }
    det_beside(shelf, core, vol, plex)
}
