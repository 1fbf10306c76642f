// A group that keeps the dirty region logs of its volumes.
ghost use Rattle.vx_loggroup.specs.Keeping.{LogsKeep, logs_at, SaysLosses};
ghost use Rattle.vx_logged.specs.Behind.{MapSaid};
ghost use Rattle.vx_group.specs.Finds.{BackFinds, CoreFinds, GroupFinds};
ghost use Rattle.std.specs.Prelude.{◌≡◌, ◌⊎◌, ◌-◌, ◌<◌, ◌≤◌, ℕ, Err, IfErr, IfOk, IfSome, IsTrue, List, None, Ok, OnOk, Some, true, false};
ghost use Rattle.vx_config.specs.Table.{greatest};
ghost use Rattle.vx_copyio.specs.Labelling.{HasSmall};
ghost use Rattle.vx_disk.specs.Shelf.{Goes, Nothing};
ghost use Rattle.vx_group.specs.Attaches.{GroupAttachEnds, att_refusal, missed_regions, region_count};
ghost use Rattle.vx_group.specs.Calls.{BackAgrees, GivesBack, GroupCreated, GroupDeported, GroupStays, ImportsAgain, IsFull, KeepsUnits};
ghost use Rattle.vx_group.specs.Deports.{DeportStops, GroupCanImport};
ghost use Rattle.vx_copies.specs.Commits.{MoreFailed};
ghost use Rattle.vx_group.specs.Creates.{SameUnits};
ghost use Rattle.vx_group.specs.Loses.{SameParts};
ghost use Rattle.vx_kept.specs.Commits.{IsCommitted};
ghost use Rattle.vx_kept.specs.Keeping.{frame_at};
ghost use Rattle.vx_kept.specs.Trusts.{HasFailed};
ghost use Rattle.vx_group.specs.Dets.{DetStops, det_refusal, margin};
ghost use Rattle.vx_group.specs.Holding.{wide};
ghost use Rattle.vx_group.specs.Makes.{MakeEnds, Unmoved, make_refusal};
ghost use Rattle.vx_group.specs.Regains.{HoldsPlex, Regains};
ghost use Rattle.vx_group.specs.Resumes.{CanImport};
ghost use Rattle.vx_group.specs.Stands.{inner_meaning};
ghost use Rattle.vx_loggroup.specs.Attaching.{LoggedAttaches, MapsFollow, MapsHeld, fmr_at, leaves_maps, map_by, maps_gone};
ghost use Rattle.vx_loggroup.specs.Detaching.{MapIsEmpty, MapsBegin};
ghost use Rattle.vx_loggroup.specs.Facts.{LoggedFact};
ghost use Rattle.vx_loggroup.specs.LoggedVolumes.{LoggedStands, is_alike};
ghost use Rattle.vx_loggroup.specs.Fresh.{FreshStands, LogsFirst};
ghost use Rattle.vx_loggroup.specs.Mirrors.{MirrorsKeep, names_none, names_plex};
ghost use Rattle.vx_loggroup.specs.Moving.{DeportKeeps, DeportMaps, MapsBeginIn, MapsEnd, MapsMove, MovesAtt, MovesDet, in_none, no_volume, only_volume};
ghost use Rattle.vx_loggroup.specs.Opens.{DeportTells, LoggedImported};
ghost use Rattle.vx_logimport.specs.Rests.{LogsTell};
ghost use Rattle.vx_logs.specs.declared.logs.Logs.{Logs as LogsValue};
ghost use Rattle.vx_model.specs.declared.errors.Stop.TheVariants.{No as Refused};
ghost use Rattle.vx_model.specs.declared.limits.TheConstants.{MOST_DISKS};
ghost use Rattle.vx_model.specs.declared.no.No.{No as NoValue};
ghost use Rattle.vx_model.specs.declared.no.No.TheVariants.{Size};
ghost use Rattle.vx_volume.specs.Plexes.{active};
ghost use Rattle.vx_loggroup.specs.Settled.{SettledFact};

use crate::deporting::deport_whole;
use crate::detached::det_fresh;
use crate::failed_maps::att_held;
use crate::making::make_fresh;
use crate::opening::{Opened, open_logged};
use std::alloc::Global;
use vx_config::Config;
use vx_disk::Shelf;
use vx_group::{GroupCore, start};
use vx_layout::Shape;
use vx_logimport::Rested;
use vx_logs::Logs;
use vx_model::limits::MOST_VOLUMES;
use vx_model::{Name, Stop};

/// A group over a shelf, with the dirty region logs of its volumes. Its units are its volumes.
#[derive(Drop)]
pub struct LoggedGroup<S: Shelf> {
    pub(crate) shelf: S,
    pub(crate) core: GroupCore,
    /// Of each volume its logs.
    pub(crate) logs: Vec<Logs>,
    /// Of each volume whether its plexes are alike.
    pub(crate) alike: [bool; MOST_VOLUMES],
    /// Of each volume whether its logs may begin yet: of each block of it a crash leaves one value.
    pub(crate) fresh: [bool; MOST_VOLUMES],
    /// Logs are stopped, as no serial is left to commit that one is lost.
    pub(crate) stopped: bool,
    pub(crate) ghost stands: { LoggedFact core logs.items alike stopped (S.meaning shelf) },
    pub(crate) ghost begins: { FreshStands core fresh (S.meaning shelf) },
    pub(crate) ghost settles: { SettledFact core alike (S.meaning shelf) },
}

impl<S: Shelf> LoggedGroup<S> {
    /// Makes a group without volumes of the disks of a shelf.
    ///
    /// Answers 4 exactly where a disk has fewer than 1,024 blocks, and then nothing has changed; else 7 only where the count of the disk
    /// that it names rose, and 6 only where the shelf is then down. Where none is made the shelf is handed back. It takes memory.
    pub fn create(alloc: Global, shelf: S, site: u32) -> Result<LoggedGroup<S>, (S, Stop)>
        requires some { 0 < (S.meaning shelf).units }
        requires few { (S.meaning shelf).units ≤ MOST_DISKS }
        ensures small { HasSmall (S.meaning shelf) → result ≡ Err (shelf, Refused Size) }
        ensures same { KeepsUnits (S.meaning shelf) (λ s. S.meaning s) (λ g. g.shelf) result }
        ensures created { GroupCreated site (S.meaning shelf) (λ s. S.meaning s) (λ g. g.core) (λ g. g.shelf) result }
    {
        let mut shelf = shelf;
        match start(alloc, &mut shelf, site) {
            Ok(inner) => Ok(LoggedGroup {
                shelf,
                core: GroupCore { inner, held: None },
                logs: Vec::new(alloc),
                alike: [false; MOST_VOLUMES],
                fresh: [false; MOST_VOLUMES],
                stopped: false,
            }),
            Err(stop) => Err((shelf, stop)),
        }
    }

    /// Imports a group. Of a volume that stopped uncleanly the regions alone are copied that its log has, and all of them where no log could
    /// be read. Where its plexes are alike then, and where the disks tell that a clean stop left them so, all marks are taken off its log. The log
    /// of missed regions of one that stopped cleanly goes on. A log on a disk that was held as failed is lost. Each refusal is one of the import of a group; then the shelf is handed back.
    pub fn import(alloc: Global, shelf: S, rested: &Rested) -> Result<LoggedGroup<S>, (S, Stop)>
        requires can { CanImport (S.meaning shelf) }
        requires tells { LogsTell rested.now (S.meaning shelf) }
        ensures same { KeepsUnits (S.meaning shelf) (λ s. S.meaning s) (λ g. g.shelf) result }
        ensures imported { LoggedImported (λ s. S.meaning s) rested.now (S.meaning shelf) (λ g. g.core) (λ g. g.logs.items) (λ g. g.alike) (λ g. g.stopped) (λ g. g.shelf) result }
        ensures again { ImportsAgain (λ s. S.meaning s) result }
    {
        let mut shelf = shelf;
        match open_logged(alloc, &mut shelf, rested) {
            Ok(opened) => {
                let Opened {
                    core,
                    logs,
                    alike,
                    fresh,
                    stopped,
                } = opened;
                Ok(LoggedGroup {
                    shelf,
                    core,
                    logs,
                    alike,
                    fresh,
                    stopped,
                })
            }
            Err(stop) => Err((shelf, stop)),
        }
    }

    /// The configuration.
    pub fn config(&self) -> &Config
        ensures { result.now ≡ self.now.core.inner.config }
    {
        &self.core.inner.config
    }

    /// Whether marks are made no more, as no serial is left to commit that a log is lost.
    pub fn is_stopped(&self) -> bool
        ensures { result ≡ self.now.stopped }
    {
        self.stopped
    }

    /// Makes a volume, as a group does without logs, and answers its number. Its logs begin in its first write, or where a plex of it is detached
    /// before; till then they are held as lost.
    ///
    /// Answers what the making of a volume of a group answers. It takes memory.
    pub fn make_volume(&mut self, alloc: Global, name: &Name, want: &Shape) -> Result<u32, Stop>
        requires prefer { IfSome want.now.prefer (λ p. p < want.now.mirrors) }
        ensures refused { (no : NoValue) → make_refusal self.old.core.inner.config name.now want.now ≡ Some no → (result ≡ Err (Refused no)) × (self.new.core ≡ self.old.core) × (self.new.shelf ≡ self.old.shelf) }
        ensures stays { GroupStays self.old.core self.new.core (S.meaning self.old.shelf) (S.meaning self.new.shelf) }
        ensures below { SameUnits (S.meaning self.old.shelf) (S.meaning self.new.shelf) }
        ensures ends { make_refusal self.old.core.inner.config name.now want.now ≡ None → MakeEnds name.now want.now self.old.core.inner self.new.core.inner (S.meaning self.old.shelf) (S.meaning self.new.shelf) result }
        ensures parts { SameParts self.old.core.inner.config self.new.core.inner.config }
        ensures disks { MoreFailed (S.meaning self.old.shelf) (S.meaning self.new.shelf) self.old.core.inner.config.disks self.new.core.inner.config.disks }
        ensures held { OnOk result (self.new.core.held ≡ None) }
        ensures up { OnOk result (IsTrue (S.meaning self.new.shelf).down → ⊥) }
        ensures newest { OnOk result (IsCommitted self.new.core.inner.config (S.meaning self.new.shelf)) }
        ensures keeps { LogsKeep self.old.core self.new.core self.old.logs.items self.new.logs.items (S.meaning self.old.shelf) (S.meaning self.new.shelf) }
        ensures kept { SaysLosses self.old.core self.new.core self.old.logs.items self.new.logs.items }
        ensures trust { OnOk result (self.old.core.inner.committed ≡ true → self.new.core.inner.committed ≡ true) }
        ensures whole { OnOk result ((self.new.core.inner.committed ≡ true) ⊎ HasFailed self.new.core.inner.config.disks) }
        ensures agreed { IfErr result (λ e. self.old.core.inner.committed ≡ true → self.new.core.inner.agreed ≡ true) }
        ensures finds { GroupFinds self.old.core self.new.core (S.meaning self.old.shelf) (S.meaning self.new.shelf) }
        ensures mirrors { MirrorsKeep names_none self.old.core self.new.core (S.meaning self.old.shelf) (S.meaning self.new.shelf) }
        ensures unmoved { Unmoved result ((self.new.core ≡ self.old.core) × (self.new.shelf ≡ self.old.shelf)) }
        ensures moves { MapsMove self.old.core.inner.config self.new.core.inner.config in_none in_none self.old.logs.items self.new.logs.items }
        ensures comes { MapsBeginIn no_volume self.old.core.inner.config self.new.core.inner.config self.old.stopped self.new.stopped self.old.logs.items self.new.logs.items }
        ensures ends_maps { MapsEnd self.old.core.inner.config self.new.core.inner.config self.old.stopped self.new.stopped self.old.logs.items self.new.logs.items (S.meaning self.old.shelf) (S.meaning self.new.shelf) }
        ensures left { (v : ℕ) → fmr_at self.new.logs.items v ≡ fmr_at self.old.logs.items v }
        ensures alike { IfOk result (λ n. is_alike self.new.alike n ≡ true) }
        ensures begins { IfOk result (λ n. is_alike self.new.fresh n ≡ true) }
        ensures flags { (w : ℕ) → is_alike self.old.alike w ≡ true → is_alike self.new.alike w ≡ true }
        ensures stopped { self.new.stopped ≡ self.old.stopped }
    {
        make_fresh(
            alloc,
            &mut self.shelf,
            &mut self.core,
            &mut self.logs,
            &mut self.alike,
            &mut self.fresh,
            self.stopped,
            name,
            want,
        )
    }

    /// Detaches a plex, as a group does without logs. Where no write of the volume failed since the import, the map of the plex begins then: it has
    /// missed no region yet. Where it is refused and the shelf is not down, the plex is in its state as before.
    /// A log that is in memory no more behind one that is done is held as lost, of each volume of which it was so before; and of this one its log of
    /// missed regions, where the plex was ACTIVE, the plexes of the volume are alike and logs go on; unless no serial is left to say so.
    pub fn det(&mut self, vol: u32, plex: u32) -> Result<(), Stop>
        ensures refused { (no : NoValue) → det_refusal self.old.core.inner.config vol plex ≡ Some no → (result ≡ Err (Refused no)) × (self.new.core ≡ self.old.core) × (self.new.shelf ≡ self.old.shelf) × (self.new.logs.items ≡ self.old.logs.items) }
        ensures goes { Goes Nothing (inner_meaning (wide self.old.core) (S.meaning self.old.shelf)) (inner_meaning (wide self.new.core) (S.meaning self.new.shelf)) }
        ensures parts { SameParts self.old.core.inner.config self.new.core.inner.config }
        ensures disks { MoreFailed (S.meaning self.old.shelf) (S.meaning self.new.shelf) self.old.core.inner.config.disks self.new.core.inner.config.disks }
        ensures frames { (v : ℕ) → frame_at self.new.core.inner.config v ≡ frame_at self.old.core.inner.config v }
        ensures below { SameUnits (S.meaning self.old.shelf) (S.meaning self.new.shelf) }
        ensures on { (v p : ℕ) → IsTrue (active self.new.core.inner.config v p) → IsTrue (active self.old.core.inner.config v p) }
        ensures begins { OnOk result (self.old.stopped ≡ false → self.new.core.held ≡ None → is_alike self.old.alike vol ≡ true → IsTrue (active self.old.core.inner.config vol plex) → MapIsEmpty self.old.core.inner.config vol plex (fmr_at self.new.logs.items vol)) }
        ensures off { OnOk result (active self.new.core.inner.config vol plex ≡ false) }
        ensures stays { IfErr result (λ stop. IsTrue (S.meaning self.new.shelf).down ⊎ (active self.new.core.inner.config vol plex ≡ active self.old.core.inner.config vol plex)) }
        ensures kept { OnOk result (SaysLosses self.old.core self.new.core self.old.logs.items self.new.logs.items) }
        ensures said { IsTrue (active self.old.core.inner.config vol plex) → self.old.stopped ≡ false → is_alike self.old.alike vol ≡ true → OnOk result (MapSaid self.new.core vol (logs_at self.new.logs.items vol)) }
        ensures others { (w p : ℕ) → (w ≡ vol → p ≡ plex → ⊥) → active self.new.core.inner.config w p ≡ active self.old.core.inner.config w p }
        ensures mirrors { MirrorsKeep (names_plex vol plex) self.old.core self.new.core (S.meaning self.old.shelf) (S.meaning self.new.shelf) }
        ensures maps { (ls : List LogsValue) × LogsFirst vol (region_count (wide self.old.core).config vol) self.old.logs.items ls × MapsBegin vol plex ls self.new.logs.items }
        ensures moves { self.old.stopped ≡ false → MovesDet self.old.core.inner.config self.new.core.inner.config vol plex (is_alike self.old.alike vol) self.old.logs.items self.new.logs.items result }
        ensures comes { MapsBeginIn (only_volume vol) self.old.core.inner.config self.new.core.inner.config self.old.stopped self.new.stopped self.old.logs.items self.new.logs.items }
        ensures ends_maps { MapsEnd self.old.core.inner.config self.new.core.inner.config self.old.stopped self.new.stopped self.old.logs.items self.new.logs.items (S.meaning self.old.shelf) (S.meaning self.new.shelf) }
        ensures flags { (self.new.alike ≡ self.old.alike) × (self.new.stopped ≡ self.old.stopped) }
        ensures keeps { LogsKeep self.old.core self.new.core self.old.logs.items self.new.logs.items (S.meaning self.old.shelf) (S.meaning self.new.shelf) }
        ensures trust { OnOk result (self.old.core.inner.committed ≡ true → self.new.core.inner.committed ≡ true) }
        ensures agreed { IfErr result (λ e. self.old.core.inner.committed ≡ true → self.new.core.inner.agreed ≡ true) }
        ensures finds { GroupFinds self.old.core self.new.core (S.meaning self.old.shelf) (S.meaning self.new.shelf) }
        ensures cause { det_refusal self.old.core.inner.config vol plex ≡ None → DetStops (S.meaning self.old.shelf) (S.meaning self.new.shelf) result }
    {
        det_fresh(
            &mut self.shelf,
            &mut self.core,
            &mut self.logs,
            &self.alike,
            &mut self.fresh,
            self.stopped,
            vol,
            plex,
        )
    }

    /// Attaches a plex, as a group does without logs, and answers how many regions were copied: those that the plex has missed by its map, or all of
    /// the volume where no map is in memory or its disk is held as failed, and none where the plex is ACTIVE already. Of the plex it writes blocks of
    /// these regions alone. A map on a disk that is held as failed is in memory no more. No other one changes where no write of the volume failed since
    /// the import; else the map of the plex has the regions then that the map of a plex had that was ACTIVE. Where the maps of the volume go from memory
    /// in that, their log is committed as lost before the answer, while serials are left; where this is refused so is the attach.
    pub fn att(&mut self, vol: u32, plex: u32) -> Result<u64, Stop>
        ensures refused { (no : NoValue) → att_refusal self.old.core.inner.config vol plex ≡ Some no → (result ≡ Err (Refused no)) × (self.new.core ≡ self.old.core) × (self.new.shelf ≡ self.old.shelf) }
        ensures tests { (no : NoValue) → att_refusal self.old.core.inner.config vol plex ≡ Some no → MapsHeld self.old.core.inner.config self.old.logs.items self.new.logs.items }
        ensures already { att_refusal self.old.core.inner.config vol plex ≡ None → IsTrue (active self.old.core.inner.config vol plex) → (result ≡ Ok 0) × (self.new.core ≡ self.old.core) × (self.new.shelf ≡ self.old.shelf) }
        ensures count { active self.old.core.inner.config vol plex ≡ false → IfOk result (λ n. n ≡ missed_regions self.old.core.inner.config vol plex (map_by self.old.logs.items self.old.core.inner.config self.old.stopped (S.meaning self.old.shelf).down vol plex)) }
        ensures attaches { LoggedAttaches (leaves_maps (is_alike self.old.alike vol) self.old.stopped (maps_gone self.old.core.inner.config self.old.logs.items self.new.logs.items vol) result) vol plex (map_by self.old.logs.items self.old.core.inner.config self.old.stopped (S.meaning self.old.shelf).down vol plex) self.old.core self.new.core (S.meaning self.old.shelf) (S.meaning self.new.shelf) }
        ensures ends { active self.old.core.inner.config vol plex ≡ false → GroupAttachEnds vol plex self.new.core.inner.config (S.meaning self.new.shelf) result }
        ensures regains { Regains self.old.core.inner.config self.new.core.inner.config vol plex (S.meaning self.old.shelf) (S.meaning self.new.shelf) }
        ensures held { active self.old.core.inner.config vol plex ≡ false → OnOk result (HoldsPlex (λ s. S.meaning s) self.old.core.inner.config self.new.core.inner.config vol plex self.new.shelf) }
        ensures mirrors { MirrorsKeep (names_plex vol plex) self.old.core self.new.core (S.meaning self.old.shelf) (S.meaning self.new.shelf) }
        ensures logs { leaves_maps (is_alike self.old.alike vol) self.old.stopped (maps_gone self.old.core.inner.config self.old.logs.items self.new.logs.items vol) result ≡ true → MapsHeld self.old.core.inner.config self.old.logs.items self.new.logs.items }
        ensures follows { leaves_maps (is_alike self.old.alike vol) self.old.stopped (maps_gone self.old.core.inner.config self.old.logs.items self.new.logs.items vol) result ≡ false → MapsFollow self.old.core.inner.config vol plex self.old.logs.items self.new.logs.items }
        ensures moves { MovesAtt (leaves_maps (is_alike self.old.alike vol) self.old.stopped (maps_gone self.old.core.inner.config self.old.logs.items self.new.logs.items vol) result) self.old.core.inner.config self.new.core.inner.config vol plex self.old.logs.items self.new.logs.items result }
        ensures kept { active self.old.core.inner.config vol plex ≡ false → is_alike self.old.alike vol ≡ false → self.old.stopped ≡ false → OnOk result (MapSaid self.new.core vol (logs_at self.new.logs.items vol)) }
        ensures comes { MapsBeginIn no_volume self.old.core.inner.config self.new.core.inner.config self.old.stopped self.new.stopped self.old.logs.items self.new.logs.items }
        ensures ends_maps { MapsEnd self.old.core.inner.config self.new.core.inner.config self.old.stopped self.new.stopped self.old.logs.items self.new.logs.items (S.meaning self.old.shelf) (S.meaning self.new.shelf) }
        ensures flags { (self.new.alike ≡ self.old.alike) × (self.new.stopped ≡ self.old.stopped) }
        ensures keeps { LogsKeep self.old.core self.new.core self.old.logs.items self.new.logs.items (S.meaning self.old.shelf) (S.meaning self.new.shelf) }
        ensures trust { OnOk result (self.old.core.inner.committed ≡ true → self.new.core.inner.committed ≡ true) }
        ensures finds { CoreFinds (wide self.old.core) (wide self.new.core) (S.meaning self.old.shelf) (S.meaning self.new.shelf) }
        ensures free { OnOk result (self.old.core.held ≡ None → self.new.core.held ≡ None) }
        ensures cause { att_refusal self.old.core.inner.config vol plex ≡ None → DetStops (S.meaning self.old.shelf) (S.meaning self.new.shelf) result }
    {
        att_held(
            &mut self.shelf,
            &mut self.core,
            &mut self.logs,
            &self.alike,
            self.stopped,
            vol,
            plex,
        )
    }

    /// Deports the group, as one without logs, and hands the shelf out, or gives the group back. It answers of which volumes the disks tell what a clean
    /// stop left; then they may be imported by their logs. It answers none where logs are stopped, and only there. A dirty region log that is in memory no more and
    /// not held as lost may not be read: it is the only one.
    pub fn deport(self) -> Result<(S, Option<Rested>), (LoggedGroup<S>, Stop)>
        ensures limit { greatest - margin < self.core.inner.config.serial → IsFull self.core (self.shelf, None) (λ g. g.core) (λ g. (g.shelf, None)) result }
        ensures ends { GroupDeported self.core (S.meaning self.shelf) (λ s. S.meaning s.0) (λ g. g.core) (λ g. (g.shelf, None)) result }
        ensures up { IfOk result (λ s. IsTrue (S.meaning s.0).down → ⊥) }
        ensures back { GivesBack self.core (S.meaning self.shelf) (λ s. S.meaning s.0) (λ g. g.core) (λ g. (g.shelf, None)) result }
        ensures can { GroupCanImport self.core.inner (λ s. S.meaning s.0) result }
        ensures tells { DeportTells (λ s. S.meaning s) result }
        ensures maps { DeportMaps self.core.inner.config self.stopped (λ s. S.meaning s) self.logs.items self.alike result }
        ensures kept { DeportKeeps self.core.inner.config self.stopped self.logs.items self.alike (S.meaning self.shelf) (λ g. g.core.inner.config) (λ g. g.stopped) (λ g. g.logs.items) (λ g. g.alike) (λ g. S.meaning g.shelf) result }
        ensures agreed { BackAgrees self.core (λ g. g.core) result }
        ensures finds { BackFinds self.core (S.meaning self.shelf) (λ g. g.core) (λ g. S.meaning g.shelf) result }
        ensures cause { self.core.inner.config.serial ≤ greatest - margin → DeportStops (S.meaning self.shelf) (λ s. S.meaning s.0) (λ g. (g.shelf, None)) result }
    {
        let LoggedGroup {
            shelf,
            core,
            logs,
            alike,
            fresh,
            stopped,
        } = self;
        let mut shelf = shelf;
        let mut core = core;
        match deport_whole(&mut shelf, &mut core, &logs, &alike, stopped) {
            Ok(rested) => Ok((shelf, rested)),
            Err(stop) => Err((
                LoggedGroup {
                    shelf,
                    core,
                    logs,
                    alike,
                    fresh,
                    stopped,
                },
                stop,
            )),
        }
    }

    /// Hands out the shelf below and the rest. It makes no device call and takes no memory.
    pub fn apart(self) -> (S, Opened)
        ensures shelf { result.0 ≡ self.shelf }
        ensures core { result.1.core ≡ self.core }
        ensures logs { result.1.logs ≡ self.logs }
        ensures alike { result.1.alike ≡ self.alike }
        ensures fresh { result.1.fresh ≡ self.fresh }
        ensures stopped { result.1.stopped ≡ self.stopped }
        ensures stands { LoggedStands result.1.core result.1.logs.items result.1.alike result.1.stopped (S.meaning result.0) }
        ensures begins { FreshStands result.1.core result.1.fresh (S.meaning result.0) }
        ensures settles { SettledFact result.1.core result.1.alike (S.meaning result.0) }
    {
        (
            self.shelf,
            Opened {
                core: self.core,
                logs: self.logs,
                alike: self.alike,
                fresh: self.fresh,
                stopped: self.stopped,
            },
        )
    }

    /// Joins them again, where what the rest says stands on the shelf. It makes no device call and takes no memory.
    pub fn together(shelf: S, rest: Opened) -> LoggedGroup<S>
        requires stands { LoggedStands rest.core rest.logs.items rest.alike rest.stopped (S.meaning shelf) }
        requires begins { FreshStands rest.core rest.fresh (S.meaning shelf) }
        requires settles { SettledFact rest.core rest.alike (S.meaning shelf) }
        ensures shelf { result.shelf ≡ shelf }
        ensures core { result.core ≡ rest.core }
        ensures logs { result.logs ≡ rest.logs }
        ensures alike { result.alike ≡ rest.alike }
        ensures fresh { result.fresh ≡ rest.fresh }
        ensures stopped { result.stopped ≡ rest.stopped }
    {
        let Opened {
            core,
            logs,
            alike,
            fresh,
            stopped,
        } = rest;
        LoggedGroup {
            shelf,
            core,
            logs,
            alike,
            fresh,
            stopped,
        }
    }
}
