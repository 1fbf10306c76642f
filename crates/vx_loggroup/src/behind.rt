// A flush of a group with logs behind a write.
ghost use Rattle.vx_loggroup.specs.Keeping.{LogsKeep, logs_at, LogsKept, SaysLosses, SureKept};
ghost use Rattle.vx_group.specs.Blames.{MarksOn};
ghost use Rattle.vx_group.specs.GivesUp.{FaultsBy};
ghost use Rattle.vx_group.specs.Finds.{GroupFinds};
ghost use Rattle.std.specs.Prelude.{◌≡◌, ◌⊎◌, ◌+◌, ◌<◌, ◌≤◌, IfErr, OnOk, true, false, ℕ, IsTrue, None};
ghost use Rattle.vx_disk.specs.Causes.{Cause};
ghost use Rattle.vx_disk.specs.Shelf.{Flushed, Goes, Nothing};
ghost use Rattle.vx_group.specs.Holding.{wide};
ghost use Rattle.vx_group.specs.Loses.{LosesAlong, LosesPlexes};
ghost use Rattle.vx_group.specs.Stands.{inner_meaning};
ghost use Rattle.vx_loggroup.specs.LoggedVolumes.{LoggedStands, is_alike as is_alike_is};
ghost use Rattle.vx_logged.specs.Begun.{fell_in};
ghost use Rattle.vx_logged.specs.Logged.{TrustsIn, are_off};
ghost use Rattle.vx_loggroup.specs.Marks.{HoldMaps, MarksVolume, NotesMaps, RunsMaps};
ghost use Rattle.vx_loggroup.specs.Attaching.{fmr_at};
ghost use Rattle.vx_loggroup.specs.Mirrors.{MirrorsKeep, names_none};
ghost use Rattle.vx_loggroup.specs.Moving.{FollowsRun, MapsBeginIn, MapsEnd, no_volume};
ghost use Rattle.vx_logs.specs.Writes.{first_region, last_region};
ghost use Rattle.vx_model.specs.declared.limits.TheConstants.{MOST_VOLUMES};
ghost use Rattle.vx_volume.specs.Plexes.{active};
ghost use Rattle.vx_config.specs.Checks.{blocks_of as blocks_of_is};

use crate::alike::{is_alike, is_sure};
use crate::group::LoggedGroup;
use vx_disk::{Shelf, ShelfError};
use vx_group::GroupCore;
use vx_logged::flush_noted;
use vx_logs::Logs;
use vx_model::limits::MOST_VOLUMES;

// Makes a volume durable behind a write of a run of its blocks, as `flush_whole` does. A plex that fails in it misses the regions of the run, and
// where its plexes are alike no others; so it is behind a refusal too, unless the shelf is down.
fn flush_run<S: Shelf>(
    shelf: &mut S,
    core: &mut GroupCore,
    logs: &mut Vec<Logs>,
    alike: &[bool; MOST_VOLUMES],
    stopped: bool,
    vol: u32,
    block: u64,
    count: u64,
) -> Result<(), ShelfError>
    requires stands { LoggedStands core.old logs.old.items alike.now stopped (S.meaning shelf.old) }
    requires there { vol < (inner_meaning (wide core.old) (S.meaning shelf.old)).units }
    requires within { block + count ≤ (inner_meaning (wide core.old) (S.meaning shelf.old)).size vol }
    ensures stands { LoggedStands core.new logs.new.items alike.now stopped (S.meaning shelf.new) }
    ensures goes { Goes Nothing (inner_meaning (wide core.old) (S.meaning shelf.old)) (inner_meaning (wide core.new) (S.meaning shelf.new)) }
    ensures loses { LosesAlong core.old.inner.config core.new.inner.config (S.meaning shelf.old) (S.meaning shelf.new) }
    ensures ok { OnOk result (Flushed vol (inner_meaning (wide core.old) (S.meaning shelf.old)) (inner_meaning (wide core.new) (S.meaning shelf.new))) }
    ensures keeps { LogsKeep core.old core.new logs.old.items logs.new.items (S.meaning shelf.old) (S.meaning shelf.new) }
    ensures finds { GroupFinds core.old core.new (S.meaning shelf.old) (S.meaning shelf.new) }
    ensures marks { MarksVolume (wide core.old).config vol (first_region block) (last_region block count) logs.old.items logs.new.items }
    ensures maps { NotesMaps (fell_in core.old core.new vol) (are_off core.new vol) vol (first_region block) (last_region block count) logs.old.items logs.new.items }
    ensures begins { is_alike_is alike.now vol ≡ true → stopped ≡ false → OnOk result (RunsMaps (fell_in core.old core.new vol) vol (first_region block) (last_region block count) logs.new.items) }
    ensures left { is_alike_is alike.now vol ≡ true → stopped ≡ false → IfErr result (λ e. IsTrue (S.meaning shelf.new).down ⊎ RunsMaps (fell_in core.old core.new vol) vol (first_region block) (last_region block count) logs.new.items) }
    ensures kept { OnOk result (SureKept core.old core.new logs.old.items logs.new.items) }
    ensures said { is_alike_is alike.now vol ≡ true → stopped ≡ false → 0 < blocks_of_is core.old.inner.config.volumes vol → OnOk result (LogsKept core.new logs.new.items vol) }
    ensures holds { stopped ≡ false → 0 < count → OnOk result (HoldMaps (fell_in core.old core.new vol) vol (first_region block) (last_region block count) logs.new.items) }
    ensures moves { stopped ≡ false → 0 < count → FollowsRun core.old.inner.config core.new.inner.config vol (first_region block) (last_region block count) (is_alike_is alike.now vol) logs.old.items logs.new.items result }
    ensures gone { fmr_at logs.old.items vol ≡ None → fmr_at logs.new.items vol ≡ None }
    ensures rests { core.old.held ≡ None → (w p : ℕ) → IsTrue (active core.new.inner.config w p) → IsTrue (active core.old.inner.config w p) }
    ensures trusts { TrustsIn vol (logs_at logs.new.items vol) core.old.inner.config core.new.inner.config }
    ensures trust { OnOk result (core.old.inner.committed ≡ true → core.new.inner.committed ≡ true) }
    ensures agreed { IfErr result (λ e. core.old.inner.committed ≡ true → core.new.inner.agreed ≡ true) }
    ensures unsure { MarksOn vol core.old.inner.unsure core.new.inner.unsure result }
    ensures gives_up { FaultsBy vol core.old.inner.config core.new.inner (S.meaning shelf.old) (S.meaning shelf.new) result }
    ensures cause { Cause (inner_meaning (wide core.old) (S.meaning shelf.old)) (inner_meaning (wide core.new) (S.meaning shelf.new)) vol result }
{
    let down = shelf.is_down();
    let sure = is_sure(is_alike(alike, vol), stopped, down);
    flush_noted(
        shelf,
        core,
        &mut logs[vol as usize],
        !stopped,
        sure,
        vol,
        block,
        count,
    )
}

impl<S: Shelf> LoggedGroup<S> {
    /// Flushes each plex that is ACTIVE, behind a write of a run of blocks of the volume, and takes marks off its log as a flush does. A plex that
    /// fails in it misses the regions of the run; and no others, where no write of the volume failed since the import. So it is while logs go
    /// on; where no serial is left no map of the volume is in memory then. Where it is refused and the shelf is not down, the plex has missed no
    /// others either. A log that is in memory no more behind one that is done is held as lost: of each volume of which it was so
    /// before, and of this one, where its plexes are alike and logs go on; unless no serial is left to say so.
    pub fn flush_run(&mut self, vol: u32, block: u64, count: u64) -> Result<(), ShelfError>
        requires there { vol < (inner_meaning (wide self.old.core) (S.meaning self.old.shelf)).units }
        requires within { block + count ≤ (inner_meaning (wide self.old.core) (S.meaning self.old.shelf)).size vol }
        ensures goes { Goes Nothing (inner_meaning (wide self.old.core) (S.meaning self.old.shelf)) (inner_meaning (wide self.new.core) (S.meaning self.new.shelf)) }
        ensures ok { OnOk result (Flushed vol (inner_meaning (wide self.old.core) (S.meaning self.old.shelf)) (inner_meaning (wide self.new.core) (S.meaning self.new.shelf))) }
        ensures keeps { LogsKeep self.old.core self.new.core self.old.logs.items self.new.logs.items (S.meaning self.old.shelf) (S.meaning self.new.shelf) }
        ensures unsure { MarksOn vol self.old.core.inner.unsure self.new.core.inner.unsure result }
        ensures gives_up { FaultsBy vol self.old.core.inner.config self.new.core.inner (S.meaning self.old.shelf) (S.meaning self.new.shelf) result }
        ensures cause { Cause (inner_meaning (wide self.old.core) (S.meaning self.old.shelf)) (inner_meaning (wide self.new.core) (S.meaning self.new.shelf)) vol result }
        ensures mirrors { MirrorsKeep names_none self.old.core self.new.core (S.meaning self.old.shelf) (S.meaning self.new.shelf) }
        ensures loses { LosesPlexes self.old.core.inner.config self.new.core.inner.config (S.meaning self.old.shelf) (S.meaning self.new.shelf) }
        ensures marks { MarksVolume (wide self.old.core).config vol (first_region block) (last_region block count) self.old.logs.items self.new.logs.items }
        ensures maps { NotesMaps (fell_in self.old.core self.new.core vol) (are_off self.new.core vol) vol (first_region block) (last_region block count) self.old.logs.items self.new.logs.items }
        ensures begins { is_alike_is self.old.alike vol ≡ true → self.old.stopped ≡ false → OnOk result (RunsMaps (fell_in self.old.core self.new.core vol) vol (first_region block) (last_region block count) self.new.logs.items) }
        ensures left { is_alike_is self.old.alike vol ≡ true → self.old.stopped ≡ false → IfErr result (λ e. IsTrue (S.meaning self.new.shelf).down ⊎ RunsMaps (fell_in self.old.core self.new.core vol) vol (first_region block) (last_region block count) self.new.logs.items) }
        ensures kept { OnOk result (SaysLosses self.old.core self.new.core self.old.logs.items self.new.logs.items) }
        ensures said { is_alike_is self.old.alike vol ≡ true → self.old.stopped ≡ false → 0 < blocks_of_is self.old.core.inner.config.volumes vol → OnOk result (LogsKept self.new.core self.new.logs.items vol) }
        ensures holds { self.old.stopped ≡ false → 0 < count → OnOk result (HoldMaps (fell_in self.old.core self.new.core vol) vol (first_region block) (last_region block count) self.new.logs.items) }
        ensures moves { self.old.stopped ≡ false → 0 < count → FollowsRun self.old.core.inner.config self.new.core.inner.config vol (first_region block) (last_region block count) (is_alike_is self.old.alike vol) self.old.logs.items self.new.logs.items result }
        ensures comes { MapsBeginIn no_volume self.old.core.inner.config self.new.core.inner.config self.old.stopped self.new.stopped self.old.logs.items self.new.logs.items }
        ensures ends_maps { MapsEnd self.old.core.inner.config self.new.core.inner.config self.old.stopped self.new.stopped self.old.logs.items self.new.logs.items (S.meaning self.old.shelf) (S.meaning self.new.shelf) }
        ensures gone { (v : ℕ) → fmr_at self.old.logs.items v ≡ None → fmr_at self.new.logs.items v ≡ None }
        ensures rests { self.old.core.held ≡ None → (w p : ℕ) → IsTrue (active self.new.core.inner.config w p) → IsTrue (active self.old.core.inner.config w p) }
        ensures flags { (self.new.alike ≡ self.old.alike) × (self.new.stopped ≡ self.old.stopped) }
        ensures trust { OnOk result (self.old.core.inner.committed ≡ true → self.new.core.inner.committed ≡ true) }
        ensures agreed { IfErr result (λ e. self.old.core.inner.committed ≡ true → self.new.core.inner.agreed ≡ true) }
        ensures finds { GroupFinds self.old.core self.new.core (S.meaning self.old.shelf) (S.meaning self.new.shelf) }
    {
        flush_run(
            &mut self.shelf,
            &mut self.core,
            &mut self.logs,
            &self.alike,
            self.stopped,
            vol,
            block,
            count,
        )
    }
}
