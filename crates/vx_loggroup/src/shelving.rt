// A group with logs as a shelf.
ghost use Rattle.vx_loggroup.specs.Keeping.{LogsKeep, LogsKept, SaysLosses};
ghost use Rattle.vx_group.specs.Blames.{MarksOn, MarksOrFell};
ghost use Rattle.vx_group.specs.GivesUp.{FaultsBy};
ghost use Rattle.vx_group.specs.Turns.{ReadsInTurn};
ghost use Rattle.vx_group.specs.Finds.{GroupFinds};
ghost use Rattle.std.specs.Prelude.{◌≡◌, ◌*◌, ◌+◌, ◌/◌, ◌<◌, ◌≤◌, IfErr, IsTrue, OnOk, true, false, length, ◌⊎◌, ℕ, None};
ghost use Rattle.vx_config.specs.Table.{greatest};
ghost use Rattle.vx_disk.specs.Causes.{Calls, Cause, CountsOnly, Names, OnDisks, Works};
ghost use Rattle.vx_disk.specs.Disks.{Untouched};
ghost use Rattle.vx_disk.specs.Shelf.{DisksFlushed, DisksWrote, Fits, Flushed, Goes, Nothing, Read, Written, Wrote};
ghost use Rattle.vx_group.specs.Holding.{wide};
ghost use Rattle.vx_group.specs.Laws.{group_lawful};
ghost use Rattle.vx_group.specs.Loses.{LosesPlexes};
ghost use Rattle.vx_group.specs.Stands.{inner_meaning};
ghost use Rattle.vx_loggroup.specs.LoggedVolumes.{is_alike};
ghost use Rattle.vx_logged.specs.Begun.{begun_in, fell_in};
ghost use Rattle.vx_logged.specs.Behind.{MarkedBefore, none_missing, those_missing};
ghost use Rattle.vx_loggroup.specs.Marks.{ClearsVolume, EmptyMaps, MarksVolume, NotesMaps, RunsMaps};
ghost use Rattle.vx_loggroup.specs.Mirrors.{MirrorsKeep, names_none};
ghost use Rattle.vx_loggroup.specs.Moving.{MapsBeginIn, MapsEnd, MovesRun, only_volume};
ghost use Rattle.vx_logs.specs.Writes.{first_region, last_region};
ghost use Rattle.vx_loggroup.specs.Attaching.{fmr_at};
ghost use Rattle.vx_volume.specs.Plexes.{active};
ghost use Rattle.vx_config.specs.Checks.{blocks_of as blocks_of_is};

use crate::fresh::write_fresh;
use crate::group::LoggedGroup;
use crate::keeping::read_whole;
use crate::whole::flush_whole;
use vx_disk::{Shelf, ShelfError};
use vx_model::limits::{BLOCK, COMMIT_SERIALS};

impl<S: Shelf> Shelf for LoggedGroup<S> {
    ghost meaning = { λ g. inner_meaning (wide g.core) (S.meaning g.shelf) };

    fn units(&self) -> u32 {
        self.core.inner.config.volumes.as_slice().len() as u32
    }

    fn size(&self, unit: u32) -> u64 {
        self.core.inner.config.volumes.as_slice()[unit as usize].blocks
    }

    /// Reads from one plex that is ACTIVE in the configuration. All logs are as they were.
    fn read(&mut self, unit: u32, block: u64, into: &mut [u8]) -> Result<(), ShelfError>
        requires { Fits (inner_meaning (wide self.old.core) (S.meaning self.old.shelf)) unit block (length into.old) }
        ensures goes { Goes Nothing (inner_meaning (wide self.old.core) (S.meaning self.old.shelf)) (inner_meaning (wide self.new.core) (S.meaning self.new.shelf)) }
        ensures ok { OnOk result (Read (inner_meaning (wide self.old.core) (S.meaning self.old.shelf)) unit block into.new) }
        ensures down { (inner_meaning (wide self.new.core) (S.meaning self.new.shelf)).down ≡ (inner_meaning (wide self.old.core) (S.meaning self.old.shelf)).down }
        ensures turn { ReadsInTurn self.old.core.inner.config unit self.old.core.inner.next self.new.core.inner.next block (length into.old / BLOCK) into.new (S.meaning self.old.shelf) (S.meaning self.new.shelf) result }
        ensures unsure { self.new.core.inner.unsure ≡ self.old.core.inner.unsure }
        ensures cause { Cause (inner_meaning (wide self.old.core) (S.meaning self.old.shelf)) (inner_meaning (wide self.new.core) (S.meaning self.new.shelf)) unit result }
        ensures counts { CountsOnly unit result (inner_meaning (wide self.old.core) (S.meaning self.old.shelf)).faults (inner_meaning (wide self.new.core) (S.meaning self.new.shelf)).faults }
        ensures names { Names (inner_meaning (wide self.old.core) (S.meaning self.old.shelf)).disks unit result }
        ensures works { OnOk result (Works (inner_meaning (wide self.old.core) (S.meaning self.old.shelf)).disks unit) }
        ensures disks { OnDisks (inner_meaning (wide self.old.core) (S.meaning self.old.shelf)).disks (inner_meaning (wide self.new.core) (S.meaning self.new.shelf)).disks Untouched }
        ensures shown { OnOk result (Read (inner_meaning self.old.core.inner (S.meaning self.old.shelf)) unit block into.new) }
        ensures same { self.new.core.inner.config ≡ self.old.core.inner.config }
        ensures held { self.new.core.held ≡ self.old.core.held }
        ensures trusted { (self.new.core.inner.committed ≡ self.old.core.inner.committed) × (self.new.core.inner.agreed ≡ self.old.core.inner.agreed) }
        ensures settled { self.new.core.inner.unsettled ≡ self.old.core.inner.unsettled }
        ensures below { Goes Nothing (S.meaning self.old.shelf) (S.meaning self.new.shelf) }
        ensures keeps { LogsKeep self.old.core self.new.core self.old.logs.items self.new.logs.items (S.meaning self.old.shelf) (S.meaning self.new.shelf) }
        ensures mirrors { MirrorsKeep names_none self.old.core self.new.core (S.meaning self.old.shelf) (S.meaning self.new.shelf) }
        ensures logs { self.new.logs.items ≡ self.old.logs.items }
        ensures alike { self.new.alike ≡ self.old.alike }
        ensures stopped { self.new.stopped ≡ self.old.stopped }
    {
        read_whole(
            &mut self.shelf,
            &mut self.core,
            &self.logs,
            &self.alike,
            self.stopped,
            unit,
            block,
            into,
        )
    }

    /// Writes to each plex that is ACTIVE; the logs of a volume begin in its first write. The regions of the run are durably marked first, and no
    /// others: as dirty, and as missed by each plex that is STALE; a log of which the disk fails is lost by a commit before a plex is written. A plex that fails in the write misses these regions too.
    /// Behind a refusal they are noted as missed by each plex; and where no write of the volume failed before, the maps of those that were ACTIVE have no
    /// others then. Behind an Ok each log of the volume is in memory or held as lost, unless logs are stopped or
    /// no serial is left.
    fn write(&mut self, unit: u32, block: u64, bytes: &[u8]) -> Result<(), ShelfError>
        requires { Fits (inner_meaning (wide self.old.core) (S.meaning self.old.shelf)) unit block (length bytes.now) }
        ensures goes { Goes (Written unit block bytes.now) (inner_meaning (wide self.old.core) (S.meaning self.old.shelf)) (inner_meaning (wide self.new.core) (S.meaning self.new.shelf)) }
        ensures ok { OnOk result (Wrote unit block bytes.now (inner_meaning (wide self.old.core) (S.meaning self.old.shelf)) (inner_meaning (wide self.new.core) (S.meaning self.new.shelf))) }
        ensures keeps { LogsKeep self.old.core self.new.core self.old.logs.items self.new.logs.items (S.meaning self.old.shelf) (S.meaning self.new.shelf) }
        ensures kept { self.new.stopped ≡ false → OnOk result (LogsKept self.new.core self.new.logs.items unit) }
        ensures unsure { MarksOrFell unit self.old.core.inner.unsure self.new.core.inner.unsure result }
        ensures gives_up { FaultsBy unit self.old.core.inner.config self.new.core.inner (S.meaning self.old.shelf) (S.meaning self.new.shelf) result }
        ensures cause { Cause (inner_meaning (wide self.old.core) (S.meaning self.old.shelf)) (inner_meaning (wide self.new.core) (S.meaning self.new.shelf)) unit result }
        ensures names { Names (inner_meaning (wide self.old.core) (S.meaning self.old.shelf)).disks unit result }
        ensures works { OnOk result (Works (inner_meaning (wide self.old.core) (S.meaning self.old.shelf)).disks unit) }
        ensures disks { OnDisks (inner_meaning (wide self.old.core) (S.meaning self.old.shelf)).disks (inner_meaning (wide self.new.core) (S.meaning self.new.shelf)).disks (λ o n. Calls (inner_meaning (wide self.old.core) (S.meaning self.old.shelf)) (DisksWrote unit block bytes.now) o n result) }
        ensures mirrors { MirrorsKeep names_none self.old.core self.new.core (S.meaning self.old.shelf) (S.meaning self.new.shelf) }
        ensures loses { LosesPlexes self.old.core.inner.config self.new.core.inner.config (S.meaning self.old.shelf) (S.meaning self.new.shelf) }
        ensures marks { MarksVolume (wide self.old.core).config unit (first_region block) (last_region block (length bytes.now / BLOCK)) self.old.logs.items self.new.logs.items }
        ensures notes { NotesMaps (begun_in self.old.core self.new.core unit (is_alike self.old.alike unit) result) (those_missing self.new.core unit result) unit (first_region block) (last_region block (length bytes.now / BLOCK)) self.old.logs.items self.new.logs.items }
        ensures begins { is_alike self.old.alike unit ≡ true → self.new.stopped ≡ false → OnOk result (RunsMaps (fell_in self.old.core self.new.core unit) unit (first_region block) (last_region block (length bytes.now / BLOCK)) self.new.logs.items) }
        ensures refused { is_alike self.old.alike unit ≡ true → self.new.stopped ≡ false → (IsTrue (S.meaning self.old.shelf).down → ⊥) → IfErr result (λ e. is_alike self.new.alike unit ≡ false → RunsMaps (active self.old.core.inner.config unit) unit (first_region block) (last_region block (length bytes.now / BLOCK)) self.new.logs.items) }
        ensures moves { self.new.stopped ≡ false → MovesRun self.old.core.inner.config self.new.core.inner.config unit (first_region block) (last_region block (length bytes.now / BLOCK)) (is_alike self.old.alike unit) self.old.logs.items self.new.logs.items result }
        ensures comes { MapsBeginIn (only_volume unit) self.old.core.inner.config self.new.core.inner.config self.old.stopped self.new.stopped self.old.logs.items self.new.logs.items }
        ensures ends_maps { MapsEnd self.old.core.inner.config self.new.core.inner.config self.old.stopped self.new.stopped self.old.logs.items self.new.logs.items (S.meaning self.old.shelf) (S.meaning self.new.shelf) }
        ensures stays { self.old.stopped ≡ true → self.new.stopped ≡ true }
        ensures rests { self.new.stopped ≡ false → (w p : ℕ) → IsTrue (active self.new.core.inner.config w p) → IsTrue (active self.old.core.inner.config w p) }
        ensures free { self.new.stopped ≡ false → OnOk result ((self.new.core.held ≡ None) ⊎ (fmr_at self.new.logs.items unit ≡ None)) }
        ensures alike { OnOk result (self.new.alike ≡ self.old.alike) }
        ensures flags { (w : ℕ) → (w ≡ unit → ⊥) → is_alike self.new.alike w ≡ is_alike self.old.alike w }
        ensures marked { self.new.stopped ≡ false → MarkedBefore (λ s. S.meaning s) unit block bytes.now (first_region block) (last_region block (length bytes.now / BLOCK)) self.old.core self.new.core (S.meaning self.old.shelf) (S.meaning self.new.shelf) }
        ensures full { self.old.stopped ≡ false → self.new.stopped ≡ true → greatest ≤ self.old.core.inner.config.serial + 5 * COMMIT_SERIALS }
        ensures trust { OnOk result (self.old.core.inner.committed ≡ true → self.new.core.inner.committed ≡ true) }
        ensures agreed { IfErr result (λ e. self.old.core.inner.committed ≡ true → self.new.core.inner.agreed ≡ true) }
        ensures finds { GroupFinds self.old.core self.new.core (S.meaning self.old.shelf) (S.meaning self.new.shelf) }
    {
        write_fresh(
            &mut self.shelf,
            &mut self.core,
            &mut self.logs,
            &mut self.alike,
            &mut self.fresh,
            &mut self.stopped,
            unit,
            block,
            bytes,
        )
    }

    /// Flushes each plex that is ACTIVE, and takes all marks off the log of the volume where more than 64 regions were marked since. A log that is in
    /// memory no more behind one that is done is held as lost: of each volume of which it was so before, and of this one, where its plexes are alike and
    /// logs go on; unless no serial is left to say so.
    fn flush(&mut self, unit: u32) -> Result<(), ShelfError>
        requires { unit < (inner_meaning (wide self.old.core) (S.meaning self.old.shelf)).units }
        ensures goes { Goes Nothing (inner_meaning (wide self.old.core) (S.meaning self.old.shelf)) (inner_meaning (wide self.new.core) (S.meaning self.new.shelf)) }
        ensures ok { OnOk result (Flushed unit (inner_meaning (wide self.old.core) (S.meaning self.old.shelf)) (inner_meaning (wide self.new.core) (S.meaning self.new.shelf))) }
        ensures keeps { LogsKeep self.old.core self.new.core self.old.logs.items self.new.logs.items (S.meaning self.old.shelf) (S.meaning self.new.shelf) }
        ensures unsure { MarksOn unit self.old.core.inner.unsure self.new.core.inner.unsure result }
        ensures gives_up { FaultsBy unit self.old.core.inner.config self.new.core.inner (S.meaning self.old.shelf) (S.meaning self.new.shelf) result }
        ensures cause { Cause (inner_meaning (wide self.old.core) (S.meaning self.old.shelf)) (inner_meaning (wide self.new.core) (S.meaning self.new.shelf)) unit result }
        ensures names { Names (inner_meaning (wide self.old.core) (S.meaning self.old.shelf)).disks unit result }
        ensures works { OnOk result (Works (inner_meaning (wide self.old.core) (S.meaning self.old.shelf)).disks unit) }
        ensures disks { OnDisks (inner_meaning (wide self.old.core) (S.meaning self.old.shelf)).disks (inner_meaning (wide self.new.core) (S.meaning self.new.shelf)).disks (λ o n. Calls (inner_meaning (wide self.old.core) (S.meaning self.old.shelf)) (DisksFlushed unit) o n result) }
        ensures mirrors { MirrorsKeep names_none self.old.core self.new.core (S.meaning self.old.shelf) (S.meaning self.new.shelf) }
        ensures loses { LosesPlexes self.old.core.inner.config self.new.core.inner.config (S.meaning self.old.shelf) (S.meaning self.new.shelf) }
        ensures marks { ClearsVolume (wide self.old.core).config unit self.old.logs.items self.new.logs.items }
        ensures maps { NotesMaps (fell_in self.old.core self.new.core unit) none_missing unit 0 0 self.old.logs.items self.new.logs.items }
        ensures begins { is_alike self.old.alike unit ≡ true → self.old.stopped ≡ false → OnOk result (EmptyMaps (fell_in self.old.core self.new.core unit) unit self.new.logs.items) }
        ensures left { is_alike self.old.alike unit ≡ true → self.old.stopped ≡ false → IfErr result (λ e. IsTrue (S.meaning self.new.shelf).down ⊎ EmptyMaps (fell_in self.old.core self.new.core unit) unit self.new.logs.items) }
        ensures kept { OnOk result (SaysLosses self.old.core self.new.core self.old.logs.items self.new.logs.items) }
        ensures said { is_alike self.old.alike unit ≡ true → self.old.stopped ≡ false → 0 < blocks_of_is self.old.core.inner.config.volumes unit → OnOk result (LogsKept self.new.core self.new.logs.items unit) }
        ensures trust { OnOk result (self.old.core.inner.committed ≡ true → self.new.core.inner.committed ≡ true) }
        ensures agreed { IfErr result (λ e. self.old.core.inner.committed ≡ true → self.new.core.inner.agreed ≡ true) }
        ensures finds { GroupFinds self.old.core self.new.core (S.meaning self.old.shelf) (S.meaning self.new.shelf) }
    {
        flush_whole(
            &mut self.shelf,
            &mut self.core,
            &mut self.logs,
            &self.alike,
            self.stopped,
            unit,
        )
    }

    fn faults(&self, unit: u32) -> u64 {
        self.core.inner.faults[unit as usize]
    }

    fn is_down(&self) -> bool {
        self.shelf.is_down()
    }

    ghost lawful = { λ g. group_lawful (wide g.core) (S.meaning g.shelf) (S.lawful g.shelf) g.stands.group.stands };
}
