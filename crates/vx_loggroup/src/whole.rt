// Calls on a volume of a group with logs, and what they leave of all volumes.
ghost use Rattle.vx_loggroup.specs.Attaching.{fmr_at};
ghost use Rattle.vx_loggroup.specs.Keeping.{LogsKeep, LogsKept, logs_at, SureKept};
ghost use Rattle.vx_loggroup.specs.Moving.{RunHolds};
ghost use Rattle.vx_group.specs.Blames.{MarksOn, MarksOrFell};
ghost use Rattle.vx_group.specs.GivesUp.{FaultsBy};
ghost use Rattle.vx_group.specs.Finds.{GroupFinds};
ghost use Rattle.std.specs.Prelude.{◌≡◌, ◌*◌, ◌+◌, ◌/◌, ◌<◌, ◌≤◌, false, length, true, IfErr, IsTrue, OnOk, ◌⊎◌, ℕ, None};
ghost use Rattle.vx_config.specs.Table.{greatest};
ghost use Rattle.vx_disk.specs.Causes.{Cause};
ghost use Rattle.vx_disk.specs.Shelf.{Fits, Flushed, Goes, Nothing, Written, Wrote};
ghost use Rattle.vx_group.specs.Holding.{wide};
ghost use Rattle.vx_group.specs.Loses.{LosesAlong};
ghost use Rattle.vx_group.specs.Stands.{inner_meaning};
ghost use Rattle.vx_loggroup.specs.LoggedVolumes.{LoggedStands, is_alike as is_alike_is};
ghost use Rattle.vx_logged.specs.Begun.{begun_in, fell_in};
ghost use Rattle.vx_logged.specs.Behind.{MarkedBefore, none_missing, those_missing};
ghost use Rattle.vx_logged.specs.Logged.{TrustsIn};
ghost use Rattle.vx_loggroup.specs.Marks.{ClearsVolume, EmptyMaps, MarksVolume, NotesMaps, RunsMaps};
ghost use Rattle.vx_logs.specs.Writes.{first_region, last_region};
ghost use Rattle.vx_model.specs.declared.limits.TheConstants.{MOST_VOLUMES};
ghost use Rattle.vx_volume.specs.Plexes.{active};
ghost use Rattle.vx_config.specs.Checks.{blocks_of as blocks_of_is};

use crate::alike::{is_alike, is_sure, set_alike};
use vx_disk::{Shelf, ShelfError};
use vx_group::GroupCore;
use vx_logged::{flush_spent, write_marked};
use vx_logs::Logs;
use vx_model::limits::{BLOCK, COMMIT_SERIALS, MOST_VOLUMES};

/// Writes a run of blocks of a volume, of which the regions are durably marked first, and no others. Where it fails, the plexes of the volume may
/// differ: no mark of it is taken off from then on. Where they did not before, the maps of those that were ACTIVE have regions of the run alone then.
pub fn write_whole<S: Shelf>(
    shelf: &mut S,
    core: &mut GroupCore,
    logs: &mut Vec<Logs>,
    alike: &mut [bool; MOST_VOLUMES],
    stopped: &mut bool,
    vol: u32,
    block: u64,
    bytes: &[u8],
) -> Result<(), ShelfError>
    requires stands { LoggedStands core.old logs.old.items alike.old stopped.old (S.meaning shelf.old) }
    requires fits { Fits (inner_meaning (wide core.old) (S.meaning shelf.old)) vol block (length bytes.now) }
    ensures stands { LoggedStands core.new logs.new.items alike.new stopped.new (S.meaning shelf.new) }
    ensures goes { Goes (Written vol block bytes.now) (inner_meaning (wide core.old) (S.meaning shelf.old)) (inner_meaning (wide core.new) (S.meaning shelf.new)) }
    ensures loses { LosesAlong core.old.inner.config core.new.inner.config (S.meaning shelf.old) (S.meaning shelf.new) }
    ensures ok { OnOk result (Wrote vol block bytes.now (inner_meaning (wide core.old) (S.meaning shelf.old)) (inner_meaning (wide core.new) (S.meaning shelf.new))) }
    ensures keeps { LogsKeep core.old core.new logs.old.items logs.new.items (S.meaning shelf.old) (S.meaning shelf.new) }
    ensures kept { stopped.new ≡ false → OnOk result (LogsKept core.new logs.new.items vol) }
    ensures finds { GroupFinds core.old core.new (S.meaning shelf.old) (S.meaning shelf.new) }
    ensures marks { MarksVolume (wide core.old).config vol (first_region block) (last_region block (length bytes.now / BLOCK)) logs.old.items logs.new.items }
    ensures notes { NotesMaps (begun_in core.old core.new vol (is_alike_is alike.old vol) result) (those_missing core.new vol result) vol (first_region block) (last_region block (length bytes.now / BLOCK)) logs.old.items logs.new.items }
    ensures begins { is_alike_is alike.old vol ≡ true → stopped.new ≡ false → OnOk result (RunsMaps (fell_in core.old core.new vol) vol (first_region block) (last_region block (length bytes.now / BLOCK)) logs.new.items) }
    ensures refused { is_alike_is alike.old vol ≡ true → stopped.new ≡ false → (IsTrue (S.meaning shelf.old).down → ⊥) → IfErr result (λ e. is_alike_is alike.new vol ≡ false → RunsMaps (active core.old.inner.config vol) vol (first_region block) (last_region block (length bytes.now / BLOCK)) logs.new.items) }
    ensures holds { stopped.new ≡ false → OnOk result (RunHolds core.new.inner.config vol (first_region block) (last_region block (length bytes.now / BLOCK)) logs.new.items) }
    ensures gone { fmr_at logs.old.items vol ≡ None → fmr_at logs.new.items vol ≡ None }
    ensures trusts { TrustsIn vol (logs_at logs.new.items vol) core.old.inner.config core.new.inner.config }
    ensures stays { stopped.old ≡ true → stopped.new ≡ true }
    ensures rests { stopped.new ≡ false → (w p : ℕ) → IsTrue (active core.new.inner.config w p) → IsTrue (active core.old.inner.config w p) }
    ensures free { stopped.new ≡ false → OnOk result ((core.new.held ≡ None) ⊎ (fmr_at logs.new.items vol ≡ None)) }
    ensures alike { OnOk result (alike.new ≡ alike.old) }
    ensures flags { (w : ℕ) → (w ≡ vol → ⊥) → is_alike_is alike.new w ≡ is_alike_is alike.old w }
    ensures marked { stopped.new ≡ false → MarkedBefore (λ s. S.meaning s) vol block bytes.now (first_region block) (last_region block (length bytes.now / BLOCK)) core.old core.new (S.meaning shelf.old) (S.meaning shelf.new) }
    ensures full { stopped.old ≡ false → stopped.new ≡ true → greatest ≤ core.old.inner.config.serial + 2 * COMMIT_SERIALS }
    ensures trust { OnOk result (core.old.inner.committed ≡ true → core.new.inner.committed ≡ true) }
    ensures agreed { IfErr result (λ e. core.old.inner.committed ≡ true → core.new.inner.agreed ≡ true) }
    ensures unsure { MarksOrFell vol core.old.inner.unsure core.new.inner.unsure result }
    ensures gives_up { FaultsBy vol core.old.inner.config core.new.inner (S.meaning shelf.old) (S.meaning shelf.new) result }
    ensures cause { Cause (inner_meaning (wide core.old) (S.meaning shelf.old)) (inner_meaning (wide core.new) (S.meaning shelf.new)) vol result }
{
    let down = shelf.is_down();
    let sure = is_sure(is_alike(alike, vol), *stopped, down);
    match write_marked(
        shelf,
        core,
        &mut logs[vol as usize],
        stopped,
        sure,
        vol,
        block,
        bytes,
    ) {
        Ok(()) => Ok(()),
        Err(error) => {
            set_alike(alike, vol, false);
            Err(error)
        }
    }
}

/// Makes a volume durable, and takes marks off its log where more than 64 regions were marked since and its plexes are alike. A plex that fails in
/// it has missed nothing then: its map is empty. Where no serial is left no map of the volume is in memory then. Where a flush is refused and the
/// shelf is not down, the map of a plex that fell out of use in it is empty too. Behind one that is done a log that is in memory
/// no more is held as lost, of each volume of which it was so before; and of this one, where it is alike and logs go on.
pub fn flush_whole<S: Shelf>(
    shelf: &mut S,
    core: &mut GroupCore,
    logs: &mut Vec<Logs>,
    alike: &[bool; MOST_VOLUMES],
    stopped: bool,
    vol: u32,
) -> Result<(), ShelfError>
    requires stands { LoggedStands core.old logs.old.items alike.now stopped (S.meaning shelf.old) }
    requires there { vol < (inner_meaning (wide core.old) (S.meaning shelf.old)).units }
    ensures stands { LoggedStands core.new logs.new.items alike.now stopped (S.meaning shelf.new) }
    ensures goes { Goes Nothing (inner_meaning (wide core.old) (S.meaning shelf.old)) (inner_meaning (wide core.new) (S.meaning shelf.new)) }
    ensures loses { LosesAlong core.old.inner.config core.new.inner.config (S.meaning shelf.old) (S.meaning shelf.new) }
    ensures ok { OnOk result (Flushed vol (inner_meaning (wide core.old) (S.meaning shelf.old)) (inner_meaning (wide core.new) (S.meaning shelf.new))) }
    ensures keeps { LogsKeep core.old core.new logs.old.items logs.new.items (S.meaning shelf.old) (S.meaning shelf.new) }
    ensures finds { GroupFinds core.old core.new (S.meaning shelf.old) (S.meaning shelf.new) }
    ensures marks { ClearsVolume (wide core.old).config vol logs.old.items logs.new.items }
    ensures maps { NotesMaps (fell_in core.old core.new vol) none_missing vol 0 0 logs.old.items logs.new.items }
    ensures begins { is_alike_is alike.now vol ≡ true → stopped ≡ false → OnOk result (EmptyMaps (fell_in core.old core.new vol) vol logs.new.items) }
    ensures left { is_alike_is alike.now vol ≡ true → stopped ≡ false → IfErr result (λ e. IsTrue (S.meaning shelf.new).down ⊎ EmptyMaps (fell_in core.old core.new vol) vol logs.new.items) }
    ensures kept { OnOk result (SureKept core.old core.new logs.old.items logs.new.items) }
    ensures said { is_alike_is alike.now vol ≡ true → stopped ≡ false → 0 < blocks_of_is core.old.inner.config.volumes vol → OnOk result (LogsKept core.new logs.new.items vol) }
    ensures trust { OnOk result (core.old.inner.committed ≡ true → core.new.inner.committed ≡ true) }
    ensures agreed { IfErr result (λ e. core.old.inner.committed ≡ true → core.new.inner.agreed ≡ true) }
    ensures unsure { MarksOn vol core.old.inner.unsure core.new.inner.unsure result }
    ensures gives_up { FaultsBy vol core.old.inner.config core.new.inner (S.meaning shelf.old) (S.meaning shelf.new) result }
    ensures cause { Cause (inner_meaning (wide core.old) (S.meaning shelf.old)) (inner_meaning (wide core.new) (S.meaning shelf.new)) vol result }
{
    let down = shelf.is_down();
    let sure = is_sure(is_alike(alike, vol), stopped, down);
    flush_spent(shelf, core, &mut logs[vol as usize], sure, vol)
}
