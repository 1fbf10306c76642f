// A write of a volume whose logs may not have begun.
ghost use Rattle.vx_loggroup.specs.Attaching.{fmr_at};
ghost use Rattle.vx_loggroup.specs.Keeping.{LogsKeep, LogsKept, logs_at};
ghost use Rattle.vx_loggroup.specs.Moving.{MovesRun};
ghost use Rattle.vx_logged.specs.Logged.{TrustsIn};
ghost use Rattle.vx_group.specs.Blames.{MarksOrFell};
ghost use Rattle.vx_group.specs.GivesUp.{FaultsBy};
ghost use Rattle.vx_group.specs.Finds.{GroupFinds};
ghost use Rattle.std.specs.Prelude.{◌≡◌, ◌*◌, ◌+◌, ◌/◌, ◌<◌, ◌≤◌, ℕ, false, length, true, IfErr, IsTrue, OnOk, ◌⊎◌, None};
ghost use Rattle.vx_config.specs.Table.{greatest};
ghost use Rattle.vx_disk.specs.Causes.{Cause};
ghost use Rattle.vx_disk.specs.Shelf.{Fits, Goes, Written, Wrote};
ghost use Rattle.vx_group.specs.Holding.{wide};
ghost use Rattle.vx_group.specs.Loses.{LosesAlong};
ghost use Rattle.vx_group.specs.Stands.{inner_meaning};
ghost use Rattle.vx_logged.specs.Begun.{begun_in, fell_in};
ghost use Rattle.vx_logged.specs.Behind.{MarkedBefore, those_missing};
ghost use Rattle.vx_loggroup.specs.Fresh.{FreshStands};
ghost use Rattle.vx_loggroup.specs.LoggedVolumes.{LoggedStands, is_alike as is_alike_is};
ghost use Rattle.vx_loggroup.specs.Marks.{MarksVolume, NotesMaps, RunsMaps};
ghost use Rattle.vx_logs.specs.Writes.{first_region, last_region};
ghost use Rattle.vx_model.specs.declared.limits.TheConstants.{MOST_VOLUMES};
ghost use Rattle.vx_volume.specs.Plexes.{active};

use crate::alike::{is_alike, set_alike};
use crate::first::begin_first;
use crate::whole::write_whole;
use vx_disk::{Shelf, ShelfError};
use vx_group::GroupCore;
use vx_logs::Logs;
use vx_model::limits::{BLOCK, COMMIT_SERIALS, MOST_VOLUMES};

/// Whether the logs of a volume may begin. From then on they may not.
pub fn takes_fresh(fresh: &mut [bool; MOST_VOLUMES], stopped: bool, vol: u32) -> bool
    requires inside { vol < MOST_VOLUMES }
    ensures was { result ≡ true → is_alike_is fresh.old vol ≡ true }
    ensures going { result ≡ true → stopped ≡ false }
    ensures may { is_alike_is fresh.old vol ≡ true → stopped ≡ false → result ≡ true }
    ensures here { is_alike_is fresh.new vol ≡ false }
    ensures others { (w : ℕ) → (w ≡ vol → ⊥) → is_alike_is fresh.new w ≡ is_alike_is fresh.old w }
{
    let was = is_alike(fresh, vol);
    set_alike(fresh, vol, false);
    if stopped {
        return false;
    }
    was
}

/// Writes a run of blocks of a volume, of which the logs begin first where it is fresh: they have no region then. A refused commit in that is the
/// answer, and then no plex was written. Else it is the write of a volume whose logs have begun.
pub fn write_fresh<S: Shelf>(
    shelf: &mut S,
    core: &mut GroupCore,
    logs: &mut Vec<Logs>,
    alike: &mut [bool; MOST_VOLUMES],
    fresh: &mut [bool; MOST_VOLUMES],
    stopped: &mut bool,
    vol: u32,
    block: u64,
    bytes: &[u8],
) -> Result<(), ShelfError>
    requires stands { LoggedStands core.old logs.old.items alike.old stopped.old (S.meaning shelf.old) }
    requires fresh { FreshStands core.old fresh.old (S.meaning shelf.old) }
    requires fits { Fits (inner_meaning (wide core.old) (S.meaning shelf.old)) vol block (length bytes.now) }
    ensures stands { LoggedStands core.new logs.new.items alike.new stopped.new (S.meaning shelf.new) }
    ensures fresh { FreshStands core.new fresh.new (S.meaning shelf.new) }
    ensures goes { Goes (Written vol block bytes.now) (inner_meaning (wide core.old) (S.meaning shelf.old)) (inner_meaning (wide core.new) (S.meaning shelf.new)) }
    ensures ok { OnOk result (Wrote vol block bytes.now (inner_meaning (wide core.old) (S.meaning shelf.old)) (inner_meaning (wide core.new) (S.meaning shelf.new))) }
    ensures loses { LosesAlong core.old.inner.config core.new.inner.config (S.meaning shelf.old) (S.meaning shelf.new) }
    ensures keeps { LogsKeep core.old core.new logs.old.items logs.new.items (S.meaning shelf.old) (S.meaning shelf.new) }
    ensures kept { stopped.new ≡ false → OnOk result (LogsKept core.new logs.new.items vol) }
    ensures finds { GroupFinds core.old core.new (S.meaning shelf.old) (S.meaning shelf.new) }
    ensures marks { MarksVolume (wide core.old).config vol (first_region block) (last_region block (length bytes.now / BLOCK)) logs.old.items logs.new.items }
    ensures notes { NotesMaps (begun_in core.old core.new vol (is_alike_is alike.old vol) result) (those_missing core.new vol result) vol (first_region block) (last_region block (length bytes.now / BLOCK)) logs.old.items logs.new.items }
    ensures begins { is_alike_is alike.old vol ≡ true → stopped.new ≡ false → OnOk result (RunsMaps (fell_in core.old core.new vol) vol (first_region block) (last_region block (length bytes.now / BLOCK)) logs.new.items) }
    ensures refused { is_alike_is alike.old vol ≡ true → stopped.new ≡ false → (IsTrue (S.meaning shelf.old).down → ⊥) → IfErr result (λ e. is_alike_is alike.new vol ≡ false → RunsMaps (active core.old.inner.config vol) vol (first_region block) (last_region block (length bytes.now / BLOCK)) logs.new.items) }
    ensures moves { stopped.new ≡ false → MovesRun core.old.inner.config core.new.inner.config vol (first_region block) (last_region block (length bytes.now / BLOCK)) (is_alike_is alike.old vol) logs.old.items logs.new.items result }
    ensures trusts { TrustsIn vol (logs_at logs.new.items vol) core.old.inner.config core.new.inner.config }
    ensures stays { stopped.old ≡ true → stopped.new ≡ true }
    ensures rests { stopped.new ≡ false → (w p : ℕ) → IsTrue (active core.new.inner.config w p) → IsTrue (active core.old.inner.config w p) }
    ensures free { stopped.new ≡ false → OnOk result ((core.new.held ≡ None) ⊎ (fmr_at logs.new.items vol ≡ None)) }
    ensures alike { OnOk result (alike.new ≡ alike.old) }
    ensures flags { (w : ℕ) → (w ≡ vol → ⊥) → is_alike_is alike.new w ≡ is_alike_is alike.old w }
    ensures marked { stopped.new ≡ false → MarkedBefore (λ s. S.meaning s) vol block bytes.now (first_region block) (last_region block (length bytes.now / BLOCK)) core.old core.new (S.meaning shelf.old) (S.meaning shelf.new) }
    ensures full { stopped.old ≡ false → stopped.new ≡ true → greatest ≤ core.old.inner.config.serial + 5 * COMMIT_SERIALS }
    ensures trust { OnOk result (core.old.inner.committed ≡ true → core.new.inner.committed ≡ true) }
    ensures agreed { IfErr result (λ e. core.old.inner.committed ≡ true → core.new.inner.agreed ≡ true) }
    ensures unsure { MarksOrFell vol core.old.inner.unsure core.new.inner.unsure result }
    ensures gives_up { FaultsBy vol core.old.inner.config core.new.inner (S.meaning shelf.old) (S.meaning shelf.new) result }
    ensures cause { Cause (inner_meaning (wide core.old) (S.meaning shelf.old)) (inner_meaning (wide core.new) (S.meaning shelf.new)) vol result }
{
    if !takes_fresh(fresh, *stopped, vol) {
        return write_whole(shelf, core, logs, alike, stopped, vol, block, bytes);
    }
    match begin_first(shelf, core, logs, alike, vol) {
        Ok(()) => {}
        Err(error) => return Err(error),
    }
    write_whole(shelf, core, logs, alike, stopped, vol, block, bytes)
}
