// A write of a group that is marked first.
ghost use Rattle.vx_grouplogs.specs.Gone.{LogsDrop};
ghost use Rattle.vx_group.specs.Finds.{GroupFinds};
ghost use Rattle.std.specs.Prelude.{◌≡◌, ◌*◌, ◌⊎◌, ◌+◌, ◌/◌, ◌≤◌, ℕ, false, length, true, IfErr, IsTrue, None, OnOk};
ghost use Rattle.vx_config.specs.Table.{greatest};
ghost use Rattle.vx_disk.specs.Causes.{Cause};
ghost use Rattle.vx_disk.specs.Shelf.{Fits, Goes, Written, Wrote};
ghost use Rattle.vx_group.specs.Blames.{MarksOn, MarksOrFell};
ghost use Rattle.vx_group.specs.GivesUp.{FaultsBy};
ghost use Rattle.vx_group.specs.Holding.{GroupStands, wide};
ghost use Rattle.vx_group.specs.Loses.{LosesAlong};
ghost use Rattle.vx_group.specs.Stands.{inner_meaning};
ghost use Rattle.vx_config.specs.Checks.{blocks_of as blocks_of_is};
ghost use Rattle.vx_grouplogs.specs.Marking.{MarksOnly};
ghost use Rattle.vx_group.specs.Settles.{ReadsOne};
ghost use Rattle.vx_groupmaps.specs.Knowing.{MapsNote, or_off};
ghost use Rattle.vx_groupmaps.specs.Missing.{none_spared, or_run};
ghost use Rattle.vx_logged.specs.Begun.{MapsBut, MapsOfRun, ReadsBut, begun_in, fell_in};
ghost use Rattle.vx_logged.specs.Behind.{AreKept, MarkedBefore, those_missing};
ghost use Rattle.vx_logged.specs.Holds.{HoldsRun};
ghost use Rattle.vx_logged.specs.Logged.{DropsBut, Known, KnownBy, LogOn, Narrowed, OthersOn, TrustsIn, are_off};
ghost use Rattle.vx_logs.specs.Writes.{first_region, last_region};
ghost use Rattle.vx_model.specs.Sizes.{regions_of as regions_in};
ghost use Rattle.vx_volume.specs.Plexes.{active};

use crate::beginning::{actives, mark_fallen};
use crate::marking::mark_group;
use crate::refusing::miss_refused;
use vx_disk::{Shelf, ShelfError};
use vx_group::{GroupCore, write_group};
use vx_logs::Logs;
use vx_model::limits::{BLOCK, COMMIT_SERIALS};

// Writes a run of blocks of a volume, of which the regions are marked durably in its logs before a plex is written.
fn write_first<S: Shelf>(
    shelf: &mut S,
    core: &mut GroupCore,
    logs: &mut Logs,
    stopped: &mut bool,
    vol: u32,
    block: u64,
    bytes: &[u8],
) -> Result<(), ShelfError>
    requires stands { GroupStands core.old (S.meaning shelf.old) }
    requires fits { Fits (inner_meaning (wide core.old) (S.meaning shelf.old)) vol block (length bytes.now) }
    requires log { stopped.old ≡ false → LogOn core.old vol logs.old (S.meaning shelf.old) }
    ensures stands { GroupStands core.new (S.meaning shelf.new) }
    ensures goes { Goes (Written vol block bytes.now) (inner_meaning (wide core.old) (S.meaning shelf.old)) (inner_meaning (wide core.new) (S.meaning shelf.new)) }
    ensures loses { LosesAlong core.old.inner.config core.new.inner.config (S.meaning shelf.old) (S.meaning shelf.new) }
    ensures ok { OnOk result (Wrote vol block bytes.now (inner_meaning (wide core.old) (S.meaning shelf.old)) (inner_meaning (wide core.new) (S.meaning shelf.new))) }
    ensures log { stopped.new ≡ false → LogOn core.new vol logs.new (S.meaning shelf.new) }
    ensures others { OthersOn vol core.old core.new (S.meaning shelf.old) (S.meaning shelf.new) }
    ensures adds { MarksOnly (regions_in (blocks_of_is (wide core.old).config.volumes vol)) (first_region block) (last_region block (length bytes.now / BLOCK)) logs.old logs.new }
    ensures narrow { Narrowed core.old core.new }
    ensures written { stopped.new ≡ false → OnOk result (Known core.old vol logs.old (S.meaning shelf.old) → KnownBy core.new vol (or_off (wide core.new).config vol (first_region block) (last_region block (length bytes.now / BLOCK)) none_spared) logs.new (S.meaning shelf.new)) }
    ensures notes { MapsNote (are_off core.new vol) (first_region block) (last_region block (length bytes.now / BLOCK)) logs.old logs.new }
    ensures missed { stopped.new ≡ false → Known core.old vol logs.old (S.meaning shelf.old) → KnownBy core.new vol (or_run (first_region block) (last_region block (length bytes.now / BLOCK)) none_spared) logs.new (S.meaning shelf.new) }
    ensures alike { stopped.new ≡ false → ReadsOne (wide core.old).config vol (S.meaning shelf.old) → ReadsBut (wide core.new).config vol (active (wide core.old).config vol) (first_region block) (last_region block (length bytes.now / BLOCK)) (S.meaning shelf.new) }
    ensures marked { stopped.new ≡ false → MarkedBefore (λ s. S.meaning s) vol block bytes.now (first_region block) (last_region block (length bytes.now / BLOCK)) core.old core.new (S.meaning shelf.old) (S.meaning shelf.new) }
    ensures stays { stopped.old ≡ true → stopped.new ≡ true }
    ensures rests { stopped.new ≡ false → (w p : ℕ) → IsTrue (active core.new.inner.config w p) → IsTrue (active core.old.inner.config w p) }
    ensures full { stopped.old ≡ false → stopped.new ≡ true → greatest ≤ core.old.inner.config.serial + 2 * COMMIT_SERIALS }
    ensures drops { LogsDrop (wide core.old).config vol logs.old logs.new (S.meaning shelf.old) (S.meaning shelf.new) }
    ensures trusts { TrustsIn vol logs.new core.old.inner.config core.new.inner.config }
    ensures trust { OnOk result (core.old.inner.committed ≡ true → core.new.inner.committed ≡ true) }
    ensures agreed { IfErr result (λ e. core.old.inner.committed ≡ true → core.new.inner.agreed ≡ true) }
    ensures finds { GroupFinds core.old core.new (S.meaning shelf.old) (S.meaning shelf.new) }
    ensures marks { MarksOn vol core.old.inner.unsure core.new.inner.unsure result }
    ensures gives_up { FaultsBy vol core.old.inner.config core.new.inner (S.meaning shelf.old) (S.meaning shelf.new) result }
    ensures cause { Cause (inner_meaning (wide core.old) (S.meaning shelf.old)) (inner_meaning (wide core.new) (S.meaning shelf.new)) vol result }
{
    if *stopped {
        return write_group(shelf, core, vol, block, bytes);
    }
    let count = (bytes.len() / BLOCK) as u64;
    let done = match mark_group(shelf, core, logs, vol, block, count) {
        Ok(done) => done,
        Err(error) => return Err(error),
    };
    *stopped = !done;
    write_group(shelf, core, vol, block, bytes)
}

/// Writes a run of blocks of a volume, of which the regions are marked durably before a plex is written: as dirty, and as missed by each plex that
/// is not ACTIVE. A plex that fails in the write misses its regions from then on. A log of which the disk fails is committed as lost, and the
/// write fails for it only where that commit is refused. Where no serial is left logs are stopped: the write is made without a mark, and of no
/// log anything is promised from then on.
///
/// Behind it the maps in memory have of each plex each region in which it may read another value than one that is ACTIVE, where they had, also
/// where the write is refused; what they have besides what they had are regions of the write: behind an Ok of plexes that are not ACTIVE, and
/// behind a refusal of any, as each may have missed any block of it. Where the caller is sure that the plexes that were ACTIVE read one value in
/// each block, the maps of those that fell have regions of the write alone, and behind a refusal so have the maps of all of them.
pub fn write_marked<S: Shelf>(
    shelf: &mut S,
    core: &mut GroupCore,
    logs: &mut Logs,
    stopped: &mut bool,
    sure: bool,
    vol: u32,
    block: u64,
    bytes: &[u8],
) -> Result<(), ShelfError>
    requires stands { GroupStands core.old (S.meaning shelf.old) }
    requires fits { Fits (inner_meaning (wide core.old) (S.meaning shelf.old)) vol block (length bytes.now) }
    requires log { stopped.old ≡ false → LogOn core.old vol logs.old (S.meaning shelf.old) }
    requires one { sure ≡ true → ReadsOne (wide core.old).config vol (S.meaning shelf.old) }
    ensures stands { GroupStands core.new (S.meaning shelf.new) }
    ensures goes { Goes (Written vol block bytes.now) (inner_meaning (wide core.old) (S.meaning shelf.old)) (inner_meaning (wide core.new) (S.meaning shelf.new)) }
    ensures loses { LosesAlong core.old.inner.config core.new.inner.config (S.meaning shelf.old) (S.meaning shelf.new) }
    ensures ok { OnOk result (Wrote vol block bytes.now (inner_meaning (wide core.old) (S.meaning shelf.old)) (inner_meaning (wide core.new) (S.meaning shelf.new))) }
    ensures log { stopped.new ≡ false → LogOn core.new vol logs.new (S.meaning shelf.new) }
    ensures others { OthersOn vol core.old core.new (S.meaning shelf.old) (S.meaning shelf.new) }
    ensures adds { MarksOnly (regions_in (blocks_of_is (wide core.old).config.volumes vol)) (first_region block) (last_region block (length bytes.now / BLOCK)) logs.old logs.new }
    ensures maps { stopped.new ≡ false → Known core.old vol logs.old (S.meaning shelf.old) → Known core.new vol logs.new (S.meaning shelf.new) }
    ensures notes { MapsBut (begun_in core.old core.new vol sure result) (those_missing core.new vol result) (first_region block) (last_region block (length bytes.now / BLOCK)) logs.old logs.new }
    ensures begins { sure ≡ true → stopped.new ≡ false → OnOk result (MapsOfRun (fell_in core.old core.new vol) (first_region block) (last_region block (length bytes.now / BLOCK)) logs.new) }
    ensures refused { sure ≡ true → stopped.new ≡ false → IfErr result (λ e. MapsOfRun (active core.old.inner.config vol) (first_region block) (last_region block (length bytes.now / BLOCK)) logs.new) }
    ensures holds { stopped.new ≡ false → OnOk result (HoldsRun core.new.inner.config vol (first_region block) (last_region block (length bytes.now / BLOCK)) logs.new) }
    ensures marked { stopped.new ≡ false → MarkedBefore (λ s. S.meaning s) vol block bytes.now (first_region block) (last_region block (length bytes.now / BLOCK)) core.old core.new (S.meaning shelf.old) (S.meaning shelf.new) }
    ensures stays { stopped.old ≡ true → stopped.new ≡ true }
    ensures rests { stopped.new ≡ false → (w p : ℕ) → IsTrue (active core.new.inner.config w p) → IsTrue (active core.old.inner.config w p) }
    ensures free { stopped.new ≡ false → OnOk result ((core.new.held ≡ None) ⊎ (logs.new.fmr ≡ None)) }
    ensures full { stopped.old ≡ false → stopped.new ≡ true → greatest ≤ core.old.inner.config.serial + 2 * COMMIT_SERIALS }
    ensures drops { DropsBut core.old core.new vol logs.old logs.new (S.meaning shelf.old) (S.meaning shelf.new) }
    ensures trusts { TrustsIn vol logs.new core.old.inner.config core.new.inner.config }
    ensures kept { stopped.new ≡ false → OnOk result (AreKept core.new vol logs.new) }
    ensures trust { OnOk result (core.old.inner.committed ≡ true → core.new.inner.committed ≡ true) }
    ensures agreed { IfErr result (λ e. core.old.inner.committed ≡ true → core.new.inner.agreed ≡ true) }
    ensures finds { GroupFinds core.old core.new (S.meaning shelf.old) (S.meaning shelf.new) }
    ensures unsure { MarksOrFell vol core.old.inner.unsure core.new.inner.unsure result }
    ensures gives_up { FaultsBy vol core.old.inner.config core.new.inner (S.meaning shelf.old) (S.meaning shelf.new) result }
    ensures cause { Cause (inner_meaning (wide core.old) (S.meaning shelf.old)) (inner_meaning (wide core.new) (S.meaning shelf.new)) vol result }
{
    let count = (bytes.len() / BLOCK) as u64;
    let was = actives(&core.inner.config, vol);
    match write_first(shelf, core, logs, stopped, vol, block, bytes) {
        Ok(()) => {}
        Err(error) => {
            return Err(miss_refused(
                shelf, core, logs, *stopped, sure, &was, vol, block, count, error,
            ));
        }
    }
    if *stopped {
        return Ok(());
    }
    match mark_fallen(shelf, core, logs, sure, &was, vol, block, count) {
        Ok(done) => {
            if !done {
                logs.fmr = None;
            }
            Ok(())
        }
        Err(error) => Err(miss_refused(
            shelf, core, logs, false, sure, &was, vol, block, count, error,
        )),
    }
}
