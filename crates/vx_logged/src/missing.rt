// A flush behind a write: a plex that fails in it misses the regions of the write.
ghost use Rattle.vx_grouplogs.specs.Gone.{LogsDrop};
ghost use Rattle.vx_group.specs.Finds.{GroupFinds};
ghost use Rattle.std.specs.Prelude.{◌≡◌, ◌⊎◌, ◌+◌, ◌<◌, ◌≤◌, ℕ, false, true, IfErr, IsTrue, None, OnOk};
ghost use Rattle.vx_config.specs.Checks.{blocks_of as blocks_of_is, plexes_of};
ghost use Rattle.vx_config.specs.Table.{greatest};
ghost use Rattle.vx_disk.specs.Causes.{Cause};
ghost use Rattle.vx_disk.specs.Shelf.{Flushed, Goes, Nothing};
ghost use Rattle.vx_group.specs.Blames.{MarksOn};
ghost use Rattle.vx_group.specs.GivesUp.{FaultMisses, FaultsBy};
ghost use Rattle.vx_group.specs.Holding.{GroupStands, wide};
ghost use Rattle.vx_group.specs.Loses.{LosesAlong};
ghost use Rattle.vx_group.specs.Stands.{inner_meaning};
ghost use Rattle.vx_grouplogs.specs.Marking.{MarksOnly};
ghost use Rattle.vx_group.specs.Settles.{ReadsOne};
ghost use Rattle.vx_groupmaps.specs.Knowing.{MapsNote};
ghost use Rattle.vx_logged.specs.Begun.{MapsBut, MapsOff, MapsOfRun, fell_in, fell_now, was_on};
ghost use Rattle.vx_logged.specs.Behind.{AreKept, BothKept};
ghost use Rattle.vx_logged.specs.Holds.{NoneFell, TheseHold};
ghost use Rattle.vx_logged.specs.Logged.{Known, LogOn, Narrowed, OthersOn, TrustsIn, are_off};
ghost use Rattle.vx_logs.specs.Writes.{first_region, last_region};
ghost use Rattle.vx_model.specs.Sizes.{regions_of as regions_in};
ghost use Rattle.vx_model.specs.declared.limits.TheConstants.{MOST_PLEXES};
ghost use Rattle.vx_volume.specs.Plexes.{active};

use crate::beginning::{actives, fell};
use crate::flushing::flush_cleared;
use crate::marking::mark_group;
use vx_disk::{Shelf, ShelfError};
use vx_group::GroupCore;
use vx_logs::Logs;
use vx_model::limits::{COMMIT_SERIALS, MOST_NUMBER, MOST_PLEXES};

// Whether a plex of a list is not ACTIVE.
fn fell_any(core: &GroupCore, was: &[bool; MOST_PLEXES], vol: u32) -> bool
    ensures { result ≡ false → NoneFell was.now core.now vol MOST_PLEXES }
{
    for plex in 0..MOST_PLEXES as u32 {
        if fell(core, was, vol, plex) {
            return true;
        }
    }
    false
}

// Whether regions of a run of so many blocks are to be noted: a plex of a list is not ACTIVE, logs go on, and a serial is left.
fn misses_any(
    core: &GroupCore,
    was: &[bool; MOST_PLEXES],
    going: bool,
    vol: u32,
    count: u64,
) -> bool
    ensures going { result ≡ true → going ≡ true }
    ensures some { result ≡ true → 0 < count }
    ensures left { result ≡ true → core.now.inner.config.serial + COMMIT_SERIALS < greatest }
    ensures none { result ≡ false → going ≡ true → 0 < count → NoneFell was.now core.now vol MOST_PLEXES ⊎ (greatest ≤ core.now.inner.config.serial + COMMIT_SERIALS) }
{
    if !going {
        return false;
    }
    if count == 0 {
        return false;
    }
    if core.inner.config.serial >= MOST_NUMBER - COMMIT_SERIALS {
        return false;
    }
    fell_any(core, was, vol)
}

// Notes the regions of a run of blocks as missed by each plex that is not ACTIVE, where a plex of a list is such. Else it makes no device call.
fn miss_fallen<S: Shelf>(
    shelf: &mut S,
    core: &mut GroupCore,
    logs: &mut Logs,
    going: bool,
    was: &[bool; MOST_PLEXES],
    vol: u32,
    block: u64,
    count: u64,
) -> Result<(), ShelfError>
    requires stands { GroupStands core.old (S.meaning shelf.old) }
    requires there { vol < (inner_meaning (wide core.old) (S.meaning shelf.old)).units }
    requires within { block + count ≤ blocks_of_is (wide core.old).config.volumes vol }
    requires log { going ≡ true → LogOn core.old vol logs.old (S.meaning shelf.old) }
    requires exists { (p : ℕ) → was_on was.now p ≡ true → p < plexes_of core.old.inner.config vol }
    requires up { IsTrue (S.meaning shelf.old).down → ⊥ }
    ensures stands { GroupStands core.new (S.meaning shelf.new) }
    ensures goes { Goes Nothing (inner_meaning (wide core.old) (S.meaning shelf.old)) (inner_meaning (wide core.new) (S.meaning shelf.new)) }
    ensures loses { LosesAlong core.old.inner.config core.new.inner.config (S.meaning shelf.old) (S.meaning shelf.new) }
    ensures log { LogOn core.old vol logs.old (S.meaning shelf.old) → LogOn core.new vol logs.new (S.meaning shelf.new) }
    ensures others { OthersOn vol core.old core.new (S.meaning shelf.old) (S.meaning shelf.new) }
    ensures adds { MarksOnly (regions_in (blocks_of_is (wide core.old).config.volumes vol)) (first_region block) (last_region block count) logs.old logs.new }
    ensures maps { Known core.old vol logs.old (S.meaning shelf.old) → Known core.new vol logs.new (S.meaning shelf.new) }
    ensures narrow { Narrowed core.old core.new }
    ensures still { (w p : ℕ) → active core.new.inner.config w p ≡ active core.old.inner.config w p }
    ensures notes { MapsNote (are_off core.new vol) (first_region block) (last_region block count) logs.old logs.new }
    ensures begins { MapsOff (fell_now was.now core.old vol) logs.old ⊎ (greatest ≤ core.old.inner.config.serial + COMMIT_SERIALS) → OnOk result (MapsOfRun (fell_now was.now core.new vol) (first_region block) (last_region block count) logs.new ⊎ (greatest ≤ core.new.inner.config.serial + COMMIT_SERIALS)) }
    ensures left { MapsOff (fell_now was.now core.old vol) logs.old ⊎ (greatest ≤ core.old.inner.config.serial + COMMIT_SERIALS) → IfErr result (λ e. MapsOfRun (fell_now was.now core.new vol) (first_region block) (last_region block count) logs.new) }
    ensures kept { AreKept core.old vol logs.old → OnOk result (AreKept core.new vol logs.new) }
    ensures holds { going ≡ true → 0 < count → OnOk result (TheseHold (fell_now was.now core.new vol) (first_region block) (last_region block count) logs.new ⊎ (greatest ≤ core.new.inner.config.serial + COMMIT_SERIALS)) }
    ensures drops { LogsDrop (wide core.old).config vol logs.old logs.new (S.meaning shelf.old) (S.meaning shelf.new) }
    ensures trusts { TrustsIn vol logs.new core.old.inner.config core.new.inner.config }
    ensures trust { OnOk result (core.old.inner.committed ≡ true → core.new.inner.committed ≡ true) }
    ensures agreed { IfErr result (λ e. core.old.inner.committed ≡ true → core.new.inner.agreed ≡ true) }
    ensures finds { GroupFinds core.old core.new (S.meaning shelf.old) (S.meaning shelf.new) }
    ensures marks { MarksOn vol core.old.inner.unsure core.new.inner.unsure result }
    ensures misses { FaultMisses core.new.inner result }
    ensures cause { Cause (inner_meaning (wide core.old) (S.meaning shelf.old)) (inner_meaning (wide core.new) (S.meaning shelf.new)) vol result }
{
    let misses = misses_any(core, was, going, vol, count);
    if !misses {
        return Ok(());
    }
    match mark_group(shelf, core, logs, vol, block, count) {
        Ok(_) => Ok(()),
        Err(error) => Err(error),
    }
}

/// Makes a volume durable behind a write of a run of its blocks, as `flush_cleared` does. Where a plex falls out of use in that, logs go on and a
/// serial is left, the regions of the run are marked: the plex has missed them then, and no others where the caller is sure. It has no others behind
/// a refusal either, unless the shelf is down. Logs that are in memory no more are held as lost, as `flush_cleared` has it.
pub fn flush_behind<S: Shelf>(
    shelf: &mut S,
    core: &mut GroupCore,
    logs: &mut Logs,
    going: bool,
    sure: bool,
    vol: u32,
    block: u64,
    count: u64,
) -> Result<(), ShelfError>
    requires stands { GroupStands core.old (S.meaning shelf.old) }
    requires there { vol < (inner_meaning (wide core.old) (S.meaning shelf.old)).units }
    requires within { block + count ≤ blocks_of_is (wide core.old).config.volumes vol }
    requires sure { sure ≡ true → going ≡ true }
    requires log { going ≡ true → LogOn core.old vol logs.old (S.meaning shelf.old) }
    requires one { sure ≡ true → ReadsOne (wide core.old).config vol (S.meaning shelf.old) }
    ensures stands { GroupStands core.new (S.meaning shelf.new) }
    ensures goes { Goes Nothing (inner_meaning (wide core.old) (S.meaning shelf.old)) (inner_meaning (wide core.new) (S.meaning shelf.new)) }
    ensures loses { LosesAlong core.old.inner.config core.new.inner.config (S.meaning shelf.old) (S.meaning shelf.new) }
    ensures ok { OnOk result (Flushed vol (inner_meaning (wide core.old) (S.meaning shelf.old)) (inner_meaning (wide core.new) (S.meaning shelf.new))) }
    ensures log { LogOn core.old vol logs.old (S.meaning shelf.old) → LogOn core.new vol logs.new (S.meaning shelf.new) }
    ensures others { OthersOn vol core.old core.new (S.meaning shelf.old) (S.meaning shelf.new) }
    ensures adds { MarksOnly (regions_in (blocks_of_is (wide core.old).config.volumes vol)) (first_region block) (last_region block count) logs.old logs.new }
    ensures maps { Known core.old vol logs.old (S.meaning shelf.old) → Known core.new vol logs.new (S.meaning shelf.new) }
    ensures narrow { Narrowed core.old core.new }
    ensures notes { MapsBut (fell_in core.old core.new vol) (are_off core.new vol) (first_region block) (last_region block count) logs.old logs.new }
    ensures begins { sure ≡ true → OnOk result (MapsOfRun (fell_in core.old core.new vol) (first_region block) (last_region block count) logs.new ⊎ (greatest ≤ core.new.inner.config.serial + COMMIT_SERIALS)) }
    ensures left { sure ≡ true → IfErr result (λ e. IsTrue (S.meaning shelf.new).down ⊎ MapsOfRun (fell_in core.old core.new vol) (first_region block) (last_region block count) logs.new) }
    ensures kept { BothKept core.old vol logs.old → OnOk result (AreKept core.new vol logs.new) }
    ensures said { sure ≡ true → 0 < blocks_of_is (wide core.old).config.volumes vol → OnOk result (AreKept core.new vol logs.new) }
    ensures holds { going ≡ true → 0 < count → OnOk result (TheseHold (fell_in core.old core.new vol) (first_region block) (last_region block count) logs.new ⊎ (greatest ≤ core.new.inner.config.serial + COMMIT_SERIALS)) }
    ensures drops { LogsDrop (wide core.old).config vol logs.old logs.new (S.meaning shelf.old) (S.meaning shelf.new) }
    ensures trusts { TrustsIn vol logs.new core.old.inner.config core.new.inner.config }
    ensures trust { OnOk result (core.old.inner.committed ≡ true → core.new.inner.committed ≡ true) }
    ensures agreed { IfErr result (λ e. core.old.inner.committed ≡ true → core.new.inner.agreed ≡ true) }
    ensures rests { core.old.held ≡ None → (w p : ℕ) → IsTrue (active core.new.inner.config w p) → IsTrue (active core.old.inner.config w p) }
    ensures finds { GroupFinds core.old core.new (S.meaning shelf.old) (S.meaning shelf.new) }
    ensures marks { MarksOn vol core.old.inner.unsure core.new.inner.unsure result }
    ensures gives_up { FaultsBy vol core.old.inner.config core.new.inner (S.meaning shelf.old) (S.meaning shelf.new) result }
    ensures cause { Cause (inner_meaning (wide core.old) (S.meaning shelf.old)) (inner_meaning (wide core.new) (S.meaning shelf.new)) vol result }
{
    let was = actives(&core.inner.config, vol);
    match flush_cleared(shelf, core, logs, sure, vol) {
        Ok(()) => {}
        Err(error) => return Err(error),
    }
    miss_fallen(shelf, core, logs, going, &was, vol, block, count)
}
