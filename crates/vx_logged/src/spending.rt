// A flush: where no serial is left to commit that a log is lost, no map of missed regions is gone by.
ghost use Rattle.vx_group.specs.Finds.{GroupFinds};
ghost use Rattle.std.specs.Prelude.{◌≡◌, ◌⊎◌, ◌+◌, ◌<◌, ◌≤◌, ℕ, None, true, IfErr, IsTrue, OnOk};
ghost use Rattle.vx_config.specs.Checks.{blocks_of as blocks_of_is};
ghost use Rattle.vx_config.specs.Table.{greatest};
ghost use Rattle.vx_disk.specs.Causes.{Cause};
ghost use Rattle.vx_disk.specs.Shelf.{Flushed, Goes, Nothing};
ghost use Rattle.vx_group.specs.Blames.{MarksOn};
ghost use Rattle.vx_group.specs.GivesUp.{FaultsBy};
ghost use Rattle.vx_group.specs.Holding.{GroupStands, wide};
ghost use Rattle.vx_group.specs.Loses.{LosesAlong};
ghost use Rattle.vx_group.specs.Stands.{inner_meaning};
ghost use Rattle.vx_grouplogs.specs.Marking.{MarksFewer, MarksOnly};
ghost use Rattle.vx_group.specs.Settles.{ReadsOne};
ghost use Rattle.vx_logged.specs.Begun.{MapsBut, MapsOff, MapsOfRun, fell_in};
ghost use Rattle.vx_logged.specs.Behind.{AreKept, BothKept, none_missing};
ghost use Rattle.vx_logged.specs.Holds.{TheseHold};
ghost use Rattle.vx_logged.specs.Logged.{DropsBut, Known, LogOn, Narrowed, OthersOn, TrustsIn, are_off};
ghost use Rattle.vx_logs.specs.Writes.{first_region, last_region};
ghost use Rattle.vx_model.specs.Sizes.{regions_of as regions_in};
ghost use Rattle.vx_volume.specs.Plexes.{active};

use crate::flushing::flush_cleared;
use crate::missing::flush_behind;
use vx_disk::{Shelf, ShelfError};
use vx_group::GroupCore;
use vx_logs::Logs;
use vx_model::limits::{COMMIT_SERIALS, MOST_NUMBER};

// Takes the maps of a volume out of memory, where logs go on and no serial is left.
fn drop_spent(core: &GroupCore, logs: &mut Logs, going: bool)
    ensures drl { logs.new.drl ≡ logs.old.drl }
    ensures kept { (logs.new ≡ logs.old) ⊎ ((logs.new.fmr ≡ None) × (greatest ≤ core.now.inner.config.serial + COMMIT_SERIALS)) }
    ensures spent { going ≡ true → greatest ≤ core.now.inner.config.serial + COMMIT_SERIALS → logs.new.fmr ≡ None }
{
    if !going {
        return;
    }
    if core.inner.config.serial < MOST_NUMBER - COMMIT_SERIALS {
        return;
    }
    logs.fmr = None;
}

/// Makes a volume durable behind a write of a run of its blocks, as `flush_behind` does. Where logs go on and no serial is left then, no map of the
/// volume is in memory: so what is, has the regions of the run of each plex that fell out of use, and no others where the caller is sure.
pub fn flush_noted<S: Shelf>(
    shelf: &mut S,
    core: &mut GroupCore,
    logs: &mut Logs,
    going: bool,
    sure: bool,
    vol: u32,
    block: u64,
    count: u64,
) -> Result<(), ShelfError>
    requires stands { GroupStands core.old (S.meaning shelf.old) }
    requires there { vol < (inner_meaning (wide core.old) (S.meaning shelf.old)).units }
    requires within { block + count ≤ blocks_of_is (wide core.old).config.volumes vol }
    requires sure { sure ≡ true → going ≡ true }
    requires log { going ≡ true → LogOn core.old vol logs.old (S.meaning shelf.old) }
    requires one { sure ≡ true → ReadsOne (wide core.old).config vol (S.meaning shelf.old) }
    ensures stands { GroupStands core.new (S.meaning shelf.new) }
    ensures goes { Goes Nothing (inner_meaning (wide core.old) (S.meaning shelf.old)) (inner_meaning (wide core.new) (S.meaning shelf.new)) }
    ensures loses { LosesAlong core.old.inner.config core.new.inner.config (S.meaning shelf.old) (S.meaning shelf.new) }
    ensures ok { OnOk result (Flushed vol (inner_meaning (wide core.old) (S.meaning shelf.old)) (inner_meaning (wide core.new) (S.meaning shelf.new))) }
    ensures log { LogOn core.old vol logs.old (S.meaning shelf.old) → LogOn core.new vol logs.new (S.meaning shelf.new) }
    ensures others { OthersOn vol core.old core.new (S.meaning shelf.old) (S.meaning shelf.new) }
    ensures adds { MarksOnly (regions_in (blocks_of_is (wide core.old).config.volumes vol)) (first_region block) (last_region block count) logs.old logs.new }
    ensures maps { Known core.old vol logs.old (S.meaning shelf.old) → Known core.new vol logs.new (S.meaning shelf.new) }
    ensures narrow { Narrowed core.old core.new }
    ensures notes { MapsBut (fell_in core.old core.new vol) (are_off core.new vol) (first_region block) (last_region block count) logs.old logs.new }
    ensures begins { sure ≡ true → OnOk result (MapsOfRun (fell_in core.old core.new vol) (first_region block) (last_region block count) logs.new) }
    ensures left { sure ≡ true → IfErr result (λ e. IsTrue (S.meaning shelf.new).down ⊎ MapsOfRun (fell_in core.old core.new vol) (first_region block) (last_region block count) logs.new) }
    ensures kept { BothKept core.old vol logs.old → OnOk result (AreKept core.new vol logs.new) }
    ensures said { sure ≡ true → 0 < blocks_of_is (wide core.old).config.volumes vol → OnOk result (AreKept core.new vol logs.new) }
    ensures holds { going ≡ true → 0 < count → OnOk result (TheseHold (fell_in core.old core.new vol) (first_region block) (last_region block count) logs.new) }
    ensures drops { DropsBut core.old core.new vol logs.old logs.new (S.meaning shelf.old) (S.meaning shelf.new) }
    ensures trusts { TrustsIn vol logs.new core.old.inner.config core.new.inner.config }
    ensures trust { OnOk result (core.old.inner.committed ≡ true → core.new.inner.committed ≡ true) }
    ensures agreed { IfErr result (λ e. core.old.inner.committed ≡ true → core.new.inner.agreed ≡ true) }
    ensures rests { core.old.held ≡ None → (w p : ℕ) → IsTrue (active core.new.inner.config w p) → IsTrue (active core.old.inner.config w p) }
    ensures finds { GroupFinds core.old core.new (S.meaning shelf.old) (S.meaning shelf.new) }
    ensures marks { MarksOn vol core.old.inner.unsure core.new.inner.unsure result }
    ensures gives_up { FaultsBy vol core.old.inner.config core.new.inner (S.meaning shelf.old) (S.meaning shelf.new) result }
    ensures cause { Cause (inner_meaning (wide core.old) (S.meaning shelf.old)) (inner_meaning (wide core.new) (S.meaning shelf.new)) vol result }
{
    match flush_behind(shelf, core, logs, going, sure, vol, block, count) {
        Ok(()) => {}
        Err(error) => return Err(error),
    }
    drop_spent(core, logs, going);
    Ok(())
}

/// Makes a volume durable, as `flush_cleared` does. Where the caller is sure and no serial is left then, no map of the volume is in memory: so what
/// is, has no region of a plex that fell out of use.
pub fn flush_spent<S: Shelf>(
    shelf: &mut S,
    core: &mut GroupCore,
    logs: &mut Logs,
    sure: bool,
    vol: u32,
) -> Result<(), ShelfError>
    requires stands { GroupStands core.old (S.meaning shelf.old) }
    requires there { vol < (inner_meaning (wide core.old) (S.meaning shelf.old)).units }
    requires log { sure ≡ true → LogOn core.old vol logs.old (S.meaning shelf.old) }
    requires one { sure ≡ true → ReadsOne (wide core.old).config vol (S.meaning shelf.old) }
    ensures stands { GroupStands core.new (S.meaning shelf.new) }
    ensures goes { Goes Nothing (inner_meaning (wide core.old) (S.meaning shelf.old)) (inner_meaning (wide core.new) (S.meaning shelf.new)) }
    ensures loses { LosesAlong core.old.inner.config core.new.inner.config (S.meaning shelf.old) (S.meaning shelf.new) }
    ensures ok { OnOk result (Flushed vol (inner_meaning (wide core.old) (S.meaning shelf.old)) (inner_meaning (wide core.new) (S.meaning shelf.new))) }
    ensures log { LogOn core.old vol logs.old (S.meaning shelf.old) → LogOn core.new vol logs.new (S.meaning shelf.new) }
    ensures others { OthersOn vol core.old core.new (S.meaning shelf.old) (S.meaning shelf.new) }
    ensures fewer { MarksFewer (regions_in (blocks_of_is (wide core.old).config.volumes vol)) logs.old logs.new }
    ensures maps { Known core.old vol logs.old (S.meaning shelf.old) → Known core.new vol logs.new (S.meaning shelf.new) }
    ensures narrow { Narrowed core.old core.new }
    ensures notes { MapsBut (fell_in core.old core.new vol) none_missing 0 0 logs.old logs.new }
    ensures begins { sure ≡ true → OnOk result (MapsOff (fell_in core.old core.new vol) logs.new) }
    ensures left { sure ≡ true → IfErr result (λ e. IsTrue (S.meaning shelf.new).down ⊎ MapsOff (fell_in core.old core.new vol) logs.new) }
    ensures kept { BothKept core.old vol logs.old → OnOk result (AreKept core.new vol logs.new) }
    ensures said { sure ≡ true → 0 < blocks_of_is (wide core.old).config.volumes vol → OnOk result (AreKept core.new vol logs.new) }
    ensures drops { DropsBut core.old core.new vol logs.old logs.new (S.meaning shelf.old) (S.meaning shelf.new) }
    ensures trusts { TrustsIn vol logs.new core.old.inner.config core.new.inner.config }
    ensures trust { OnOk result (core.old.inner.committed ≡ true → core.new.inner.committed ≡ true) }
    ensures agreed { IfErr result (λ e. core.old.inner.committed ≡ true → core.new.inner.agreed ≡ true) }
    ensures finds { GroupFinds core.old core.new (S.meaning shelf.old) (S.meaning shelf.new) }
    ensures marks { MarksOn vol core.old.inner.unsure core.new.inner.unsure result }
    ensures gives_up { FaultsBy vol core.old.inner.config core.new.inner (S.meaning shelf.old) (S.meaning shelf.new) result }
    ensures cause { Cause (inner_meaning (wide core.old) (S.meaning shelf.old)) (inner_meaning (wide core.new) (S.meaning shelf.new)) vol result }
{
    match flush_cleared(shelf, core, logs, sure, vol) {
        Ok(()) => {}
        Err(error) => return Err(error),
    }
    drop_spent(core, logs, sure);
    Ok(())
}
