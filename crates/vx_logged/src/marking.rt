// Marks of a group before a write.
ghost use Rattle.vx_grouplogs.specs.Gone.{LogsDrop};
ghost use Rattle.vx_group.specs.Finds.{GroupFinds};
ghost use Rattle.std.specs.Prelude.{◌≡◌, ◌*◌, ◌+◌, ◌<◌, ◌≤◌, ℕ, Bool, false, true, IfErr, IfOk, IsTrue, None, OnOk};
ghost use Rattle.vx_config.specs.Table.{greatest};
ghost use Rattle.vx_config.specs.Checks.{blocks_of as blocks_of_is};
ghost use Rattle.vx_disk.specs.Causes.{Cause};
ghost use Rattle.vx_disk.specs.Shelf.{Goes, Nothing};
ghost use Rattle.vx_group.specs.Blames.{MarksOn};
ghost use Rattle.vx_group.specs.GivesUp.{FaultMisses};
ghost use Rattle.vx_group.specs.Holding.{GroupStands, wide};
ghost use Rattle.vx_group.specs.Loses.{LosesAlong};
ghost use Rattle.vx_group.specs.Stands.{inner_meaning};
ghost use Rattle.vx_grouplogs.specs.Marking.{MarksOnly};
ghost use Rattle.vx_groupmaps.specs.Knowing.{MapsNote, PlexesKnow, or_off};
ghost use Rattle.vx_groupmaps.specs.Missing.{HoldMissed};
ghost use Rattle.vx_logged.specs.Behind.{MapSaid};
ghost use Rattle.vx_logged.specs.Holds.{HoldsRun};
ghost use Rattle.vx_logged.specs.Logged.{KnownBy, LogOn, MayWrite, Narrowed, OthersOn, TrustsIn, are_off};
ghost use Rattle.vx_logs.specs.Writes.{first_region, last_region};
ghost use Rattle.vx_model.specs.Sizes.{regions_of as regions_in};
ghost use Rattle.vx_volume.specs.Plexes.{active};

use crate::keeping::keep_logs;
use crate::readying::ready_group;
use vx_disk::{Shelf, ShelfError};
use vx_group::GroupCore;
use vx_grouplogs::guard_run;
use vx_logs::Logs;
use vx_model::limits::COMMIT_SERIALS;

/// Marks the regions of a run of blocks of a volume durably before a write, as dirty, and as missed by each plex that is not ACTIVE, and answers
/// whether they may be written so. A log of which the disk fails is committed as lost. All volumes read as before; whatever is answered, each log stands, and no other region was marked. The
/// answer is false only where no serial is left.
pub fn mark_group<S: Shelf>(
    shelf: &mut S,
    core: &mut GroupCore,
    logs: &mut Logs,
    vol: u32,
    block: u64,
    count: u64,
) -> Result<bool, ShelfError>
    requires stands { GroupStands core.old (S.meaning shelf.old) }
    requires there { vol < (inner_meaning (wide core.old) (S.meaning shelf.old)).units }
    requires some { 0 < count }
    requires within { block + count ≤ blocks_of_is (wide core.old).config.volumes vol }
    requires log { LogOn core.old vol logs.old (S.meaning shelf.old) }
    ensures stands { GroupStands core.new (S.meaning shelf.new) }
    ensures goes { Goes Nothing (inner_meaning (wide core.old) (S.meaning shelf.old)) (inner_meaning (wide core.new) (S.meaning shelf.new)) }
    ensures loses { LosesAlong core.old.inner.config core.new.inner.config (S.meaning shelf.old) (S.meaning shelf.new) }
    ensures log { LogOn core.new vol logs.new (S.meaning shelf.new) }
    ensures others { OthersOn vol core.old core.new (S.meaning shelf.old) (S.meaning shelf.new) }
    ensures adds { MarksOnly (regions_in (blocks_of_is (wide core.old).config.volumes vol)) (first_region block) (last_region block count) logs.old logs.new }
    ensures narrow { Narrowed core.old core.new }
    ensures still { (w p : ℕ) → active core.new.inner.config w p ≡ active core.old.inner.config w p }
    ensures plexes { (missed : ℕ → ℕ → Bool) → (IsTrue (S.meaning shelf.new).down → ⊥) → PlexesKnow (wide core.old).config vol missed (S.meaning shelf.old).reads → PlexesKnow (wide core.new).config vol missed (S.meaning shelf.new).reads }
    ensures maps { (spare : ℕ → ℕ → Bool) → KnownBy core.old vol spare logs.old (S.meaning shelf.old) → KnownBy core.new vol spare logs.new (S.meaning shelf.new) }
    ensures knows { (spare : ℕ → ℕ → Bool) → KnownBy core.old vol (or_off (wide core.old).config vol (first_region block) (last_region block count) spare) logs.old (S.meaning shelf.old) → IfOk result (λ done. done ≡ true → KnownBy core.new vol spare logs.new (S.meaning shelf.new)) }
    ensures notes { MapsNote (are_off core.new vol) (first_region block) (last_region block count) logs.old logs.new }
    ensures said { IfOk result (λ done. done ≡ true → MapSaid core.new vol logs.new) }
    ensures free { IfOk result (λ done. done ≡ true → core.new.held ≡ None) }
    ensures missed { IfOk result (λ done. done ≡ true → HoldMissed (wide core.old).config vol (first_region block) (last_region block count) logs.new) }
    ensures holds { IfOk result (λ done. done ≡ true → HoldsRun core.new.inner.config vol (first_region block) (last_region block count) logs.new) }
    ensures may { IfOk result (λ done. done ≡ true → MayWrite core.new vol (first_region block) (last_region block count) logs.new) }
    ensures full { IfOk result (λ done. done ≡ false → greatest ≤ core.old.inner.config.serial + 2 * COMMIT_SERIALS) }
    ensures spent { IfOk result (λ done. done ≡ false → greatest ≤ core.new.inner.config.serial + COMMIT_SERIALS) }
    ensures drops { LogsDrop (wide core.old).config vol logs.old logs.new (S.meaning shelf.old) (S.meaning shelf.new) }
    ensures trusts { TrustsIn vol logs.new core.old.inner.config core.new.inner.config }
    ensures trust { OnOk result (core.old.inner.committed ≡ true → core.new.inner.committed ≡ true) }
    ensures agreed { IfErr result (λ e. core.old.inner.committed ≡ true → core.new.inner.agreed ≡ true) }
    ensures finds { GroupFinds core.old core.new (S.meaning shelf.old) (S.meaning shelf.new) }
    ensures marks { MarksOn vol core.old.inner.unsure core.new.inner.unsure result }
    ensures misses { FaultMisses core.new.inner result }
    ensures cause { Cause (inner_meaning (wide core.old) (S.meaning shelf.old)) (inner_meaning (wide core.new) (S.meaning shelf.new)) vol result }
{
    let ready = match ready_group(shelf, core, vol) {
        Ok(ready) => ready,
        Err(error) => return Err(error),
    };
    if !ready {
        return Ok(false);
    }
    match guard_run(logs, &core.inner.config, vol, shelf, block, count) {
        Ok(()) => {}
        Err(_) => return Err(ShelfError::Down),
    }
    keep_logs(shelf, core, logs, vol)
}
