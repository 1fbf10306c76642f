// Marks of a group that are taken off behind a flush.
ghost use Rattle.vx_grouplogs.specs.Gone.{LogsDrop};
ghost use Rattle.vx_group.specs.Finds.{GroupFinds};
ghost use Rattle.std.specs.Prelude.{◌≡◌, ◌*◌, ◌+◌, ◌<◌, ◌≤◌, ℕ, false, true, IfErr, IfOk, OnOk};
ghost use Rattle.vx_config.specs.Table.{greatest};
ghost use Rattle.vx_disk.specs.Causes.{Cause};
ghost use Rattle.vx_disk.specs.Shelf.{Goes, Nothing};
ghost use Rattle.vx_group.specs.Creates.{SameUnits};
ghost use Rattle.vx_group.specs.Blames.{MarksOn};
ghost use Rattle.vx_group.specs.GivesUp.{FaultMisses};
ghost use Rattle.vx_group.specs.Holding.{GroupStands, wide};
ghost use Rattle.vx_group.specs.Loses.{LosesAlong};
ghost use Rattle.vx_group.specs.Stands.{inner_meaning};
ghost use Rattle.vx_config.specs.Checks.{blocks_of as blocks_of_is};
ghost use Rattle.vx_grouplogs.specs.Covering.{AllAlike};
ghost use Rattle.vx_grouplogs.specs.Marking.{HoldsMany, MarksFewer, NoMarks};
ghost use Rattle.vx_groupmaps.specs.Knowing.{MapsStay};
ghost use Rattle.vx_logged.specs.Logged.{Known, LogKept, LogOn, Narrowed, OthersOn, TrustsIn};
ghost use Rattle.vx_model.specs.Sizes.{regions_of as regions_in};
ghost use Rattle.vx_volume.specs.Plexes.{active};

use crate::keeping::keep_log;
use crate::readying::ready_group;
use vx_config::blocks_of;
use vx_disk::{Shelf, ShelfError};
use vx_group::GroupCore;
use vx_grouplogs::clear_run;
use vx_logs::Logs;
use vx_model::limits::COMMIT_SERIALS;

/// Takes all marks off the log of a volume where more than 64 regions were marked since, and answers whether the log may be gone by further.
/// The caller says that of each block of the volume a crash leaves one value. A log of which the disk fails is committed as lost,
/// while serials are left. All volumes read as before; whatever is answered, each log stands.
pub fn clear_group<S: Shelf>(
    shelf: &mut S,
    core: &mut GroupCore,
    logs: &mut Logs,
    vol: u32,
) -> Result<bool, ShelfError>
    requires stands { GroupStands core.old (S.meaning shelf.old) }
    requires there { vol < (inner_meaning (wide core.old) (S.meaning shelf.old)).units }
    requires log { LogOn core.old vol logs.old (S.meaning shelf.old) }
    requires alike { AllAlike (wide core.old).config vol (S.meaning shelf.old) }
    ensures stands { GroupStands core.new (S.meaning shelf.new) }
    ensures goes { Goes Nothing (inner_meaning (wide core.old) (S.meaning shelf.old)) (inner_meaning (wide core.new) (S.meaning shelf.new)) }
    ensures loses { LosesAlong core.old.inner.config core.new.inner.config (S.meaning shelf.old) (S.meaning shelf.new) }
    ensures log { LogOn core.new vol logs.new (S.meaning shelf.new) }
    ensures others { OthersOn vol core.old core.new (S.meaning shelf.old) (S.meaning shelf.new) }
    ensures fewer { MarksFewer (regions_in (blocks_of_is (wide core.old).config.volumes vol)) logs.old logs.new }
    ensures maps { Known core.old vol logs.old (S.meaning shelf.old) → Known core.new vol logs.new (S.meaning shelf.new) }
    ensures stay { MapsStay logs.old logs.new }
    ensures narrow { Narrowed core.old core.new }
    ensures still { (w p : ℕ) → active core.new.inner.config w p ≡ active core.old.inner.config w p }
    ensures below { SameUnits (S.meaning shelf.old) (S.meaning shelf.new) }
    ensures off { IfOk result (λ done. done ≡ true → HoldsMany logs.old.drl → NoMarks (regions_in (blocks_of_is (wide core.old).config.volumes vol)) logs.new) }
    ensures full { IfOk result (λ done. done ≡ false → greatest ≤ core.old.inner.config.serial + 2 * COMMIT_SERIALS) }
    ensures spent { IfOk result (λ done. done ≡ false → greatest ≤ core.new.inner.config.serial + COMMIT_SERIALS) }
    ensures same { OnOk result (logs.new.fmr ≡ logs.old.fmr) }
    ensures kept { LogKept core.old vol logs.old → IfOk result (λ done. done ≡ true → LogKept core.new vol logs.new) }
    ensures said { 0 < blocks_of_is (wide core.old).config.volumes vol → IfOk result (λ done. done ≡ true → LogKept core.new vol logs.new) }
    ensures drops { LogsDrop (wide core.old).config vol logs.old logs.new (S.meaning shelf.old) (S.meaning shelf.new) }
    ensures trusts { TrustsIn vol logs.new core.old.inner.config core.new.inner.config }
    ensures trust { OnOk result (core.old.inner.committed ≡ true → core.new.inner.committed ≡ true) }
    ensures agreed { IfErr result (λ e. core.old.inner.committed ≡ true → core.new.inner.agreed ≡ true) }
    ensures finds { GroupFinds core.old core.new (S.meaning shelf.old) (S.meaning shelf.new) }
    ensures marks { MarksOn vol core.old.inner.unsure core.new.inner.unsure result }
    ensures misses { FaultMisses core.new.inner result }
    ensures cause { Cause (inner_meaning (wide core.old) (S.meaning shelf.old)) (inner_meaning (wide core.new) (S.meaning shelf.new)) vol result }
{
    let ready = match ready_group(shelf, core, vol) {
        Ok(ready) => ready,
        Err(error) => return Err(error),
    };
    if !ready {
        return Ok(false);
    }
    let blocks = blocks_of(&core.inner.config, vol);
    if blocks == 0 {
        return Ok(true);
    }
    match clear_run(logs, &core.inner.config, vol, shelf) {
        Ok(()) => {}
        Err(_) => return Err(ShelfError::Down),
    }
    keep_log(shelf, core, logs, vol)
}
