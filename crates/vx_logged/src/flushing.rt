// A flush of a group behind which marks are taken off.
ghost use Rattle.vx_grouplogs.specs.Gone.{LogsDrop};
ghost use Rattle.vx_group.specs.Finds.{GroupFinds};
ghost use Rattle.std.specs.Prelude.{◌≡◌, ◌⊎◌, ◌+◌, ◌<◌, ◌≤◌, true, IfErr, IsTrue, OnOk};
ghost use Rattle.vx_config.specs.Table.{greatest};
ghost use Rattle.vx_disk.specs.Causes.{Cause};
ghost use Rattle.vx_disk.specs.Shelf.{Flushed, Goes, Nothing};
ghost use Rattle.vx_group.specs.Blames.{MarksOn};
ghost use Rattle.vx_group.specs.GivesUp.{FaultsBy};
ghost use Rattle.vx_group.specs.Holding.{GroupStands, wide};
ghost use Rattle.vx_group.specs.Loses.{LosesAlong};
ghost use Rattle.vx_group.specs.Stands.{inner_meaning};
ghost use Rattle.vx_config.specs.Checks.{blocks_of as blocks_of_is};
ghost use Rattle.vx_grouplogs.specs.Marking.{MarksFewer};
ghost use Rattle.vx_group.specs.Settles.{ReadsOne};
ghost use Rattle.vx_logged.specs.Begun.{MapsBut, MapsOff, fell_in};
ghost use Rattle.vx_logged.specs.Behind.{AreKept, BothKept, none_missing};
ghost use Rattle.vx_logged.specs.Logged.{Known, LogOn, Narrowed, OthersOn, TrustsIn};
ghost use Rattle.vx_model.specs.Sizes.{regions_of as regions_in};

use crate::beginning::{actives, keep_fallen};
use crate::clearing::clear_group;
use vx_disk::{Shelf, ShelfError};
use vx_group::{GroupCore, flush_group};
use vx_logs::Logs;
use vx_model::limits::COMMIT_SERIALS;

/// Makes a volume durable, and takes the marks off its log where more than 64 regions were marked since. So it is only where logs are not
/// stopped, and where the caller is sure that each block of the volume reads as one value on all plexes that are ACTIVE: else it is a flush
/// and no more. A plex that fails in the flush has missed nothing: its map is empty then, unless no serial is left. So it is behind a refusal too,
/// unless the shelf is down. Behind an Ok a log of the volume that is in memory no more is held as lost, unless no serial is left to say so: where the
/// caller is sure and the volume has blocks, and else where it was so before.
pub fn flush_cleared<S: Shelf>(
    shelf: &mut S,
    core: &mut GroupCore,
    logs: &mut Logs,
    sure: bool,
    vol: u32,
) -> Result<(), ShelfError>
    requires stands { GroupStands core.old (S.meaning shelf.old) }
    requires there { vol < (inner_meaning (wide core.old) (S.meaning shelf.old)).units }
    requires log { sure ≡ true → LogOn core.old vol logs.old (S.meaning shelf.old) }
    requires one { sure ≡ true → ReadsOne (wide core.old).config vol (S.meaning shelf.old) }
    ensures stands { GroupStands core.new (S.meaning shelf.new) }
    ensures goes { Goes Nothing (inner_meaning (wide core.old) (S.meaning shelf.old)) (inner_meaning (wide core.new) (S.meaning shelf.new)) }
    ensures loses { LosesAlong core.old.inner.config core.new.inner.config (S.meaning shelf.old) (S.meaning shelf.new) }
    ensures ok { OnOk result (Flushed vol (inner_meaning (wide core.old) (S.meaning shelf.old)) (inner_meaning (wide core.new) (S.meaning shelf.new))) }
    ensures log { LogOn core.old vol logs.old (S.meaning shelf.old) → LogOn core.new vol logs.new (S.meaning shelf.new) }
    ensures others { OthersOn vol core.old core.new (S.meaning shelf.old) (S.meaning shelf.new) }
    ensures fewer { MarksFewer (regions_in (blocks_of_is (wide core.old).config.volumes vol)) logs.old logs.new }
    ensures maps { Known core.old vol logs.old (S.meaning shelf.old) → Known core.new vol logs.new (S.meaning shelf.new) }
    ensures narrow { Narrowed core.old core.new }
    ensures notes { MapsBut (fell_in core.old core.new vol) none_missing 0 0 logs.old logs.new }
    ensures begins { sure ≡ true → OnOk result (MapsOff (fell_in core.old core.new vol) logs.new ⊎ (greatest ≤ core.new.inner.config.serial + COMMIT_SERIALS)) }
    ensures left { sure ≡ true → IfErr result (λ e. IsTrue (S.meaning shelf.new).down ⊎ MapsOff (fell_in core.old core.new vol) logs.new) }
    ensures kept { BothKept core.old vol logs.old → OnOk result (AreKept core.new vol logs.new) }
    ensures said { sure ≡ true → 0 < blocks_of_is (wide core.old).config.volumes vol → OnOk result (AreKept core.new vol logs.new) }
    ensures drops { LogsDrop (wide core.old).config vol logs.old logs.new (S.meaning shelf.old) (S.meaning shelf.new) }
    ensures trusts { TrustsIn vol logs.new core.old.inner.config core.new.inner.config }
    ensures trust { OnOk result (core.old.inner.committed ≡ true → core.new.inner.committed ≡ true) }
    ensures agreed { IfErr result (λ e. core.old.inner.committed ≡ true → core.new.inner.agreed ≡ true) }
    ensures finds { GroupFinds core.old core.new (S.meaning shelf.old) (S.meaning shelf.new) }
    ensures marks { MarksOn vol core.old.inner.unsure core.new.inner.unsure result }
    ensures gives_up { FaultsBy vol core.old.inner.config core.new.inner (S.meaning shelf.old) (S.meaning shelf.new) result }
    ensures cause { Cause (inner_meaning (wide core.old) (S.meaning shelf.old)) (inner_meaning (wide core.new) (S.meaning shelf.new)) vol result }
{
    let was = actives(&core.inner.config, vol);
    match flush_group(shelf, core, vol) {
        Ok(()) => {}
        Err(error) => return Err(error),
    }
    if !sure {
        return Ok(());
    }
    let done = match keep_fallen(shelf, core, logs, &was, vol) {
        Ok(done) => done,
        Err(refused) => return Err(refused),
    };
    if !done {
        return Ok(());
    }
    match clear_group(shelf, core, logs, vol) {
        Ok(_) => Ok(()),
        Err(error) => Err(error),
    }
}
