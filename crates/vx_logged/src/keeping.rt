// A log of a group that is in memory no more, and is committed as lost.
ghost use Rattle.vx_group.specs.Finds.{GroupFinds};
ghost use Rattle.std.specs.Prelude.{◌≡◌, ◌*◌, ◌+◌, ◌<◌, ◌≤◌, ℕ, None, false, true, IfErr, IfOk, OnOk};
ghost use Rattle.vx_config.specs.Table.{greatest};
ghost use Rattle.vx_disk.specs.Causes.{Cause};
ghost use Rattle.vx_disk.specs.Shelf.{Goes, Nothing};
ghost use Rattle.vx_group.specs.Creates.{SameUnits};
ghost use Rattle.vx_group.specs.Blames.{MarksOn};
ghost use Rattle.vx_group.specs.GivesUp.{FaultMisses};
ghost use Rattle.vx_group.specs.Holding.{GroupStands, wide};
ghost use Rattle.vx_group.specs.Loses.{LosesAlong, TrustsBut, TrustsStill};
ghost use Rattle.vx_group.specs.Stands.{inner_meaning};
ghost use Rattle.vx_kept.specs.LogRuns.{log_trusted};
ghost use Rattle.vx_volume.specs.Plexes.{active};
ghost use Rattle.vx_logged.specs.Behind.{MapSaid};
ghost use Rattle.vx_logged.specs.Logged.{EachOn, LogKept, MapKept, Narrowed, TrustsIn};

use vx_config::VolumeLog;
use vx_disk::{Shelf, ShelfError};
use vx_group::{GroupCore, lose_group};
use vx_kept::is_trusted;
use vx_logs::Logs;
use vx_model::limits::{COMMIT_SERIALS, MOST_NUMBER};

// Commits that a log of a volume is lost, where it is in memory no more and not held as lost, and answers whether the log may be gone by further.
fn keep_one<S: Shelf>(
    shelf: &mut S,
    core: &mut GroupCore,
    has: bool,
    vol: u32,
    log: VolumeLog,
) -> Result<bool, ShelfError>
    requires stands { GroupStands core.old (S.meaning shelf.old) }
    requires there { vol < (inner_meaning (wide core.old) (S.meaning shelf.old)).units }
    ensures stands { GroupStands core.new (S.meaning shelf.new) }
    ensures goes { Goes Nothing (inner_meaning (wide core.old) (S.meaning shelf.old)) (inner_meaning (wide core.new) (S.meaning shelf.new)) }
    ensures loses { LosesAlong core.old.inner.config core.new.inner.config (S.meaning shelf.old) (S.meaning shelf.new) }
    ensures logs { EachOn core.old core.new (S.meaning shelf.old) (S.meaning shelf.new) }
    ensures narrow { Narrowed core.old core.new }
    ensures below { SameUnits (S.meaning shelf.old) (S.meaning shelf.new) }
    ensures still { core.old.held ≡ None → (w p : ℕ) → active core.new.inner.config w p ≡ active core.old.inner.config w p }
    ensures kept { IfOk result (λ done. done ≡ true → log_trusted (wide core.new).config vol log ≡ true → has ≡ true) }
    ensures full { IfOk result (λ done. done ≡ false → greatest ≤ core.old.inner.config.serial + COMMIT_SERIALS) }
    ensures spent { IfOk result (λ done. done ≡ false → greatest ≤ core.new.inner.config.serial + COMMIT_SERIALS) }
    ensures few { OnOk result (core.new.inner.config.serial ≤ core.old.inner.config.serial + 2 * COMMIT_SERIALS) }
    ensures trusts { TrustsBut vol log core.old.inner.config core.new.inner.config }
    ensures stays { has ≡ true → TrustsStill core.old.inner.config core.new.inner.config }
    ensures trust { OnOk result (core.old.inner.committed ≡ true → core.new.inner.committed ≡ true) }
    ensures agreed { IfErr result (λ e. core.old.inner.committed ≡ true → core.new.inner.agreed ≡ true) }
    ensures finds { GroupFinds core.old core.new (S.meaning shelf.old) (S.meaning shelf.new) }
    ensures marks { MarksOn vol core.old.inner.unsure core.new.inner.unsure result }
    ensures misses { FaultMisses core.new.inner result }
    ensures cause { Cause (inner_meaning (wide core.old) (S.meaning shelf.old)) (inner_meaning (wide core.new) (S.meaning shelf.new)) vol result }
{
    if shelf.is_down() {
        return Err(ShelfError::Down);
    }
    if has {
        return Ok(true);
    }
    if !is_trusted(&core.inner.config, vol, log) {
        return Ok(true);
    }
    if core.inner.config.serial >= MOST_NUMBER - COMMIT_SERIALS {
        return Ok(false);
    }
    lose_group(shelf, core, vol, log)
}

/// Commits that the dirty region log of a volume is lost, where it is in memory no more and not held as lost, and answers whether the log may be
/// gone by further: not where a commit is wanted and no serial is left. All volumes read as before, and each log stands.
pub fn keep_log<S: Shelf>(
    shelf: &mut S,
    core: &mut GroupCore,
    logs: &Logs,
    vol: u32,
) -> Result<bool, ShelfError>
    requires stands { GroupStands core.old (S.meaning shelf.old) }
    requires there { vol < (inner_meaning (wide core.old) (S.meaning shelf.old)).units }
    ensures stands { GroupStands core.new (S.meaning shelf.new) }
    ensures goes { Goes Nothing (inner_meaning (wide core.old) (S.meaning shelf.old)) (inner_meaning (wide core.new) (S.meaning shelf.new)) }
    ensures loses { LosesAlong core.old.inner.config core.new.inner.config (S.meaning shelf.old) (S.meaning shelf.new) }
    ensures logs { EachOn core.old core.new (S.meaning shelf.old) (S.meaning shelf.new) }
    ensures narrow { Narrowed core.old core.new }
    ensures below { SameUnits (S.meaning shelf.old) (S.meaning shelf.new) }
    ensures still { core.old.held ≡ None → (w p : ℕ) → active core.new.inner.config w p ≡ active core.old.inner.config w p }
    ensures kept { IfOk result (λ done. done ≡ true → LogKept core.new vol logs.now) }
    ensures full { IfOk result (λ done. done ≡ false → greatest ≤ core.old.inner.config.serial + COMMIT_SERIALS) }
    ensures spent { IfOk result (λ done. done ≡ false → greatest ≤ core.new.inner.config.serial + COMMIT_SERIALS) }
    ensures trusts { TrustsIn vol logs.now core.old.inner.config core.new.inner.config }
    ensures trust { OnOk result (core.old.inner.committed ≡ true → core.new.inner.committed ≡ true) }
    ensures agreed { IfErr result (λ e. core.old.inner.committed ≡ true → core.new.inner.agreed ≡ true) }
    ensures finds { GroupFinds core.old core.new (S.meaning shelf.old) (S.meaning shelf.new) }
    ensures marks { MarksOn vol core.old.inner.unsure core.new.inner.unsure result }
    ensures misses { FaultMisses core.new.inner result }
    ensures cause { Cause (inner_meaning (wide core.old) (S.meaning shelf.old)) (inner_meaning (wide core.new) (S.meaning shelf.new)) vol result }
{
    keep_one(shelf, core, logs.drl.is_some(), vol, VolumeLog::Drl)
}

/// The same of its log of missed regions.
pub fn keep_map<S: Shelf>(
    shelf: &mut S,
    core: &mut GroupCore,
    logs: &Logs,
    vol: u32,
) -> Result<bool, ShelfError>
    requires stands { GroupStands core.old (S.meaning shelf.old) }
    requires there { vol < (inner_meaning (wide core.old) (S.meaning shelf.old)).units }
    ensures stands { GroupStands core.new (S.meaning shelf.new) }
    ensures goes { Goes Nothing (inner_meaning (wide core.old) (S.meaning shelf.old)) (inner_meaning (wide core.new) (S.meaning shelf.new)) }
    ensures loses { LosesAlong core.old.inner.config core.new.inner.config (S.meaning shelf.old) (S.meaning shelf.new) }
    ensures logs { EachOn core.old core.new (S.meaning shelf.old) (S.meaning shelf.new) }
    ensures narrow { Narrowed core.old core.new }
    ensures below { SameUnits (S.meaning shelf.old) (S.meaning shelf.new) }
    ensures still { core.old.held ≡ None → (w p : ℕ) → active core.new.inner.config w p ≡ active core.old.inner.config w p }
    ensures kept { IfOk result (λ done. done ≡ true → MapKept core.new vol logs.now) }
    ensures spent { IfOk result (λ done. done ≡ false → greatest ≤ core.new.inner.config.serial + COMMIT_SERIALS) }
    ensures few { OnOk result (core.new.inner.config.serial ≤ core.old.inner.config.serial + 2 * COMMIT_SERIALS) }
    ensures trusts { TrustsIn vol logs.now core.old.inner.config core.new.inner.config }
    ensures trust { OnOk result (core.old.inner.committed ≡ true → core.new.inner.committed ≡ true) }
    ensures agreed { IfErr result (λ e. core.old.inner.committed ≡ true → core.new.inner.agreed ≡ true) }
    ensures finds { GroupFinds core.old core.new (S.meaning shelf.old) (S.meaning shelf.new) }
    ensures marks { MarksOn vol core.old.inner.unsure core.new.inner.unsure result }
    ensures misses { FaultMisses core.new.inner result }
    ensures cause { Cause (inner_meaning (wide core.old) (S.meaning shelf.old)) (inner_meaning (wide core.new) (S.meaning shelf.new)) vol result }
{
    keep_one(shelf, core, logs.fmr.is_some(), vol, VolumeLog::Fmr)
}

/// The same of both logs; the answer is that of the dirty region log.
pub fn keep_logs<S: Shelf>(
    shelf: &mut S,
    core: &mut GroupCore,
    logs: &Logs,
    vol: u32,
) -> Result<bool, ShelfError>
    requires stands { GroupStands core.old (S.meaning shelf.old) }
    requires there { vol < (inner_meaning (wide core.old) (S.meaning shelf.old)).units }
    ensures stands { GroupStands core.new (S.meaning shelf.new) }
    ensures goes { Goes Nothing (inner_meaning (wide core.old) (S.meaning shelf.old)) (inner_meaning (wide core.new) (S.meaning shelf.new)) }
    ensures loses { LosesAlong core.old.inner.config core.new.inner.config (S.meaning shelf.old) (S.meaning shelf.new) }
    ensures logs { EachOn core.old core.new (S.meaning shelf.old) (S.meaning shelf.new) }
    ensures narrow { Narrowed core.old core.new }
    ensures below { SameUnits (S.meaning shelf.old) (S.meaning shelf.new) }
    ensures still { core.old.held ≡ None → (w p : ℕ) → active core.new.inner.config w p ≡ active core.old.inner.config w p }
    ensures kept { IfOk result (λ done. done ≡ true → LogKept core.new vol logs.now) }
    ensures said { IfOk result (λ done. done ≡ true → MapSaid core.new vol logs.now) }
    ensures full { IfOk result (λ done. done ≡ false → greatest ≤ core.old.inner.config.serial + COMMIT_SERIALS) }
    ensures spent { IfOk result (λ done. done ≡ false → greatest ≤ core.new.inner.config.serial + COMMIT_SERIALS) }
    ensures trusts { TrustsIn vol logs.now core.old.inner.config core.new.inner.config }
    ensures trust { OnOk result (core.old.inner.committed ≡ true → core.new.inner.committed ≡ true) }
    ensures agreed { IfErr result (λ e. core.old.inner.committed ≡ true → core.new.inner.agreed ≡ true) }
    ensures finds { GroupFinds core.old core.new (S.meaning shelf.old) (S.meaning shelf.new) }
    ensures marks { MarksOn vol core.old.inner.unsure core.new.inner.unsure result }
    ensures misses { FaultMisses core.new.inner result }
    ensures cause { Cause (inner_meaning (wide core.old) (S.meaning shelf.old)) (inner_meaning (wide core.new) (S.meaning shelf.new)) vol result }
{
    let done = match keep_log(shelf, core, logs, vol) {
        Ok(done) => done,
        Err(error) => return Err(error),
    };
    if !done {
        return Ok(false);
    }
    match keep_map(shelf, core, logs, vol) {
        Ok(_) => Ok(true),
        Err(error) => Err(error),
    }
}
