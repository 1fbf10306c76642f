// A log of a volume that a group loses, in a call on that volume.
ghost use Rattle.vx_group.specs.Finds.{CoreFinds, GroupFinds};
ghost use Rattle.std.specs.Prelude.{◌≡◌, ◌*◌, ◌+◌, ◌<◌, ◌≤◌, ℕ, false, true, IfErr, IfOk, None, OnOk};
ghost use Rattle.vx_config.specs.Table.{greatest};
ghost use Rattle.vx_disk.specs.Causes.{Cause};
ghost use Rattle.vx_disk.specs.Shelf.{Goes, Nothing};
ghost use Rattle.vx_group.specs.Blames.{MarksOn};
ghost use Rattle.vx_group.specs.GivesUp.{FaultMisses};
ghost use Rattle.vx_group.specs.Holding.{GroupStands, wide};
ghost use Rattle.vx_group.specs.Loses.{LosesPlexes, TrustsBut};
ghost use Rattle.vx_group.specs.Stands.{InnerStands, inner_meaning};
ghost use Rattle.vx_kept.specs.LogRuns.{log_trusted};
ghost use Rattle.vx_kept.specs.PlexActs.{PlexActs};
ghost use Rattle.vx_layout.specs.Places.{plex_at};
ghost use Rattle.vx_volume.specs.Plexes.{active};
ghost use Rattle.vx_group.specs.Settles.{CoreSettles};

use crate::counting::give_up;
use crate::group_core::GroupCore;
use crate::holding::{close_held, open_held};
use crate::inner::Inner;
use crate::losing::lose_log;
use crate::releasing::release;
use vx_config::VolumeLog;
use vx_disk::{Shelf, ShelfError};
use vx_model::limits::{COMMIT_SERIALS, MOST_NUMBER};

// Commits that a log of a volume is lost, while a serial is left, and answers whether one was.
fn lose_in<S: Shelf>(
    shelf: &mut S,
    core: &mut Inner,
    vol: u32,
    log: VolumeLog,
) -> Result<bool, ShelfError>
    requires stands { InnerStands core.old (S.meaning shelf.old) }
    requires there { vol < (inner_meaning core.old (S.meaning shelf.old)).units }
    ensures stands { InnerStands core.new (S.meaning shelf.new) }
    ensures goes { Goes Nothing (inner_meaning core.old (S.meaning shelf.old)) (inner_meaning core.new (S.meaning shelf.new)) }
    ensures acts { PlexActs Nothing core.old.config core.new.config (S.meaning shelf.old) (S.meaning shelf.new) }
    ensures loses { LosesPlexes core.old.config core.new.config (S.meaning shelf.old) (S.meaning shelf.new) }
    ensures plexes { (w p : ℕ) → plex_at core.new.config w p ≡ plex_at core.old.config w p }
    ensures lost { IfOk result (λ done. done ≡ true → log_trusted core.new.config vol log ≡ false) }
    ensures full { IfOk result (λ done. done ≡ false → greatest ≤ core.old.config.serial) }
    ensures few { OnOk result (core.new.config.serial ≤ core.old.config.serial + COMMIT_SERIALS) }
    ensures trust { OnOk result (core.old.committed ≡ true → core.new.committed ≡ true) }
    ensures agreed { IfErr result (λ e. core.old.committed ≡ true → core.new.agreed ≡ true) }
    ensures finds { CoreFinds core.old core.new (S.meaning shelf.old) (S.meaning shelf.new) }
    ensures settles { CoreSettles core.old core.new (S.meaning shelf.old) (S.meaning shelf.new) }
    ensures logs { TrustsBut vol log core.old.config core.new.config }
    ensures marks { MarksOn vol core.old.unsure core.new.unsure result }
    ensures misses { FaultMisses core.new result }
    ensures cause { Cause (inner_meaning core.old (S.meaning shelf.old)) (inner_meaning core.new (S.meaning shelf.new)) vol result }
{
    if shelf.is_down() {
        return Err(ShelfError::Down);
    }
    if core.config.serial >= MOST_NUMBER {
        return Ok(false);
    }
    match lose_log(shelf, core, vol, log) {
        Ok(()) => Ok(true),
        Err(error) => {
            give_up(&mut core.faults, &mut core.unsure, vol, error);
            Err(error)
        }
    }
}

/// Commits that a log of a volume is lost, in a call on this volume, and answers whether that is done: where no serial is left it is not, and
/// nothing has changed. A plex that is held back is detached first. All volumes read as before.
///
/// A fault is one of the volume, and comes only where a commit was refused.
pub fn lose_group<S: Shelf>(
    shelf: &mut S,
    core: &mut GroupCore,
    vol: u32,
    log: VolumeLog,
) -> Result<bool, ShelfError>
    requires stands { GroupStands core.old (S.meaning shelf.old) }
    requires there { vol < (inner_meaning (wide core.old) (S.meaning shelf.old)).units }
    ensures stands { GroupStands core.new (S.meaning shelf.new) }
    ensures goes { Goes Nothing (inner_meaning (wide core.old) (S.meaning shelf.old)) (inner_meaning (wide core.new) (S.meaning shelf.new)) }
    ensures acts { PlexActs Nothing (wide core.old).config (wide core.new).config (S.meaning shelf.old) (S.meaning shelf.new) }
    ensures loses { LosesPlexes core.old.inner.config core.new.inner.config (S.meaning shelf.old) (S.meaning shelf.new) }
    ensures still { core.old.held ≡ None → (w p : ℕ) → active core.new.inner.config w p ≡ active core.old.inner.config w p }
    ensures lost { IfOk result (λ done. done ≡ true → log_trusted (wide core.new).config vol log ≡ false) }
    ensures full { IfOk result (λ done. done ≡ false → greatest ≤ core.old.inner.config.serial + COMMIT_SERIALS) }
    ensures few { OnOk result (core.new.inner.config.serial ≤ core.old.inner.config.serial + 2 * COMMIT_SERIALS) }
    ensures trust { OnOk result (core.old.inner.committed ≡ true → core.new.inner.committed ≡ true) }
    ensures agreed { IfErr result (λ e. core.old.inner.committed ≡ true → core.new.inner.agreed ≡ true) }
    ensures finds { GroupFinds core.old core.new (S.meaning shelf.old) (S.meaning shelf.new) }
    ensures logs { TrustsBut vol log core.old.inner.config core.new.inner.config }
    ensures marks { MarksOn vol core.old.inner.unsure core.new.inner.unsure result }
    ensures misses { FaultMisses core.new.inner result }
    ensures cause { Cause (inner_meaning (wide core.old) (S.meaning shelf.old)) (inner_meaning (wide core.new) (S.meaning shelf.new)) vol result }
{
    if shelf.is_down() {
        return Err(ShelfError::Down);
    }
    match release(shelf, core) {
        Ok(()) => {}
        Err(error) => {
            give_up(&mut core.inner.faults, &mut core.inner.unsure, vol, error);
            return Err(error);
        }
    }
    let held = open_held(core);
    let result = lose_in(shelf, &mut core.inner, vol, log);
    close_held(core, held);
    result
}
