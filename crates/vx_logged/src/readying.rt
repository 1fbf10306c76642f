// A group that is made ready for work on its logs.
ghost use Rattle.vx_group.specs.Finds.{GroupFinds};
ghost use Rattle.std.specs.Prelude.{◌≡◌, ◌+◌, ◌<◌, ◌≤◌, ℕ, false, true, IfErr, IfOk, IsTrue, None, OnOk};
ghost use Rattle.vx_config.specs.Table.{greatest};
ghost use Rattle.vx_disk.specs.Causes.{Cause};
ghost use Rattle.vx_disk.specs.Shelf.{Goes, Nothing};
ghost use Rattle.vx_group.specs.Creates.{SameUnits};
ghost use Rattle.vx_group.specs.Blames.{MarksOn};
ghost use Rattle.vx_group.specs.GivesUp.{FaultMisses};
ghost use Rattle.vx_group.specs.Holding.{GroupStands, wide};
ghost use Rattle.vx_group.specs.Loses.{LosesAlong, TrustsStill};
ghost use Rattle.vx_group.specs.Stands.{inner_meaning};
ghost use Rattle.vx_logged.specs.Logged.{EachOn, Narrowed};
ghost use Rattle.vx_volume.specs.Plexes.{active};

use vx_disk::{Shelf, ShelfError};
use vx_group::{GroupCore, give_up, release};
use vx_model::limits::COMMIT_SERIALS;

/// Detaches the plex that is held back, in a call on a volume, and answers whether none is held back then: so it is while a serial is left. Where
/// none is held back it is refused only where the shelf is down.
pub fn ready_group<S: Shelf>(
    shelf: &mut S,
    core: &mut GroupCore,
    vol: u32,
) -> Result<bool, ShelfError>
    requires stands { GroupStands core.old (S.meaning shelf.old) }
    requires there { vol < (inner_meaning (wide core.old) (S.meaning shelf.old)).units }
    ensures stands { GroupStands core.new (S.meaning shelf.new) }
    ensures goes { Goes Nothing (inner_meaning (wide core.old) (S.meaning shelf.old)) (inner_meaning (wide core.new) (S.meaning shelf.new)) }
    ensures loses { LosesAlong core.old.inner.config core.new.inner.config (S.meaning shelf.old) (S.meaning shelf.new) }
    ensures logs { EachOn core.old core.new (S.meaning shelf.old) (S.meaning shelf.new) }
    ensures narrow { Narrowed core.old core.new }
    ensures still { (w p : ℕ) → active core.new.inner.config w p ≡ active core.old.inner.config w p }
    ensures below { SameUnits (S.meaning shelf.old) (S.meaning shelf.new) }
    ensures none { IfOk result (λ done. done ≡ true → core.new.held ≡ None) }
    ensures quiet { core.old.held ≡ None → IfErr result (λ e. IsTrue (S.meaning shelf.new).down) }
    ensures few { OnOk result (core.new.inner.config.serial ≤ core.old.inner.config.serial + COMMIT_SERIALS) }
    ensures full { IfOk result (λ done. done ≡ false → greatest ≤ core.old.inner.config.serial) }
    ensures spent { IfOk result (λ done. done ≡ false → greatest ≤ core.new.inner.config.serial) }
    ensures trusts { TrustsStill core.old.inner.config core.new.inner.config }
    ensures trust { OnOk result (core.old.inner.committed ≡ true → core.new.inner.committed ≡ true) }
    ensures agreed { IfErr result (λ e. core.old.inner.committed ≡ true → core.new.inner.agreed ≡ true) }
    ensures finds { GroupFinds core.old core.new (S.meaning shelf.old) (S.meaning shelf.new) }
    ensures marks { MarksOn vol core.old.inner.unsure core.new.inner.unsure result }
    ensures misses { FaultMisses core.new.inner result }
    ensures cause { Cause (inner_meaning (wide core.old) (S.meaning shelf.old)) (inner_meaning (wide core.new) (S.meaning shelf.new)) vol result }
{
    if shelf.is_down() {
        return Err(ShelfError::Down);
    }
    match release(shelf, core) {
        Ok(()) => Ok(core.held.is_none()),
        Err(error) => {
            give_up(&mut core.inner.faults, &mut core.inner.unsure, vol, error);
            Err(error)
        }
    }
}
