// A plex of a group with logs that is detached.
ghost use Rattle.vx_group.specs.Finds.{GroupFinds};
ghost use Rattle.std.specs.Prelude.{◌≡◌, ◌⊎◌, ◌<◌, ℕ, false, IfErr, IsTrue, None, OnOk, true};
ghost use Rattle.vx_config.specs.Table.{greatest};
ghost use Rattle.vx_copies.specs.Commits.{MoreFailed};
ghost use Rattle.vx_disk.specs.Shelf.{Goes, Nothing};
ghost use Rattle.vx_group.specs.Calls.{GroupNarrows};
ghost use Rattle.vx_group.specs.Creates.{SameUnits};
ghost use Rattle.vx_group.specs.Attaches.{HasOther};
ghost use Rattle.vx_group.specs.Dets.{DetStops};
ghost use Rattle.vx_group.specs.Holding.{GroupStands, wide};
ghost use Rattle.vx_group.specs.Loses.{SameParts, TrustsStill};
ghost use Rattle.vx_group.specs.Stands.{inner_meaning};
ghost use Rattle.vx_logged.specs.Logged.{EachOn, Narrowed};
ghost use Rattle.vx_volume.specs.Plexes.{active};

use vx_disk::Shelf;
use vx_group::{GroupCore, det_alone};
use vx_model::Stop;

/// Detaches a plex that is ACTIVE beside another one, where none is held back and a serial is left. Each log stands where it stood, whatever is
/// answered. Where it is refused and the shelf is not down, each plex is in the state in which it was.
pub fn det_beside<S: Shelf>(
    shelf: &mut S,
    core: &mut GroupCore,
    vol: u32,
    plex: u32,
) -> Result<(), Stop>
    requires stands { GroupStands core.old (S.meaning shelf.old) }
    requires none { core.old.held ≡ None }
    requires is_on { IsTrue (active core.old.inner.config vol plex) }
    requires other { HasOther core.old.inner.config vol plex }
    requires more { core.old.inner.config.serial < greatest }
    ensures stands { GroupStands core.new (S.meaning shelf.new) }
    ensures goes { Goes Nothing (inner_meaning (wide core.old) (S.meaning shelf.old)) (inner_meaning (wide core.new) (S.meaning shelf.new)) }
    ensures narrows { GroupNarrows core.old core.new (S.meaning shelf.old) (S.meaning shelf.new) }
    ensures narrow { Narrowed core.old core.new }
    ensures below { SameUnits (S.meaning shelf.old) (S.meaning shelf.new) }
    ensures parts { SameParts core.old.inner.config core.new.inner.config }
    ensures disks { MoreFailed (S.meaning shelf.old) (S.meaning shelf.new) core.old.inner.config.disks core.new.inner.config.disks }
    ensures logs { EachOn core.old core.new (S.meaning shelf.old) (S.meaning shelf.new) }
    ensures off { OnOk result (active core.new.inner.config vol plex ≡ false) }
    ensures free { core.new.held ≡ None }
    ensures others { (w p : ℕ) → (w ≡ vol → p ≡ plex → ⊥) → active core.new.inner.config w p ≡ active core.old.inner.config w p }
    ensures stays { IfErr result (λ stop. IsTrue (S.meaning shelf.new).down ⊎ (core.new.inner.config.volumes ≡ core.old.inner.config.volumes)) }
    ensures trusts { TrustsStill core.old.inner.config core.new.inner.config }
    ensures trust { OnOk result (core.old.inner.committed ≡ true → core.new.inner.committed ≡ true) }
    ensures agreed { IfErr result (λ e. core.old.inner.committed ≡ true → core.new.inner.agreed ≡ true) }
    ensures finds { GroupFinds core.old core.new (S.meaning shelf.old) (S.meaning shelf.new) }
    ensures cause { DetStops (S.meaning shelf.old) (S.meaning shelf.new) result }
{
    det_alone(shelf, core, vol, plex)
}
