// A log that is trusted in a call on its volume, by a commit.
ghost use Rattle.vx_group.specs.Blames.{MarksOn};
ghost use Rattle.vx_group.specs.GivesUp.{FaultMisses};
ghost use Rattle.vx_group.specs.Finds.{GroupFinds};
ghost use Rattle.std.specs.Prelude.{◌≡◌, ◌+◌, ◌<◌, ◌≤◌, ℕ, false, true, IfErr, None, OnOk};
ghost use Rattle.vx_config.specs.Changes.{lost as lost_is};
ghost use Rattle.vx_disk.specs.Causes.{Cause};
ghost use Rattle.vx_disk.specs.Shelf.{Goes, Nothing};
ghost use Rattle.vx_group.specs.Holding.{GroupStands, wide};
ghost use Rattle.vx_group.specs.Loses.{LosesAlong, TrustsStill};
ghost use Rattle.vx_group.specs.Stands.{inner_meaning};
ghost use Rattle.vx_kept.specs.PlexActs.{PlexActs};
ghost use Rattle.vx_volume.specs.Plexes.{active};

use vx_config::VolumeLog;
use vx_disk::{Shelf, ShelfError};
use vx_group::{GroupCore, give_up, trust_group};
use vx_model::limits::COMMIT_SERIALS;

/// Commits that a log of a volume is trusted, in a call on this volume: where the commit is refused, so is the call. Where no serial is left nothing
/// has changed. Memory trusts the log whatever a commit answers, since a disk may: the caller sees that it has each region in which plexes differ.
pub fn trust_first<S: Shelf>(
    shelf: &mut S,
    core: &mut GroupCore,
    vol: u32,
    log: VolumeLog,
) -> Result<(), ShelfError>
    requires stands { GroupStands core.old (S.meaning shelf.old) }
    requires none { core.old.held ≡ None }
    requires there { vol < (inner_meaning (wide core.old) (S.meaning shelf.old)).units }
    ensures stands { GroupStands core.new (S.meaning shelf.new) }
    ensures none { core.new.held ≡ None }
    ensures goes { Goes Nothing (inner_meaning (wide core.old) (S.meaning shelf.old)) (inner_meaning (wide core.new) (S.meaning shelf.new)) }
    ensures acts { PlexActs Nothing (lost_is vol log false (wide core.old).config) (wide core.new).config (S.meaning shelf.old) (S.meaning shelf.new) }
    ensures loses { LosesAlong core.old.inner.config core.new.inner.config (S.meaning shelf.old) (S.meaning shelf.new) }
    ensures still { (w p : ℕ) → active core.new.inner.config w p ≡ active core.old.inner.config w p }
    ensures few { OnOk result (core.new.inner.config.serial ≤ core.old.inner.config.serial + COMMIT_SERIALS) }
    ensures trusts { TrustsStill core.old.inner.config core.new.inner.config }
    ensures trust { OnOk result (core.old.inner.committed ≡ true → core.new.inner.committed ≡ true) }
    ensures agreed { IfErr result (λ e. core.old.inner.committed ≡ true → core.new.inner.agreed ≡ true) }
    ensures finds { GroupFinds core.old core.new (S.meaning shelf.old) (S.meaning shelf.new) }
    ensures unsure { MarksOn vol core.old.inner.unsure core.new.inner.unsure result }
    ensures misses { FaultMisses core.new.inner result }
    ensures cause { Cause (inner_meaning (wide core.old) (S.meaning shelf.old)) (inner_meaning (wide core.new) (S.meaning shelf.new)) vol result }
{
    if shelf.is_down() {
        return Err(ShelfError::Down);
    }
    match trust_group(shelf, core, vol, log) {
        Ok(_) => Ok(()),
        Err(error) => {
            give_up(&mut core.inner.faults, &mut core.inner.unsure, vol, error);
            Err(error)
        }
    }
}
