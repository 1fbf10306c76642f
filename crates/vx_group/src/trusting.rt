// A log of a volume that was lost, and is trusted again by one commit.
ghost use Rattle.vx_group.specs.Finds.{CoreFinds, GroupFinds};
ghost use Rattle.std.specs.Prelude.{◌≡◌, ◌+◌, ◌<◌, ◌≤◌, ℕ, false, true, IfErr, IfOk, IsTrue, None, OnOk};
ghost use Rattle.vx_config.specs.Changes.{lost as lost_is};
ghost use Rattle.vx_config.specs.Checks.{is_sound};
ghost use Rattle.vx_config.specs.Configs.{CanSpell};
ghost use Rattle.vx_config.specs.Table.{greatest};
ghost use Rattle.vx_disk.specs.Shelf.{Goes, Nothing};
ghost use Rattle.vx_group.specs.Blames.{Blames};
ghost use Rattle.vx_group.specs.Holding.{GroupStands, wide};
ghost use Rattle.vx_group.specs.GivesUp.{FaultMisses, NoCommit};
ghost use Rattle.vx_group.specs.Loses.{LosesPlexes, TrustsStill};
ghost use Rattle.vx_group.specs.Settles.{CoreSettles};
ghost use Rattle.vx_group.specs.Stands.{InnerStands, inner_meaning};
ghost use Rattle.vx_kept.specs.Commits.{IsCommitted};
ghost use Rattle.vx_kept.specs.PlexActs.{PlexActs};
ghost use Rattle.vx_layout.specs.Places.{plex_at};
ghost use Rattle.vx_volume.specs.Plexes.{active};

use crate::detaching::detach;
use crate::group_core::GroupCore;
use crate::inner::Inner;
use crate::settling::settle_headers;
use vx_config::{Config, VolumeLog};
use vx_disk::{Shelf, ShelfError};
use vx_model::limits::{COMMIT_SERIALS, MOST_NUMBER};
use vx_volume::Failed;

// Says of a log of a volume that it is not lost. It takes no memory.
fn trust(config: &mut Config, vol: u32, log: VolumeLog)
    ensures changed { config.new ≡ lost_is vol log false config.old }
    ensures can { CanSpell config.old → CanSpell config.new }
    ensures sound { is_sound config.new ≡ is_sound config.old }
{
    config.set_lost(vol as usize, log, false);
}

// Trusts a log of a volume in memory, and commits that.
fn trust_log<S: Shelf>(
    shelf: &mut S,
    core: &mut Inner,
    vol: u32,
    log: VolumeLog,
) -> Result<(), ShelfError>
    requires stands { InnerStands core.old (S.meaning shelf.old) }
    requires up { IsTrue (S.meaning shelf.old).down → ⊥ }
    requires more { core.old.config.serial < greatest }
    ensures stands { InnerStands core.new (S.meaning shelf.new) }
    ensures goes { Goes Nothing (inner_meaning core.old (S.meaning shelf.old)) (inner_meaning core.new (S.meaning shelf.new)) }
    ensures acts { PlexActs Nothing (lost_is vol log false core.old.config) core.new.config (S.meaning shelf.old) (S.meaning shelf.new) }
    ensures loses { LosesPlexes core.old.config core.new.config (S.meaning shelf.old) (S.meaning shelf.new) }
    ensures plexes { (w p : ℕ) → plex_at core.new.config w p ≡ plex_at core.old.config w p }
    ensures few { OnOk result (core.new.config.serial ≤ core.old.config.serial + COMMIT_SERIALS) }
    ensures faults { core.new.faults ≡ core.old.faults }
    ensures unsure { core.new.unsure ≡ core.old.unsure }
    ensures volumes { OnOk result (core.new.config.volumes ≡ (lost_is vol log false core.old.config).volumes) }
    ensures trust { OnOk result (core.old.committed ≡ true → core.new.committed ≡ true) }
    ensures agreed { IfErr result (λ e. core.old.committed ≡ true → core.new.agreed ≡ true) }
    ensures committed { OnOk result (IsCommitted core.new.config (S.meaning shelf.new)) }
    ensures finds { CoreFinds core.old core.new (S.meaning shelf.old) (S.meaning shelf.new) }
    ensures settles { CoreSettles core.old core.new (S.meaning shelf.old) (S.meaning shelf.new) }
    ensures logs { TrustsStill core.old.config core.new.config }
    ensures missed { IfErr result (λ e. NoCommit core.new (S.meaning shelf.new)) }
    ensures cause { Blames (S.meaning shelf.old) (S.meaning shelf.new) result }
{
    match settle_headers(shelf, core) {
        Ok(()) => {}
        Err(error) => return Err(error),
    }
    // Read for their bound.
    let _disks = core.config.disks.as_slice();
    trust(&mut core.config, vol, log);
    detach(shelf, core, 0, Failed { set: 0, disk: 0 })
}

/// Commits that a log of a volume is trusted, and answers whether that is done: where no serial is left it is not, and nothing has changed.
/// No plex is held back. All volumes read as before. Where the commit is refused memory trusts the log all the same, since a disk may: the
/// caller sees that it has each region in which plexes differ, whatever is answered.
///
/// A fault comes only where the count of the disk that it names rose, and `Down` only where the shelf is then down. It takes no memory.
pub fn trust_group<S: Shelf>(
    shelf: &mut S,
    core: &mut GroupCore,
    vol: u32,
    log: VolumeLog,
) -> Result<bool, ShelfError>
    requires stands { GroupStands core.old (S.meaning shelf.old) }
    requires none { core.old.held ≡ None }
    ensures stands { GroupStands core.new (S.meaning shelf.new) }
    ensures none { core.new.held ≡ None }
    ensures goes { Goes Nothing (inner_meaning (wide core.old) (S.meaning shelf.old)) (inner_meaning (wide core.new) (S.meaning shelf.new)) }
    ensures acts { PlexActs Nothing (lost_is vol log false (wide core.old).config) (wide core.new).config (S.meaning shelf.old) (S.meaning shelf.new) }
    ensures loses { LosesPlexes core.old.inner.config core.new.inner.config (S.meaning shelf.old) (S.meaning shelf.new) }
    ensures still { (w p : ℕ) → active core.new.inner.config w p ≡ active core.old.inner.config w p }
    ensures few { OnOk result (core.new.inner.config.serial ≤ core.old.inner.config.serial + COMMIT_SERIALS) }
    ensures faults { core.new.inner.faults ≡ core.old.inner.faults }
    ensures unsure { core.new.inner.unsure ≡ core.old.inner.unsure }
    ensures volumes { IfOk result (λ done. done ≡ true → core.new.inner.config.volumes ≡ (lost_is vol log false core.old.inner.config).volumes) }
    ensures committed { IfOk result (λ done. done ≡ true → IsCommitted core.new.inner.config (S.meaning shelf.new)) }
    ensures full { IfOk result (λ done. done ≡ false → greatest ≤ core.old.inner.config.serial) }
    ensures trust { OnOk result (core.old.inner.committed ≡ true → core.new.inner.committed ≡ true) }
    ensures agreed { IfErr result (λ e. core.old.inner.committed ≡ true → core.new.inner.agreed ≡ true) }
    ensures finds { GroupFinds core.old core.new (S.meaning shelf.old) (S.meaning shelf.new) }
    ensures logs { TrustsStill core.old.inner.config core.new.inner.config }
    ensures misses { FaultMisses core.new.inner result }
    ensures cause { Blames (S.meaning shelf.old) (S.meaning shelf.new) result }
{
    if shelf.is_down() {
        return Err(ShelfError::Down);
    }
    if core.inner.config.serial >= MOST_NUMBER {
        return Ok(false);
    }
    match trust_log(shelf, &mut core.inner, vol, log) {
        Ok(()) => Ok(true),
        Err(error) => Err(error),
    }
}
