// A plex that is detached by one commit, as the one that is held back before the next call.
ghost use Rattle.vx_group.specs.Finds.{CoreFinds, GroupFinds};
ghost use Rattle.std.specs.Prelude.{◌≡◌, ◌⊎◌, ◌+◌, ◌<◌, ◌≤◌, ℕ, false, true, None, OnOk, IfErr, IsOk, IsTrue};
ghost use Rattle.vx_config.specs.Table.{greatest};
ghost use Rattle.vx_copies.specs.Commits.{MoreFailed};
ghost use Rattle.vx_group.specs.Attaches.{HasOther};
ghost use Rattle.vx_group.specs.Blames.{Blames};
ghost use Rattle.vx_group.specs.GivesUp.{KeepsVolumes, NoCommit};
ghost use Rattle.vx_group.specs.Holding.{GroupStands, wide};
ghost use Rattle.vx_group.specs.Moves.{Narrows};
ghost use Rattle.vx_group.specs.Settles.{CoreSettles};
ghost use Rattle.vx_group.specs.Stands.{InnerStands};
ghost use Rattle.vx_kept.specs.Commits.{IsCommitted};
ghost use Rattle.vx_kept.specs.States.{stale_at};
ghost use Rattle.vx_volume.specs.Plexes.{active};
ghost use Rattle.vx_group.specs.Loses.{SameParts, TrustsStill};

use crate::detaching::detach;
use crate::group_core::GroupCore;
use crate::holding::{hold_back, open_held};
use crate::inner::Inner;
use crate::settling::settle_headers;
use vx_disk::{Shelf, ShelfError};
use vx_model::limits::{COMMIT_SERIALS, MOST_NUMBER, MOST_PLEXES};
use vx_volume::{Failed, set_of};

/// Detaches a plex that is ACTIVE beside another one, by one commit.
pub fn detach_plex<S: Shelf>(
    shelf: &mut S,
    core: &mut Inner,
    vol: u32,
    plex: u32,
) -> Result<(), ShelfError>
    requires stands { InnerStands core.old (S.meaning shelf.old) }
    requires is_on { IsTrue (active core.old.config vol plex) }
    requires other { HasOther core.old.config vol plex }
    requires more { core.old.config.serial < greatest }
    requires up { IsTrue (S.meaning shelf.old).down → ⊥ }
    ensures stands { InnerStands core.new (S.meaning shelf.new) }
    ensures narrows { Narrows core.old core.new (S.meaning shelf.old) (S.meaning shelf.new) }
    ensures off { OnOk result (active core.new.config vol plex ≡ false) }
    ensures newest { OnOk result (IsCommitted core.new.config (S.meaning shelf.new)) }
    ensures others { (w p : ℕ) → (w ≡ vol → p ≡ plex → ⊥) → active core.new.config w p ≡ active core.old.config w p }
    ensures kept { (core.new.config.volumes ≡ core.old.config.volumes) ⊎ (core.new.config.volumes ≡ (stale_at vol plex core.old.config).volumes) }
    ensures keeps { KeepsVolumes core.old.config core.new.config result }
    ensures parts { SameParts core.old.config core.new.config }
    ensures failing { MoreFailed (S.meaning shelf.old) (S.meaning shelf.new) core.old.config.disks core.new.config.disks }
    ensures few { OnOk result (core.new.config.serial ≤ core.old.config.serial + COMMIT_SERIALS) }
    ensures missed { IfErr result (λ e. NoCommit core.new (S.meaning shelf.new)) }
    ensures trust { OnOk result (core.old.committed ≡ true → core.new.committed ≡ true) }
    ensures agreed { IfErr result (λ e. core.old.committed ≡ true → core.new.agreed ≡ true) }
    ensures finds { CoreFinds core.old core.new (S.meaning shelf.old) (S.meaning shelf.new) }
    ensures settles { CoreSettles core.old core.new (S.meaning shelf.old) (S.meaning shelf.new) }
    ensures logs { TrustsStill core.old.config core.new.config }
    ensures cause { Blames (S.meaning shelf.old) (S.meaning shelf.new) result }
{
    match settle_headers(shelf, core) {
        Ok(()) => {}
        Err(error) => return Err(error),
    }
    // Read for their bound.
    let _disks = core.config.disks.as_slice();
    let mut flags = [false; MOST_PLEXES];
    flags[plex as usize] = true;
    let set = set_of(&flags);
    detach(shelf, core, vol, Failed { set, disk: 0 })
}

/// Detaches the plex that is held back, by a commit. Where none is held back, or no serial is left, it does nothing.
pub fn release<S: Shelf>(shelf: &mut S, core: &mut GroupCore) -> Result<(), ShelfError>
    requires stands { GroupStands core.old (S.meaning shelf.old) }
    requires up { IsTrue (S.meaning shelf.old).down → ⊥ }
    ensures stands { GroupStands core.new (S.meaning shelf.new) }
    ensures narrows { Narrows (wide core.old) (wide core.new) (S.meaning shelf.old) (S.meaning shelf.new) }
    ensures volumes { core.new.inner.config.volumes ≡ core.old.inner.config.volumes }
    ensures parts { SameParts core.old.inner.config core.new.inner.config }
    ensures failing { MoreFailed (S.meaning shelf.old) (S.meaning shelf.new) core.old.inner.config.disks core.new.inner.config.disks }
    ensures few { OnOk result (core.new.inner.config.serial ≤ core.old.inner.config.serial + COMMIT_SERIALS) }
    ensures done { core.old.inner.config.serial < greatest → OnOk result (core.new.held ≡ None) }
    ensures none { core.old.held ≡ None → (core.new ≡ core.old) × (shelf.new ≡ shelf.old) }
    ensures idle { core.old.held ≡ None → IsOk result }
    ensures missed { IfErr result (λ e. NoCommit core.new.inner (S.meaning shelf.new)) }
    ensures trust { OnOk result (core.old.inner.committed ≡ true → core.new.inner.committed ≡ true) }
    ensures agreed { IfErr result (λ e. core.old.inner.committed ≡ true → core.new.inner.agreed ≡ true) }
    ensures finds { GroupFinds core.old core.new (S.meaning shelf.old) (S.meaning shelf.new) }
    ensures full { greatest ≤ core.old.inner.config.serial → (core.new ≡ core.old) × (shelf.new ≡ shelf.old) }
    ensures logs { TrustsStill core.old.inner.config core.new.inner.config }
    ensures cause { Blames (S.meaning shelf.old) (S.meaning shelf.new) result }
{
    if core.inner.config.serial >= MOST_NUMBER {
        return Ok(());
    }
    match open_held(core) {
        Some(held) => {
            let result = detach_plex(shelf, &mut core.inner, held.vol, held.plex);
            hold_back(core, held.vol, held.plex);
            result
        }
        None => Ok(()),
    }
}
