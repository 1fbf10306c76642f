// A log that is lost behind the attach of a plex: where this cannot be committed the plex is held back.
ghost use Rattle.std.specs.Prelude.{◌≡◌, ◌<◌, ℕ, false, true, IsTrue, None, OnOk, Option};
ghost use Rattle.vx_config.specs.Table.{greatest};
ghost use Rattle.vx_copies.specs.Commits.{MoreFailed};
ghost use Rattle.vx_disk.specs.Shelf.{Nothing};
ghost use Rattle.vx_fmr.specs.Missed.{Missed};
ghost use Rattle.vx_group.specs.Attaches.{AnyImage, Attaches, GroupAttachEnds, HasOther};
ghost use Rattle.vx_group.specs.Blames.{Blames};
ghost use Rattle.vx_group.specs.Calls.{GroupAttaches};
ghost use Rattle.vx_group.specs.Dets.{DetStops};
ghost use Rattle.vx_group.specs.Finds.{CoreFinds};
ghost use Rattle.vx_group.specs.Holding.{GroupStands, wide};
ghost use Rattle.vx_group.specs.Loses.{TrustsBut};
ghost use Rattle.vx_group.specs.Stands.{InnerStands};
ghost use Rattle.vx_kept.specs.Commits.{IsCommitted};
ghost use Rattle.vx_kept.specs.Keeping.{Acts};
ghost use Rattle.vx_kept.specs.LogRuns.{log_trusted};
ghost use Rattle.vx_volume.specs.Plexes.{active};
ghost use Rattle.vx_group.specs.Settles.{CoreSettles};

use crate::group_core::GroupCore;
use crate::holding::hold_back;
use crate::inner::Inner;
use crate::losing::lose_log;
use vx_config::VolumeLog;
use vx_disk::{Shelf, ShelfError, refusal};
use vx_model::Stop;

// The commit, where the shelf may be down.
fn lose_up<S: Shelf>(
    shelf: &mut S,
    core: &mut Inner,
    vol: u32,
    log: VolumeLog,
) -> Result<(), ShelfError>
    requires stands { InnerStands core.old (S.meaning shelf.old) }
    requires more { core.old.config.serial < greatest }
    ensures stands { InnerStands core.new (S.meaning shelf.new) }
    ensures attaches { (v p : ℕ) (map : Option Missed) → Attaches v p map core.old core.new (S.meaning shelf.old) (S.meaning shelf.new) }
    ensures idle { Acts Nothing AnyImage (S.meaning shelf.old) (S.meaning shelf.new) }
    ensures same { (w q : ℕ) → active core.new.config w q ≡ active core.old.config w q }
    ensures lost { OnOk result (log_trusted core.new.config vol log ≡ false) }
    ensures committed { OnOk result (IsCommitted core.new.config (S.meaning shelf.new)) }
    ensures failing { MoreFailed (S.meaning shelf.old) (S.meaning shelf.new) core.old.config.disks core.new.config.disks }
    ensures trust { OnOk result (core.old.committed ≡ true → core.new.committed ≡ true) }
    ensures finds { CoreFinds core.old core.new (S.meaning shelf.old) (S.meaning shelf.new) }
    ensures settles { CoreSettles core.old core.new (S.meaning shelf.old) (S.meaning shelf.new) }
    ensures logs { TrustsBut vol log core.old.config core.new.config }
    ensures cause { Blames (S.meaning shelf.old) (S.meaning shelf.new) result }
{
    if shelf.is_down() {
        return Err(ShelfError::Down);
    }
    lose_log(shelf, core, vol, log)
}

/// Commits that a log of a volume is lost, behind the commit that made a plex of this volume ACTIVE. Where it is refused the plex is held
/// back: it is then not ACTIVE in memory. No other plex changes its state, and all volumes read as before.
///
/// Answers 7 only where the count of the disk that it names rose, and 6 only where the shelf is then down. It takes no memory.
pub fn lose_attached<S: Shelf>(
    shelf: &mut S,
    core: &mut GroupCore,
    vol: u32,
    plex: u32,
    log: VolumeLog,
) -> Result<(), Stop>
    requires stands { GroupStands core.old (S.meaning shelf.old) }
    requires alone { core.old.held ≡ None }
    requires is_on { IsTrue (active core.old.inner.config vol plex) }
    requires other { HasOther core.old.inner.config vol plex }
    requires more { core.old.inner.config.serial < greatest }
    ensures stands { GroupStands core.new (S.meaning shelf.new) }
    ensures attaches { (map : Option Missed) → GroupAttaches vol plex map core.old core.new (S.meaning shelf.old) (S.meaning shelf.new) }
    ensures idle { Acts Nothing AnyImage (S.meaning shelf.old) (S.meaning shelf.new) }
    ensures ends { GroupAttachEnds vol plex core.new.inner.config (S.meaning shelf.new) result }
    ensures lost { OnOk result (log_trusted core.new.inner.config vol log ≡ false) }
    ensures failing { MoreFailed (S.meaning shelf.old) (S.meaning shelf.new) core.old.inner.config.disks core.new.inner.config.disks }
    ensures trust { OnOk result (core.old.inner.committed ≡ true → core.new.inner.committed ≡ true) }
    ensures finds { CoreFinds (wide core.old) (wide core.new) (S.meaning shelf.old) (S.meaning shelf.new) }
    ensures settles { CoreSettles (wide core.old) (wide core.new) (S.meaning shelf.old) (S.meaning shelf.new) }
    ensures free { OnOk result (core.new.held ≡ None) }
    ensures logs { TrustsBut vol log core.old.inner.config core.new.inner.config }
    ensures cause { DetStops (S.meaning shelf.old) (S.meaning shelf.new) result }
{
    match lose_up(shelf, &mut core.inner, vol, log) {
        Ok(()) => Ok(()),
        Err(error) => {
            hold_back(core, vol, plex);
            Err(Stop::No(refusal(error)))
        }
    }
}
