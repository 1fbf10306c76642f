// A log that is lost, by one commit.
ghost use Rattle.vx_group.specs.Finds.{CoreEnds, CoreFinds};
ghost use Rattle.std.specs.Prelude.{◌≡◌, ◌<◌, ℕ, false, true, IfErr, IsTrue, OnOk, ◌+◌, ◌≤◌, length};
ghost use Rattle.vx_config.specs.Table.{greatest};
ghost use Rattle.vx_config.specs.declared.entry.VolumeLog.{VolumeLog as VolumeLogValue};
ghost use Rattle.vx_copies.specs.Commits.{MoreFailed};
ghost use Rattle.vx_group.specs.Blames.{Blames};
ghost use Rattle.vx_group.specs.GivesUp.{KeepsVolumes, NoCommit};
ghost use Rattle.vx_group.specs.Loses.{SameParts, TrustsBut};
ghost use Rattle.vx_group.specs.Moves.{Narrows};
ghost use Rattle.vx_group.specs.Settles.{CoreSettles, EndsSettled};
ghost use Rattle.vx_group.specs.Stands.{InnerStands};
ghost use Rattle.vx_kept.specs.Commits.{IsCommitted};
ghost use Rattle.vx_kept.specs.LogRuns.{log_trusted};
ghost use Rattle.vx_layout.specs.Places.{plex_at};
ghost use Rattle.vx_maplog.specs.Logs.{log_of};

use crate::detaching::fault_of;
use crate::inner::Inner;
use crate::marking::is_committed;
use crate::settling::settle_headers;
use vx_config::VolumeLog;
use vx_copies::good_of;
use vx_disk::{Shelf, ShelfError};
use vx_kept::commit_lost;
use vx_model::limits::COMMIT_SERIALS;

// The commit, of a group of which none was refused.
fn lose_settled<S: Shelf>(
    shelf: &mut S,
    core: &mut Inner,
    vol: u32,
    log: VolumeLog,
) -> Result<(), ShelfError>
    requires stands { InnerStands core.old (S.meaning shelf.old) }
    requires settled { core.old.unsettled ≡ false }
    requires more { core.old.config.serial < greatest }
    ensures stands { InnerStands core.new (S.meaning shelf.new) }
    ensures narrows { Narrows core.old core.new (S.meaning shelf.old) (S.meaning shelf.new) }
    ensures plexes { (w p : ℕ) → plex_at core.new.config w p ≡ plex_at core.old.config w p }
    ensures lost { OnOk result (log_trusted core.new.config vol log ≡ false) }
    ensures others { (w : ℕ) (k : VolumeLogValue) → (w ≡ vol → k ≡ log → ⊥) → log_of core.new.config w k ≡ log_of core.old.config w k }
    ensures settled { OnOk result (core.new.unsettled ≡ false) }
    ensures few { OnOk result (core.new.config.serial ≤ core.old.config.serial + 1 + length core.old.config.disks) }
    ensures failing { MoreFailed (S.meaning shelf.old) (S.meaning shelf.new) core.old.config.disks core.new.config.disks }
    ensures parts { SameParts core.old.config core.new.config }
    ensures keeps { KeepsVolumes core.old.config core.new.config result }
    ensures missed { IfErr result (λ e. NoCommit core.new (S.meaning shelf.new)) }
    ensures trust { OnOk result (core.old.committed ≡ true → core.new.committed ≡ true) }
    ensures agreed { IfErr result (λ e. core.old.committed ≡ true → core.new.agreed ≡ true) }
    ensures committed { OnOk result (IsCommitted core.new.config (S.meaning shelf.new)) }
    ensures finds { CoreEnds core.new (S.meaning shelf.old) (S.meaning shelf.new) }
    ensures settles { EndsSettled core.new (S.meaning shelf.old) (S.meaning shelf.new) }
    ensures logs { TrustsBut vol log core.old.config core.new.config }
    ensures cause { Blames (S.meaning shelf.old) (S.meaning shelf.new) result }
{
    match commit_lost(shelf, &mut core.config, vol, log, core.good, &mut core.room) {
        Ok(_) => {
            core.good = good_of(&core.config.disks);
            core.committed = is_committed(core.committed, &core.config.disks);
            core.agreed = core.committed;
            if shelf.is_down() {
                return Err(ShelfError::Down);
            }
            Ok(())
        }
        Err(no) => {
            core.unsettled = true;
            core.agreed = core.committed;
            core.committed = false;
            if shelf.is_down() {
                return Err(ShelfError::Down);
            }
            Err(fault_of(no, 0))
        }
    }
}

/// Commits that a log of a volume is lost, where it is there. Plexes, and all other logs, are as they were. Where the commit is refused
/// the log is not lost in memory either.
///
/// A fault comes only where the count of the disk that it names rose, and `Down` only where the shelf is then down. It takes no memory.
pub fn lose_log<S: Shelf>(
    shelf: &mut S,
    core: &mut Inner,
    vol: u32,
    log: VolumeLog,
) -> Result<(), ShelfError>
    requires stands { InnerStands core.old (S.meaning shelf.old) }
    requires up { IsTrue (S.meaning shelf.old).down → ⊥ }
    requires more { core.old.config.serial < greatest }
    ensures stands { InnerStands core.new (S.meaning shelf.new) }
    ensures narrows { Narrows core.old core.new (S.meaning shelf.old) (S.meaning shelf.new) }
    ensures plexes { (w p : ℕ) → plex_at core.new.config w p ≡ plex_at core.old.config w p }
    ensures lost { OnOk result (log_trusted core.new.config vol log ≡ false) }
    ensures others { (w : ℕ) (k : VolumeLogValue) → (w ≡ vol → k ≡ log → ⊥) → log_of core.new.config w k ≡ log_of core.old.config w k }
    ensures settled { OnOk result (core.new.unsettled ≡ false) }
    ensures few { OnOk result (core.new.config.serial ≤ core.old.config.serial + COMMIT_SERIALS) }
    ensures failing { MoreFailed (S.meaning shelf.old) (S.meaning shelf.new) core.old.config.disks core.new.config.disks }
    ensures parts { SameParts core.old.config core.new.config }
    ensures keeps { KeepsVolumes core.old.config core.new.config result }
    ensures missed { IfErr result (λ e. NoCommit core.new (S.meaning shelf.new)) }
    ensures trust { OnOk result (core.old.committed ≡ true → core.new.committed ≡ true) }
    ensures agreed { IfErr result (λ e. core.old.committed ≡ true → core.new.agreed ≡ true) }
    ensures committed { OnOk result (IsCommitted core.new.config (S.meaning shelf.new)) }
    ensures finds { CoreFinds core.old core.new (S.meaning shelf.old) (S.meaning shelf.new) }
    ensures settles { CoreSettles core.old core.new (S.meaning shelf.old) (S.meaning shelf.new) }
    ensures logs { TrustsBut vol log core.old.config core.new.config }
    ensures cause { Blames (S.meaning shelf.old) (S.meaning shelf.new) result }
{
    match settle_headers(shelf, core) {
        Ok(()) => {}
        Err(error) => return Err(error),
    }
    // Read for their bound.
    let _disks = core.config.disks.as_slice();
    lose_settled(shelf, core, vol, log)
}
