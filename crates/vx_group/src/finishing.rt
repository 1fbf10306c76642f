// What an import does behind the configuration that it took up: headers, volumes, the last commit.
ghost use Rattle.std.specs.Prelude.{◌≡◌, ◌<◌, ℕ, length, true, false, IfErr, IsTrue, OnOk};
ghost use Rattle.vx_config.specs.Table.{greatest};
ghost use Rattle.vx_disk.specs.Shelf.{Nothing};
ghost use Rattle.vx_group.specs.Attaches.{AnyImage};
ghost use Rattle.vx_group.specs.Finishes.{CommitsAs, Renews};
ghost use Rattle.vx_group.specs.Mends.{MarksTell, OnMarked};
ghost use Rattle.vx_group.specs.Resumes.{source_at};
ghost use Rattle.vx_group.specs.Stands.{InnerStands};
ghost use Rattle.vx_kept.specs.Keeping.{Acts};
ghost use Rattle.vx_model.specs.declared.limits.TheConstants.{MOST_VOLUMES};
ghost use Rattle.vx_volume.specs.Plexes.{active};

use crate::inner::Inner;
use crate::marking::is_committed;
use crate::mending::mend_volumes;
use crate::settling::settle_headers;
use vx_copies::good_of;
use vx_disk::{Shelf, refusal};
use vx_kept::commit_stale;
use vx_logs::Logs;
use vx_model::No;
use vx_model::limits::MOST_VOLUMES;

// Commits the configuration as it stands.
fn commit_whole<S: Shelf>(shelf: &mut S, core: &mut Inner) -> Result<(), No>
    requires stands { InnerStands core.old (S.meaning shelf.old) }
    requires settled { core.old.unsettled ≡ false }
    ensures commits { CommitsAs core.old core.new (S.meaning shelf.old) (S.meaning shelf.new) result }
    ensures acts { Acts Nothing AnyImage (S.meaning shelf.old) (S.meaning shelf.new) }
    ensures trust { OnOk result (core.old.committed ≡ true → core.new.committed ≡ true) }
    ensures agreed { IfErr result (λ e. core.old.committed ≡ true → core.new.agreed ≡ true) }
{
    match commit_stale(shelf, &mut core.config, 0, 0, core.good, &mut core.room) {
        Ok(_) => {
            core.good = good_of(&core.config.disks);
            core.committed = is_committed(core.committed, &core.config.disks);
            core.agreed = core.committed;
            if shelf.is_down() {
                return Err(No::Down);
            }
            Ok(())
        }
        Err(no) => {
            core.unsettled = true;
            core.agreed = core.committed;
            core.committed = false;
            Err(no)
        }
    }
}

/// Writes the headers of the disks back, copies of each volume that is marked the regions that its log has, or all where there is none, from
/// its source to each plex that is ACTIVE, and commits. No other block of a plex gets a value.
pub fn renew<S: Shelf>(
    shelf: &mut S,
    core: &mut Inner,
    stopped: &[bool; MOST_VOLUMES],
    sources: &[u32; MOST_VOLUMES],
    logs: &[Logs],
) -> Result<(), No>
    requires stands { InnerStands core.old (S.meaning shelf.old) }
    requires on { (v : ℕ) → v < length core.old.config.volumes → IsTrue (active core.old.config v (source_at sources.now v)) }
    requires more { core.old.config.serial < greatest }
    requires tell { MarksTell core.old.config stopped.now logs.now (S.meaning shelf.old) }
    requires up { IsTrue (S.meaning shelf.old).down → ⊥ }
    ensures only { Acts (OnMarked core.old.config stopped.now logs.now) AnyImage (S.meaning shelf.old) (S.meaning shelf.new) }
    ensures renews { Renews stopped.now sources.now core.old core.new (S.meaning shelf.old) (S.meaning shelf.new) result }
    ensures trust { OnOk result (core.old.committed ≡ true → core.new.committed ≡ true) }
    ensures agreed { IfErr result (λ e. core.old.committed ≡ true → core.new.agreed ≡ true) }
{
    match settle_headers(shelf, core) {
        Ok(()) => {}
        Err(error) => return Err(refusal(error)),
    }
    match mend_volumes(shelf, core, stopped, sources, logs) {
        Ok(()) => {}
        Err(error) => return Err(refusal(error)),
    }
    commit_whole(shelf, core)
}
