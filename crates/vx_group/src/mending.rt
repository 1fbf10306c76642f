// The volumes that stopped uncleanly, whose plexes are made alike.
ghost use Rattle.std.specs.Prelude.{◌≡◌, ◌<◌, ◌≤◌, ℕ, length, true, false, IfErr, IsTrue, OnOk};
ghost use Rattle.vx_group.specs.Attaches.{AnyImage};
ghost use Rattle.vx_group.specs.Blames.{Blames};
ghost use Rattle.vx_kept.specs.Keeping.{Acts};
ghost use Rattle.std.specs.Option.{option_copied};
ghost use Rattle.vx_group.specs.Mends.{MarksTell, Mended, Mending, OnMarked, drl_at};
ghost use Rattle.vx_group.specs.Resumes.{source_at};
ghost use Rattle.vx_group.specs.Stands.{InnerStands};
ghost use Rattle.vx_kept.specs.Cleans.{is_unsure};
ghost use Rattle.vx_model.specs.declared.limits.TheConstants.{MOST_VOLUMES};
ghost use Rattle.vx_volume.specs.Plexes.{active};

use crate::copying::copy_volume;
use crate::inner::Inner;
use vx_disk::{Shelf, ShelfError};
use vx_drl::Drl;
use vx_logs::Logs;
use vx_model::limits::MOST_VOLUMES;

// The dirty region log of a volume, where there is one in memory.
fn drl_of(logs: &[Logs], vol: usize) -> Option<&Drl>
    ensures { option_copied result ≡ drl_at logs.now vol }
{
    match logs.get(vol) {
        Some(l) => l.drl.as_ref(),
        None => None,
    }
}

/// Copies of each volume that is marked the regions that its log has, or all where there is none, from its source to each plex that is ACTIVE.
/// No other block gets a value.
pub fn mend_volumes<S: Shelf>(
    shelf: &mut S,
    core: &mut Inner,
    stopped: &[bool; MOST_VOLUMES],
    sources: &[u32; MOST_VOLUMES],
    logs: &[Logs],
) -> Result<(), ShelfError>
    requires stands { InnerStands core.old (S.meaning shelf.old) }
    requires settled { core.old.unsettled ≡ false }
    requires on { (v : ℕ) → v < length core.old.config.volumes → IsTrue (active core.old.config v (source_at sources.now v)) }
    requires tell { MarksTell core.old.config stopped.now logs.now (S.meaning shelf.old) }
    requires up { IsTrue (S.meaning shelf.old).down → ⊥ }
    ensures mended { Mended stopped.now sources.now logs.now core.old core.new (S.meaning shelf.old) (S.meaning shelf.new) result }
    ensures only { Acts (OnMarked core.old.config stopped.now logs.now) AnyImage (S.meaning shelf.old) (S.meaning shelf.new) }
    ensures agreed { IfErr result (λ e. core.old.committed ≡ true → core.new.agreed ≡ true) }
    ensures cause { Blames (S.meaning shelf.old) (S.meaning shelf.new) result }
{
    for vol in 0..core.config.volumes.as_slice().len() {
        if stopped[vol] {
            let drl = drl_of(logs, vol);
            match copy_volume(shelf, core, vol as u32, sources[vol], drl) {
                Ok(()) => {}
                Err(error) => return Err(error),
            }
        }
    }
    Ok(())
}
