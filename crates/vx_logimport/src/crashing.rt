// What an import by logs asks, behind a crash of a group whose logs stand.
ghost use Rattle.std.specs.Prelude.{◌≡◌, ◌⊎◌, ◌<◌, ℕ, None, true, IsFalse, IsTrue, length};
ghost use Rattle.vx_config.specs.declared.entry.VolumeLog.TheVariants.{Drl as DrlLog};
ghost use Rattle.vx_disk.specs.Causes.{OnDisks};
ghost use Rattle.vx_disk.specs.Disks.{Crashed};
ghost use Rattle.vx_disk.specs.Racks.{Alike, Stopped};
ghost use Rattle.vx_group.specs.Holding.{GroupStands, wide};
ghost use Rattle.vx_group.specs.Resumes.{AtRest, CanImport};
ghost use Rattle.vx_group.specs.Stands.{InnerStands, inner_meaning};
ghost use Rattle.vx_grouplogs.specs.On.{VolumeOn};
ghost use Rattle.vx_kept.specs.LogRuns.{log_trusted};
ghost use Rattle.vx_logimport.specs.Covers.{DisksTell};
ghost use Rattle.vx_logs.specs.declared.logs.Logs.{Logs as LogsValue};

use vx_disk::Rack;
use vx_group::{GroupCore, crash_in, revive};

/// Crashes the disks on which a group stands. To its volumes this is a crash too. Behind it the disks tell what an import by logs asks of each
/// volume of which the log stood, where that is in memory while it is not held as lost, or where a crash leaves one value of each block.
pub fn crash_told<R: Rack>(rack: &mut R, core: &GroupCore, pick: u64)
    requires stands { GroupStands core.now (R.meaning rack.old) }
    ensures stopped { Stopped (R.meaning rack.old) (R.meaning rack.new) }
    ensures disks { OnDisks (R.meaning rack.old).disks (R.meaning rack.new).disks (Crashed (R.meaning rack.old).size pick) }
    ensures below { InnerStands (wide core.now) (R.meaning rack.new) }
    ensures volumes { Stopped (inner_meaning (wide core.now) (R.meaning rack.old)) (inner_meaning (wide core.now) (R.meaning rack.new)) }
    ensures can { core.now.inner.agreed ≡ true → CanImport (R.meaning rack.new) }
    ensures tells { (v : ℕ) (l : LogsValue) → v < length core.now.inner.config.volumes → VolumeOn (wide core.now).config v l (R.meaning rack.old)
        → (log_trusted (wide core.now).config v DrlLog ≡ true → l.drl ≡ None → ⊥) ⊎ AtRest (R.meaning rack.new) → DisksTell v (R.meaning rack.new) }
{
    crash_in(rack, core, pick);
}

/// Ends the down state of the disks. What they told they tell still.
pub fn revive_told<R: Rack>(rack: &mut R)
    requires down { IsTrue (R.meaning rack.old).down }
    ensures alike { Alike (R.meaning rack.old) (R.meaning rack.new) }
    ensures up { IsFalse (R.meaning rack.new).down }
    ensures can { CanImport (R.meaning rack.old) → CanImport (R.meaning rack.new) }
    ensures tells { (v : ℕ) → DisksTell v (R.meaning rack.old) → DisksTell v (R.meaning rack.new) }
{
    revive(rack);
}
