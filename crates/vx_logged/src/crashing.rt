// A crash of the disks of a group with logs.
ghost use Rattle.std.specs.Prelude.{◌≡◌, ◌<◌, ℕ, true, IsFalse, IsTrue, length};
ghost use Rattle.vx_disk.specs.Racks.{Alike, Stopped};
ghost use Rattle.vx_group.specs.Holding.{GroupStands, wide};
ghost use Rattle.vx_group.specs.Resumes.{CanImport};
ghost use Rattle.vx_group.specs.Stands.{inner_meaning};
ghost use Rattle.vx_logged.specs.Logged.{LogOn};
ghost use Rattle.vx_logged.specs.Tells.{LogTells};
ghost use Rattle.vx_logs.specs.declared.logs.Logs.{Logs as LogsValue};

use vx_disk::Rack;
use vx_group::{GroupCore, crash_in, revive};

/// Crashes the disks on which a group stands. To its volumes this is a crash too. Behind it, in each image that a crash may leave, plexes that
/// take part have the same in each block of which the log of their volume has not the region, for each volume of which the log stood.
pub fn crash_logged<R: Rack>(rack: &mut R, core: &GroupCore, pick: u64)
    requires stands { GroupStands core.now (R.meaning rack.old) }
    ensures stopped { Stopped (R.meaning rack.old) (R.meaning rack.new) }
    ensures volumes { Stopped (inner_meaning (wide core.now) (R.meaning rack.old)) (inner_meaning (wide core.now) (R.meaning rack.new)) }
    ensures can { core.now.inner.agreed ≡ true → CanImport (R.meaning rack.new) }
    ensures tells { (v : ℕ) (l : LogsValue) → v < length core.now.inner.config.volumes → LogOn core.now v l (R.meaning rack.old) → LogTells v (R.meaning rack.new) }
{
    crash_in(rack, core, pick);
}

/// Ends the down state of the disks. What logs told they tell still.
pub fn revive_logged<R: Rack>(rack: &mut R)
    requires down { IsTrue (R.meaning rack.old).down }
    ensures alike { Alike (R.meaning rack.old) (R.meaning rack.new) }
    ensures up { IsFalse (R.meaning rack.new).down }
    ensures can { CanImport (R.meaning rack.old) → CanImport (R.meaning rack.new) }
    ensures tells { (v : ℕ) → LogTells v (R.meaning rack.old) → LogTells v (R.meaning rack.new) }
{
    revive(rack);
}
