// A crash of a group with logs.
ghost use Rattle.std.specs.Prelude.{◌≡◌, false, true};
ghost use Rattle.vx_disk.specs.Causes.{OnDisks};
ghost use Rattle.vx_disk.specs.Disks.{Crashed};
ghost use Rattle.vx_disk.specs.Racks.{Stopped};
ghost use Rattle.vx_group.specs.Holding.{wide};
ghost use Rattle.vx_group.specs.Resumes.{CanImport};
ghost use Rattle.vx_group.specs.Stands.{InnerStands, inner_meaning};
ghost use Rattle.vx_loggroup.specs.LoggedVolumes.{LoggedStands};
ghost use Rattle.vx_logimport.specs.Rests.{LogsTell, RestsNone};
ghost use Rattle.vx_logimport.specs.declared.rested.Rested.{Rested as RestedValue};

use vx_disk::Rack;
use vx_group::GroupCore;
use vx_logimport::crash_told;
use vx_logs::Logs;
use vx_model::limits::MOST_VOLUMES;

/// Crashes the disks on which a group with logs stands. To its volumes this is a crash too. While logs are not stopped the disks tell behind it
/// all that an import by logs asks.
pub fn crash_whole<R: Rack>(
    rack: &mut R,
    core: &GroupCore,
    logs: &Vec<Logs>,
    alike: &[bool; MOST_VOLUMES],
    stopped: bool,
    pick: u64,
)
    requires stands { LoggedStands core.now logs.now.items alike.now stopped (R.meaning rack.old) }
    ensures fell { Stopped (R.meaning rack.old) (R.meaning rack.new) }
    ensures disks { OnDisks (R.meaning rack.old).disks (R.meaning rack.new).disks (Crashed (R.meaning rack.old).size pick) }
    ensures below { InnerStands (wide core.now) (R.meaning rack.new) }
    ensures volumes { Stopped (inner_meaning (wide core.now) (R.meaning rack.old)) (inner_meaning (wide core.now) (R.meaning rack.new)) }
    ensures can { core.now.inner.agreed ≡ true → CanImport (R.meaning rack.new) }
    ensures tells { stopped ≡ false → (r : RestedValue) → RestsNone r → LogsTell r (R.meaning rack.new) }
{
    crash_told(rack, core, pick);
}
