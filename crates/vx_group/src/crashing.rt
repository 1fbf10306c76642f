// A crash of the disks on which a group stands, and what may be imported behind it.
ghost use Rattle.std.specs.Prelude.{◌≡◌, true, IsTrue, IsFalse};
ghost use Rattle.vx_disk.specs.Causes.{OnDisks};
ghost use Rattle.vx_disk.specs.Disks.{Crashed, Untouched};
ghost use Rattle.vx_disk.specs.Racks.{Alike, Stopped};
ghost use Rattle.vx_group.specs.Holding.{wide};
ghost use Rattle.vx_group.specs.Resumes.{CanImport, CanImportBehind};
ghost use Rattle.vx_group.specs.Stands.{InnerStands, inner_meaning};

use crate::group_core::GroupCore;
use vx_disk::Rack;

/// Crashes the disks on which a group stands. To its volumes this is a crash too: each image that it keeps is one that it might have left.
/// Where imports agree, the group may be imported behind it.
pub fn crash_in<R: Rack>(rack: &mut R, core: &GroupCore, pick: u64)
    requires stands { InnerStands (wide core.now) (R.meaning rack.old) }
    ensures stopped { Stopped (R.meaning rack.old) (R.meaning rack.new) }
    ensures disks { OnDisks (R.meaning rack.old).disks (R.meaning rack.new).disks (Crashed (R.meaning rack.old).size pick) }
    ensures stands { InnerStands (wide core.now) (R.meaning rack.new) }
    ensures volumes { Stopped (inner_meaning (wide core.now) (R.meaning rack.old)) (inner_meaning (wide core.now) (R.meaning rack.new)) }
    ensures can { core.now.inner.agreed ≡ true → CanImport (R.meaning rack.new) }
{
    let _memory = core;
    rack.crash(pick);
}

/// Crashes disks on which no group stands. Where whatever a crash leaves may be imported, it may be behind this one.
pub fn fall<R: Rack>(rack: &mut R, pick: u64)
    ensures stopped { Stopped (R.meaning rack.old) (R.meaning rack.new) }
    ensures disks { OnDisks (R.meaning rack.old).disks (R.meaning rack.new).disks (Crashed (R.meaning rack.old).size pick) }
    ensures can { CanImportBehind (R.meaning rack.old) → CanImport (R.meaning rack.new) }
{
    rack.crash(pick);
}

/// Ends the down state of the disks. What could be imported still may.
pub fn revive<R: Rack>(rack: &mut R)
    requires down { IsTrue (R.meaning rack.old).down }
    ensures alike { Alike (R.meaning rack.old) (R.meaning rack.new) }
    ensures up { IsFalse (R.meaning rack.new).down }
    ensures armed { (R.meaning rack.new).armed ≡ (R.meaning rack.old).armed }
    ensures disks { OnDisks (R.meaning rack.old).disks (R.meaning rack.new).disks Untouched }
    ensures can { CanImport (R.meaning rack.old) → CanImport (R.meaning rack.new) }
{
    rack.revive();
}
