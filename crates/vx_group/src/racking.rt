// The own calls of a rack on the disks on which a group stands.
ghost use Rattle.std.specs.Prelude.{◌≡◌, ◌≢◌, ◌<◌, ℕ, IsTrue, Some};
ghost use Rattle.vx_disk.specs.Causes.{OnDisks, WithDisks};
ghost use Rattle.vx_disk.specs.Disks.{SameBlocks, Untouched};
ghost use Rattle.vx_disk.specs.Racks.{Alike};
ghost use Rattle.vx_disk.specs.Shelf.{Goes, Nothing};
ghost use Rattle.vx_group.specs.Holding.{GroupStands, wide};
ghost use Rattle.vx_group.specs.Stands.{inner_meaning};

use crate::group_core::GroupCore;
use vx_disk::Rack;

/// Makes each later call on a disk fail, or ends that. The group stands as it did, and to its volumes nothing changes.
pub fn fail_in<R: Rack>(rack: &mut R, core: &GroupCore, disk: u32, on: bool)
    requires inside { disk < (R.meaning rack.old).units }
    requires stands { GroupStands core.now (R.meaning rack.old) }
    ensures stands { GroupStands core.now (R.meaning rack.new) }
    ensures goes { Goes Nothing (R.meaning rack.old) (R.meaning rack.new) }
    ensures alike { Alike (R.meaning rack.old) (R.meaning rack.new) }
    ensures down { (R.meaning rack.new).down ≡ (R.meaning rack.old).down }
    ensures armed { (R.meaning rack.new).armed ≡ (R.meaning rack.old).armed }
    ensures disks { WithDisks (R.meaning rack.old).disks (R.meaning rack.new).disks (λ o n. Untouched o n × (n.failing disk ≡ on) × ((u : ℕ) → u ≢ disk → n.failing u ≡ o.failing u)) }
    ensures volumes { Alike (inner_meaning (wide core.now) (R.meaning rack.old)) (inner_meaning (wide core.now) (R.meaning rack.new)) }
    ensures still { Goes Nothing (inner_meaning (wide core.now) (R.meaning rack.old)) (inner_meaning (wide core.now) (R.meaning rack.new)) }
{
    let _memory = core;
    rack.fail(disk, on);
}

/// Lets that many writes and flushes of the disks pass; reads do not count. The next changes nothing and is a crash. The group stands as it
/// did, and to its volumes nothing changes.
pub fn fuse_in<R: Rack>(rack: &mut R, core: &GroupCore, calls: u64, pick: u64)
    requires stands { GroupStands core.now (R.meaning rack.old) }
    ensures stands { GroupStands core.now (R.meaning rack.new) }
    ensures alike { Alike (R.meaning rack.old) (R.meaning rack.new) }
    ensures down { (R.meaning rack.new).down ≡ (R.meaning rack.old).down }
    ensures armed { IsTrue (R.meaning rack.new).armed }
    ensures disks { OnDisks (R.meaning rack.old).disks (R.meaning rack.new).disks (λ o n. SameBlocks o n × (n.fuse ≡ Some (calls, pick))) }
    ensures volumes { Alike (inner_meaning (wide core.now) (R.meaning rack.old)) (inner_meaning (wide core.now) (R.meaning rack.new)) }
{
    let _memory = core;
    rack.fuse(calls, pick);
}
