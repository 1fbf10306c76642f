// The own calls of a rack on the disks on which a group with logs stands.
ghost use Rattle.std.specs.Prelude.{◌≡◌, ◌≢◌, ◌<◌, ℕ, IsTrue, Some};
ghost use Rattle.vx_disk.specs.Causes.{OnDisks, WithDisks};
ghost use Rattle.vx_disk.specs.Disks.{SameBlocks, Untouched};
ghost use Rattle.vx_disk.specs.Racks.{Alike};
ghost use Rattle.vx_disk.specs.Shelf.{Goes, Nothing};
ghost use Rattle.vx_group.specs.Holding.{wide};
ghost use Rattle.vx_group.specs.Stands.{inner_meaning};
ghost use Rattle.vx_loggroup.specs.Fresh.{FreshStands};
ghost use Rattle.vx_loggroup.specs.LoggedVolumes.{LoggedStands};
ghost use Rattle.vx_loggroup.specs.Settled.{SettledFact};

use vx_disk::Rack;
use vx_group::{GroupCore, fail_in, fuse_in};
use vx_logs::Logs;
use vx_model::limits::MOST_VOLUMES;

/// Makes each later call on a disk fail, or ends that. The group and its logs stand as they did, and to its volumes nothing changes.
pub fn fail_whole<R: Rack>(
    rack: &mut R,
    core: &GroupCore,
    logs: &Vec<Logs>,
    alike: &[bool; MOST_VOLUMES],
    fresh: &[bool; MOST_VOLUMES],
    stopped: bool,
    disk: u32,
    on: bool,
)
    requires inside { disk < (R.meaning rack.old).units }
    requires stands { LoggedStands core.now logs.now.items alike.now stopped (R.meaning rack.old) }
    requires fresh { FreshStands core.now fresh.now (R.meaning rack.old) }
    requires settles { SettledFact core.now alike.now (R.meaning rack.old) }
    ensures stands { LoggedStands core.now logs.now.items alike.now stopped (R.meaning rack.new) }
    ensures fresh { FreshStands core.now fresh.now (R.meaning rack.new) }
    ensures settles { SettledFact core.now alike.now (R.meaning rack.new) }
    ensures goes { Goes Nothing (R.meaning rack.old) (R.meaning rack.new) }
    ensures alike { Alike (R.meaning rack.old) (R.meaning rack.new) }
    ensures down { (R.meaning rack.new).down ≡ (R.meaning rack.old).down }
    ensures armed { (R.meaning rack.new).armed ≡ (R.meaning rack.old).armed }
    ensures disks { WithDisks (R.meaning rack.old).disks (R.meaning rack.new).disks (λ o n. Untouched o n × (n.failing disk ≡ on) × ((u : ℕ) → u ≢ disk → n.failing u ≡ o.failing u)) }
    ensures volumes { Alike (inner_meaning (wide core.now) (R.meaning rack.old)) (inner_meaning (wide core.now) (R.meaning rack.new)) }
    ensures still { Goes Nothing (inner_meaning (wide core.now) (R.meaning rack.old)) (inner_meaning (wide core.now) (R.meaning rack.new)) }
{
    fail_in(rack, core, disk, on);
}

/// Lets that many writes and flushes of the disks pass; reads do not count. The next changes nothing and is a crash. The group and its logs stand as
/// they did, and to its volumes nothing changes.
pub fn fuse_whole<R: Rack>(
    rack: &mut R,
    core: &GroupCore,
    logs: &Vec<Logs>,
    alike: &[bool; MOST_VOLUMES],
    fresh: &[bool; MOST_VOLUMES],
    stopped: bool,
    calls: u64,
    pick: u64,
)
    requires stands { LoggedStands core.now logs.now.items alike.now stopped (R.meaning rack.old) }
    requires fresh { FreshStands core.now fresh.now (R.meaning rack.old) }
    requires settles { SettledFact core.now alike.now (R.meaning rack.old) }
    ensures stands { LoggedStands core.now logs.now.items alike.now stopped (R.meaning rack.new) }
    ensures fresh { FreshStands core.now fresh.now (R.meaning rack.new) }
    ensures settles { SettledFact core.now alike.now (R.meaning rack.new) }
    ensures alike { Alike (R.meaning rack.old) (R.meaning rack.new) }
    ensures down { (R.meaning rack.new).down ≡ (R.meaning rack.old).down }
    ensures armed { IsTrue (R.meaning rack.new).armed }
    ensures disks { OnDisks (R.meaning rack.old).disks (R.meaning rack.new).disks (λ o n. SameBlocks o n × (n.fuse ≡ Some (calls, pick))) }
    ensures volumes { Alike (inner_meaning (wide core.now) (R.meaning rack.old)) (inner_meaning (wide core.now) (R.meaning rack.new)) }
{
    fuse_in(rack, core, calls, pick);
}
