// The packet of an update that is handed to the disks of its target.
ghost use Rattle.std.specs.Prelude.{◌≡◌, ℕ, Some, IfOk, OnErr};
ghost use Rattle.vx_courier.specs.Together.{AreOne, AssemblyStands};
ghost use Rattle.vx_courier.specs.UnderWay.{FlightStands};
ghost use Rattle.vx_history.specs.Doubts.{Doubted};
ghost use Rattle.vx_history.specs.Events.{delivered, packet_at};
ghost use Rattle.vx_history.specs.Fits.{WriteFits};
ghost use Rattle.vx_history.specs.World.{Node, Packet, Update as PlainUpdate};
ghost use Rattle.vx_model.specs.Content.{Write};
ghost use Rattle.vx_diskset.specs.Asked.{IsRawSet, LeavesAlone};
ghost use Rattle.vx_diskset.specs.DiskSets.{Later};
ghost use Rattle.vx_diskset.specs.Holds.{KeptBeside, beside_of};
ghost use Rattle.vx_diskset.specs.Stands.{KeepsRole, RoleIs, SiteStands};
ghost use Rattle.vx_joins.specs.Deliveries.{DeliveredTo, TookTo};

use vx_disk::Rack;
use vx_diskset::DiskSet;
use vx_history::Said;
use vx_model::OutOfMemory;
use vx_net::Net;
use vx_packet::Assembly;
use vx_secondary::Secondary;

// The same at a site that receives.
fn take_update<R: Rack, N: Net>(
    secondary: &mut Secondary<R>,
    fed_by: &mut u32,
    assembly: &mut Assembly,
    site: u32,
    flight: &mut N,
    number: u64,
) -> Result<Said, OutOfMemory>
    ensures delivered { (d : Doubted) (p : Packet) (k : ℕ) (x : Write) → packet_at d.world.packets number ≡ Some p → p.target ≡ site → p.message ≡ PlainUpdate k x
        → AreOne d.world.packets → FlightStands d.world.packets (N.flying flight.old) → SiteStands (beside_of d site) (d.world.nodes site) (DiskSet.Receives secondary.old)
        → fed_by.old ≡ (d.world.nodes site).fed_by → AssemblyStands d.world.packets site (d.world.gathering site) assembly.old
        → (p.line ≡ (d.world.nodes site).line → WriteFits (d.world.nodes site) x)
        → IfOk result (λ said. DeliveredTo (delivered d.world number (packet_at d.world.packets number)) (beside_of d site) site (DiskSet.Receives secondary.new) fed_by.new assembly.new (N.flying flight.new) said) }
    ensures took { (d : Doubted) (p : Packet) (k : ℕ) (x : Write) → packet_at d.world.packets number ≡ Some p → p.target ≡ site → p.message ≡ PlainUpdate k x
        → FlightStands d.world.packets (N.flying flight.old) → SiteStands (beside_of d site) (d.world.nodes site) (DiskSet.Receives secondary.old) → fed_by.old ≡ (d.world.nodes site).fed_by
        → IfOk result (λ said. TookTo d.world number p k (beside_of d site) (DiskSet.Receives secondary.new) fed_by.new assembly.old assembly.new (N.flying flight.old) (N.flying flight.new) said) }
    ensures stands { OnErr result ((beside : KeptBeside) (n : Node) → SiteStands beside n (DiskSet.Receives secondary.old) → SiteStands beside n (DiskSet.Receives secondary.new)) }
    ensures fed_by { OnErr result (fed_by.new ≡ fed_by.old) }
    ensures assembly { OnErr result (assembly.new ≡ assembly.old) }
    ensures unsent { OnErr result (N.flying flight.new ≡ N.flying flight.old) }
    ensures still { LeavesAlone (DiskSet.Receives secondary.old) (DiskSet.Receives secondary.new) }
    ensures later { Later (DiskSet.Receives secondary.old) (DiskSet.Receives secondary.new) }
{
    if let Some(_) = secondary.rvg.halted() {
        return Ok(Said::Ignored);
    }
    vx_peers::deliver_update(secondary, fed_by, assembly, site, flight, number)
}

/// Hands the packet of a number, which is of an update, to the site with these disks. A site that is not up, is halted or receives nothing
/// ignores it. `fed_by` is the site that sent the last update that it took, and `site` its own number. It changes no disk: what is taken
/// waits in memory. Also where contents are not told it is known what comes of it (`took`), but for the write that it is put together to.
///
/// It takes no memory. Numbers, sessions and generations past those that packets carry are answered as want of memory, which changes
/// nothing.
pub fn deliver_update<R: Rack, N: Net>(
    disks: &mut DiskSet<R>,
    fed_by: &mut u32,
    assembly: &mut Assembly,
    site: u32,
    flight: &mut N,
    number: u64,
) -> Result<Said, OutOfMemory>
    ensures delivered { (d : Doubted) (p : Packet) (k : ℕ) (x : Write) → packet_at d.world.packets number ≡ Some p → p.target ≡ site → p.message ≡ PlainUpdate k x
        → AreOne d.world.packets → FlightStands d.world.packets (N.flying flight.old) → SiteStands (beside_of d site) (d.world.nodes site) disks.old → RoleIs (d.world.nodes site) disks.old → IsRawSet disks.old
        → fed_by.old ≡ (d.world.nodes site).fed_by → AssemblyStands d.world.packets site (d.world.gathering site) assembly.old
        → (p.line ≡ (d.world.nodes site).line → WriteFits (d.world.nodes site) x)
        → IfOk result (λ said. DeliveredTo (delivered d.world number (packet_at d.world.packets number)) (beside_of d site) site disks.new fed_by.new assembly.new (N.flying flight.new) said) }
    ensures took { (d : Doubted) (p : Packet) (k : ℕ) (x : Write) → packet_at d.world.packets number ≡ Some p → p.target ≡ site → p.message ≡ PlainUpdate k x
        → FlightStands d.world.packets (N.flying flight.old) → SiteStands (beside_of d site) (d.world.nodes site) disks.old → RoleIs (d.world.nodes site) disks.old → IsRawSet disks.old → fed_by.old ≡ (d.world.nodes site).fed_by
        → IfOk result (λ said. TookTo d.world number p k (beside_of d site) disks.new fed_by.new assembly.old assembly.new (N.flying flight.old) (N.flying flight.new) said) }
    ensures stands { OnErr result ((beside : KeptBeside) (n : Node) → SiteStands beside n disks.old → SiteStands beside n disks.new) }
    ensures fed_by { OnErr result (fed_by.new ≡ fed_by.old) }
    ensures assembly { OnErr result (assembly.new ≡ assembly.old) }
    ensures unsent { OnErr result (N.flying flight.new ≡ N.flying flight.old) }
    ensures still { LeavesAlone disks.old disks.new }
    ensures role { KeepsRole disks.old disks.new }
    ensures later { Later disks.old disks.new }
{
    match disks {
        DiskSet::Receives(secondary) => {
            take_update(secondary, fed_by, assembly, site, flight, number)
        }
        _ => Ok(Said::Ignored),
    }
}
