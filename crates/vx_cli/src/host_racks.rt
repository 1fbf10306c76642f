// The disks of the sites of the program.
ghost use Rattle.std.specs.Prelude.{IfOk};
ghost use Rattle.vx_filedisk.specs.Meanings.{rack_meaning};
ghost use Rattle.vx_yard.specs.Holds.{AreFresh};

use std::alloc::Global;
use vx_filedisk::HostRack;
use vx_model::OutOfMemory;
use vx_model::limits::MOST_SITES;

/// Eight racks over the disks of the host, none of them fitted: one for each site that there may be.
pub fn fresh_racks(rt: HostRuntime, alloc: Global) -> Result<Vec<HostRack>, OutOfMemory>
    ensures { IfOk result (λ racks. AreFresh rack_meaning racks.items) }
{
    let mut racks = Vec::new(alloc);
    for _step in 0..MOST_SITES {
        racks.push(HostRack::new(rt, alloc)?)?;
    }
    Ok(racks)
}
