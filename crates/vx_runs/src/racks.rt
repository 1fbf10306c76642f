// The disks of the sites, in memory.
ghost use Rattle.std.specs.Prelude.{IfOk};
ghost use Rattle.vx_disk.specs.Meanings.{shelf_meaning};
ghost use Rattle.vx_yard.specs.Holds.{AreFresh};

use std::alloc::Global;
use vx_disk::MemShelf;
use vx_model::OutOfMemory;
use vx_model::limits::MOST_SITES;

/// Eight racks in memory, none of them fitted. On each the calls of these numbers, from 1, are to fail.
pub(crate) fn memory_racks(alloc: Global, fails: &[u64]) -> Result<Vec<MemShelf>, OutOfMemory>
    ensures { IfOk result (λ racks. AreFresh shelf_meaning racks.items) }
{
    let mut racks = Vec::new(alloc);
    for _step in 0..MOST_SITES {
        racks.push(MemShelf::new(alloc, fails)?)?;
    }
    Ok(racks)
}
