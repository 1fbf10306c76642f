// Blocks that are read into a place for them.
ghost use Rattle.std.specs.Prelude.{◌≡◌, ◌≤◌, ◌<◌, ◌*◌, length, List};
ghost use Rattle.vx_diskset.specs.Holds.{KeptBeside};
ghost use Rattle.vx_history.specs.World.{Node};
ghost use Rattle.vx_diskset.specs.Asked.{IsRawSet, LeavesAlone};
ghost use Rattle.vx_diskset.specs.DiskSets.{CanRead, Later};
ghost use Rattle.vx_diskset.specs.Fetching.{GaveAt};
ghost use Rattle.vx_diskset.specs.Stands.{SiteStands};

use crate::DiskSet;
use vx_disk::Rack;
use vx_model::limits::{BLOCK, MOST_CALL_BLOCKS};
use vx_model::{Bytes, No};

/// So many blocks of a volume, by its number, read into a place for them.
pub fn blocks_of<R: Rack>(
    disk_set: &mut DiskSet<R>,
    volume: u32,
    start: u64,
    count: u64,
    mut room: Vec<u8>,
) -> Result<Bytes, No>
    requires some { 0 < count }
    requires few { count ≤ MOST_CALL_BLOCKS }
    requires room { length room.items ≡ BLOCK * count }
    ensures read { (beside : KeptBeside) (n : Node) → SiteStands beside n disk_set.old → CanRead n volume start count → GaveAt beside n volume start count disk_set.old disk_set.new result }
    ensures still { IsRawSet disk_set.old → LeavesAlone disk_set.old disk_set.new }
    ensures later { Later disk_set.old disk_set.new }
{
    disk_set.read(volume, start, &mut room)?;
    Ok(Bytes::new(room))
}
