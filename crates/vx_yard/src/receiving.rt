// Whether a site takes the updates of another one.
ghost use Rattle.vx_yard.specs.Deliveries.{Receives};

use vx_disk::Rack;
use vx_diskset::DiskSet;

/// Whether the group of a site receives, with room for the updates that wait.
pub fn receives<R: Rack>(disk_set: &DiskSet<R>) -> bool
    ensures { Receives disk_set.now result }
{
    match disk_set {
        DiskSet::Receives(_) => true,
        DiskSet::Over(over) => over.receives(),
        _ => false,
    }
}
