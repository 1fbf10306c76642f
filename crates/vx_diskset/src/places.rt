// Disk sets in their places, out of which calls take them.
ghost use Rattle.std.specs.Prelude.{◌≡◌};

use crate::DiskSet;
use vx_disk::Rack;

/// Puts a disk set into its place. What stood there before goes: a call that took a disk set out left none.
pub fn put_back<R: Rack>(place: &mut DiskSet<R>, disk_set: DiskSet<R>)
    ensures { place.new ≡ disk_set }
{
    *place = disk_set;
}
