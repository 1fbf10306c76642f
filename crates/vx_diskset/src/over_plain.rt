// Calls on volumes of the group below a replicated volume group, which leave that as it is.
ghost use Rattle.std.specs.Prelude.{◌<◌, ◌≤◌, ◌%◌, ◌≡◌, length};
ghost use Rattle.vx_diskset.specs.Aboves.{site_in};
ghost use Rattle.vx_diskset.specs.OverPlains.{ReadsBelow};
ghost use Rattle.vx_diskset.specs.OverWrites.{WritesBelow};
ghost use Rattle.vx_grouped.specs.GroupSites.{site_below, site_disks};
ghost use Rattle.vx_model.specs.declared.limits.TheConstants.{BLOCK, MOST_CALL_BYTES};
ghost use Rattle.vx_watched.specs.Since.{CalledSince};
ghost use Rattle.vx_watched.specs.Traces.{TellsLess};

use crate::OverSet;
use crate::group_set::GroupSet;
use crate::grouping::write_set;
use crate::over_away::doubt_fallen;
use std::mem;
use vx_disk::Rack;
use vx_model::No;

impl<R: Rack> OverSet<R> {
    /// Reads whole blocks of a volume of the group below, by its place in the configuration.
    pub(crate) fn read_plain(&mut self, volume: u32, start: u64, into: &mut [u8]) -> Result<(), No>
        ensures reads { ReadsBelow volume start (length into.old) into.new result self.old self.new }
        ensures since { CalledSince (site_disks (site_in self.old)) (site_disks (site_in self.new)) }
        ensures told { TellsLess (site_below (site_in self.old)) (site_below (site_in self.new)) }
    {
        let (site, above, cut) = mem::replace(self, OverSet::gone()).parts();
        let mut site = site;
        let answer = site.read(volume, start, into);
        *self = OverSet::of(site, above, cut);
        answer
    }

    /// Writes whole blocks to a volume of the group below, by its place in the configuration, and makes them durable. The write in which the fuse runs out is cut,
    /// and the site crashes.
    pub(crate) fn write_plain(&mut self, volume: u32, start: u64, bytes: &[u8]) -> Result<(), No>
        requires some { 0 < length bytes.now }
        requires few { length bytes.now ≤ MOST_CALL_BYTES }
        requires whole { length bytes.now % BLOCK ≡ 0 }
        ensures writes { WritesBelow volume start bytes.now result self.old self.new }
        ensures since { CalledSince (site_disks (site_in self.old)) (site_disks (site_in self.new)) }
        ensures told { TellsLess (site_below (site_in self.old)) (site_below (site_in self.new)) }
    {
        let (site, above, cut) = mem::replace(self, OverSet::gone()).parts();
        let mut group = GroupSet { site, cut };
        let answer = write_set(&mut group, volume, start, bytes);
        let GroupSet { site, cut } = group;
        let site = doubt_fallen(site);
        *self = OverSet::of(site, above, cut);
        answer
    }
}
