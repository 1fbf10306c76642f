// The lines that make a site, and a raw set of its disks.
ghost use Rattle.std.specs.Prelude.{◌≡◌, ◌≤◌};
ghost use Rattle.vx_diskset.specs.Asked.{SameFailing};
ghost use Rattle.vx_diskset.specs.DiskSets.{Later, MadeIs};
ghost use Rattle.vx_diskset.specs.Holds.{KeptBeside};
ghost use Rattle.vx_diskset.specs.Layouts.{CanBeRaw};
ghost use Rattle.vx_diskset.specs.Stands.{SiteStands};
ghost use Rattle.vx_history.specs.Doubts.{Doubted};
ghost use Rattle.vx_history.specs.World.{Node};
ghost use Rattle.vx_model.specs.declared.site.SiteState.TheVariants.{Bare as BareState};
ghost use Rattle.vx_script.specs.declared.line.ScriptLine.TheVariants.{Site, Raw};
ghost use Rattle.vx_yard.specs.OfSites.{AsAsked};
ghost use Rattle.vx_yard.specs.Standing.{LeadsIs, StandsFor};
ghost use Rattle.vx_yard.specs.Working.{IsFree};
ghost use Rattle.vx_yard.specs.Yards.{IsYardKept, IsTold, in_files};

use std::alloc::Global;
use std::mem;
use vx_disk::Rack;
use vx_diskset::{DiskSet, put_back};
use vx_events::Said;
use vx_model::limits::{LEAST_BLOCKS, LEAST_RAW_DISKS, MOST_DISKS, MOST_SITES};
use vx_model::{Name, OutOfMemory, Stop};
use vx_yard::folder::folder;
use vx_yard::refusing::stopped;
use vx_yard::{Yard, facts};

/// Makes a site of 1 to 8 disks of 8 blocks and more.
pub fn make_site<R: Rack>(
    yard: &mut Yard<R>,
    alloc: Global,
    name: &Name,
    disks: u64,
    blocks: u64,
) -> Result<Said, OutOfMemory>
    requires some { 1 ≤ disks }
    requires few { disks ≤ MOST_DISKS }
    requires large { LEAST_BLOCKS ≤ blocks }
    requires kept { IsYardKept yard.old }
    requires free { IsFree yard.old (Site name.now disks blocks) }
    ensures leads { (d : Doubted) → StandsFor d yard.old → LeadsIs d (Site name.now disks blocks) yard.old yard.new result }
    ensures asked { (d : Doubted) → StandsFor d yard.old → AsAsked d.world (Site name.now disks blocks) yard.old yard.new }
    ensures told { IsTold yard.new → IsTold yard.old }
    ensures files { in_files yard.new ≡ in_files yard.old }
{
    let site = yard.facts.len();
    if site >= yard.disk_sets.len() || site >= MOST_SITES {
        unreachable!();
    }
    yard.facts
        .push(facts::bare(alloc, name, disks as u32, blocks))?;
    let made = yard.disk_sets[site].fit(
        alloc,
        folder(&yard.dir),
        site as u32,
        disks as u32,
        blocks,
    );
    match made {
        Ok(()) => Ok(Said::Done),
        Err(stop) => {
            yard.facts.pop();
            stopped(stop)
        }
    }
}

// Makes the disks of a bare site a raw set, in their place.
fn lay_raw<R: Rack>(place: &mut DiskSet<R>, alloc: Global, site: u32) -> Result<(), Stop>
    ensures made { (beside : KeptBeside) (n : Node) → SiteStands beside n place.old → n.state ≡ BareState → CanBeRaw n.disks n.blocks → MadeIs site n place.old place.new result }
    ensures failing { SameFailing place.old place.new }
    ensures later { Later place.old place.new }
{
    let disk_set = mem::replace(place, DiskSet::Gone);
    let (disk_set, made) = disk_set.make_raw(alloc, site);
    put_back(place, disk_set);
    made
}

/// Makes a bare site a raw set.
pub fn make_raw<R: Rack>(
    yard: &mut Yard<R>,
    alloc: Global,
    name: &Name,
) -> Result<Said, OutOfMemory>
    requires kept { IsYardKept yard.old }
    requires free { IsFree yard.old (Raw name.now) }
    ensures leads { (d : Doubted) → StandsFor d yard.old → LeadsIs d (Raw name.now) yard.old yard.new result }
    ensures asked { (d : Doubted) → StandsFor d yard.old → AsAsked d.world (Raw name.now) yard.old yard.new }
    ensures told { IsTold yard.new → IsTold yard.old }
    ensures files { in_files yard.new ≡ in_files yard.old }
{
    let site = yard.site_of(name);
    let disks = yard.facts[site].disks;
    let blocks = yard.facts[site].blocks;
    if disks < LEAST_RAW_DISKS || disks > MOST_DISKS || blocks < LEAST_BLOCKS {
        unreachable!();
    }
    let volumes = facts::raw_table(alloc, disks - 2, blocks)?;
    let made = lay_raw(&mut yard.disk_sets[site], alloc, site as u32);
    match made {
        Ok(()) => {
            facts::make_raw(&mut yard.facts[site], site as u32, volumes);
            Ok(Said::Done)
        }
        Err(stop) => stopped(stop),
    }
}
