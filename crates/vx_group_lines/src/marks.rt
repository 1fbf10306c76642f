// The lines that make a disk of a group fail, crash its site, or set its fuse.
ghost use Rattle.std.specs.Prelude.{◌≡◌, true};
ghost use Rattle.vx_history.specs.Doubts.{Doubted};
ghost use Rattle.vx_script.specs.declared.line.ScriptLine.TheVariants.{Crash, Disk, Fuse};
ghost use Rattle.vx_events.specs.StepsOver.{is_for_group};
ghost use Rattle.vx_yard.specs.OfSites.{AsAsked};
ghost use Rattle.vx_yard.specs.Standing.{LeadsOver, StandsFor};
ghost use Rattle.vx_yard.specs.Working.{IsFree};
ghost use Rattle.vx_yard.specs.Yards.{IsYardKept, IsTold, in_files};

use std::alloc::Global;
use vx_disk::Rack;
use vx_events::{Said, is_failing};
use vx_model::Name;
use vx_script::DiskState as DiskWord;
use vx_yard::Yard;
use vx_yard::falling::go_down;

/// Makes the calls on a disk fail, or ends that.
pub fn disk_line<R: Rack>(yard: &mut Yard<R>, name: &Name, disk: u64, state: DiskWord) -> Said
    requires kept { IsYardKept yard.old }
    requires free { IsFree yard.old (Disk name.now disk state) }
    ensures leads { (d : Doubted) → StandsFor d yard.old → is_for_group d.world (Disk name.now disk state) ≡ true → LeadsOver d (Disk name.now disk state) result yard.old yard.new }
    ensures asked { (d : Doubted) → StandsFor d yard.old → is_for_group d.world (Disk name.now disk state) ≡ true → AsAsked d.world (Disk name.now disk state) yard.old yard.new }
    ensures told { IsTold yard.new → IsTold yard.old }
    ensures files { in_files yard.new ≡ in_files yard.old }
{
    let site = yard.site_of(name);
    yard.disk_sets[site].fail(disk, is_failing(state));
    Said::Done
}

/// Crashes a site that is up.
pub fn crash_line<R: Rack>(yard: &mut Yard<R>, alloc: Global, name: &Name, pick: u64) -> Said
    requires kept { IsYardKept yard.old }
    requires free { IsFree yard.old (Crash name.now pick) }
    ensures leads { (d : Doubted) → StandsFor d yard.old → is_for_group d.world (Crash name.now pick) ≡ true → LeadsOver d (Crash name.now pick) result yard.old yard.new }
    ensures asked { (d : Doubted) → StandsFor d yard.old → is_for_group d.world (Crash name.now pick) ≡ true → AsAsked d.world (Crash name.now pick) yard.old yard.new }
    ensures told { IsTold yard.new → IsTold yard.old }
    ensures files { in_files yard.new ≡ in_files yard.old }
{
    let site = yard.site_of(name);
    go_down(yard, alloc, site, pick);
    Said::Done
}

/// Sets the fuse of a site that is up.
pub fn fuse_line<R: Rack>(yard: &mut Yard<R>, name: &Name, calls: u64, pick: u64) -> Said
    requires kept { IsYardKept yard.old }
    requires free { IsFree yard.old (Fuse name.now calls pick) }
    ensures leads { (d : Doubted) → StandsFor d yard.old → is_for_group d.world (Fuse name.now calls pick) ≡ true → LeadsOver d (Fuse name.now calls pick) result yard.old yard.new }
    ensures asked { (d : Doubted) → StandsFor d yard.old → is_for_group d.world (Fuse name.now calls pick) ≡ true → AsAsked d.world (Fuse name.now calls pick) yard.old yard.new }
    ensures told { IsTold yard.new → IsTold yard.old }
    ensures files { in_files yard.new ≡ in_files yard.old }
{
    let site = yard.site_of(name);
    yard.disk_sets[site].fuse(calls, pick);
    Said::Done
}
