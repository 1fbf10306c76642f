// The line that sets the fuse of a site.
ghost use Rattle.std.specs.Prelude.{◌≡◌, true, false};
ghost use Rattle.vx_history.specs.Doubts.{Doubted};
ghost use Rattle.vx_script.specs.declared.line.ScriptLine.TheVariants.{Fuse};
ghost use Rattle.vx_events.specs.RvgSteps.{is_for_rvg};
ghost use Rattle.vx_events.specs.StepsOver.{is_for_group};
ghost use Rattle.vx_yard.specs.AboveLines.{LeadsAbove};
ghost use Rattle.vx_yard.specs.OfSites.{AsAsked};
ghost use Rattle.vx_yard.specs.Standing.{Leads, StandsFor};
ghost use Rattle.vx_yard.specs.Working.{IsFree};
ghost use Rattle.vx_yard.specs.Yards.{IsYardKept, IsTold, in_files};

use vx_disk::Rack;
use vx_events::Said;
use vx_model::Name;
use vx_yard::Yard;

/// Sets the fuse of a site that is up.
pub fn fuse_line<R: Rack>(yard: &mut Yard<R>, name: &Name, calls: u64, pick: u64) -> Said
    requires kept { IsYardKept yard.old }
    requires free { IsFree yard.old (Fuse name.now calls pick) }
    ensures leads { (d : Doubted) → StandsFor d yard.old → is_for_group d.world (Fuse name.now calls pick) ≡ false → Leads d (Fuse name.now calls pick) result yard.old yard.new }
    ensures above { (d : Doubted) → StandsFor d yard.old → is_for_rvg d.world (Fuse name.now calls pick) ≡ true → LeadsAbove d (Fuse name.now calls pick) result yard.old yard.new }
    ensures asked { (d : Doubted) → StandsFor d yard.old → is_for_group d.world (Fuse name.now calls pick) ≡ false → AsAsked d.world (Fuse name.now calls pick) yard.old yard.new }
    ensures told { IsTold yard.new → IsTold yard.old }
    ensures files { in_files yard.new ≡ in_files yard.old }
{
    let site = yard.site_of(name);
    yard.disk_sets[site].fuse(calls, pick);
    Said::Done
}
