// The line that crashes a site.
ghost use Rattle.std.specs.Prelude.{◌≡◌, true, false};
ghost use Rattle.vx_history.specs.Doubts.{Doubted};
ghost use Rattle.vx_script.specs.declared.line.ScriptLine.TheVariants.{Crash};
ghost use Rattle.vx_events.specs.RvgSteps.{is_for_rvg};
ghost use Rattle.vx_events.specs.StepsOver.{is_for_group};
ghost use Rattle.vx_yard.specs.AboveLines.{LeadsAbove};
ghost use Rattle.vx_yard.specs.OfSites.{AsAsked};
ghost use Rattle.vx_yard.specs.Standing.{Leads, StandsFor};
ghost use Rattle.vx_yard.specs.Working.{IsFree};
ghost use Rattle.vx_yard.specs.Yards.{IsYardKept, IsTold, in_files};

use std::alloc::Global;
use vx_disk::Rack;
use vx_events::Said;
use vx_model::Name;
use vx_yard::Yard;
use vx_yard::falling::go_down;

/// Crashes a site that is up.
pub fn crash_line<R: Rack>(yard: &mut Yard<R>, alloc: Global, name: &Name, pick: u64) -> Said
    requires kept { IsYardKept yard.old }
    requires free { IsFree yard.old (Crash name.now pick) }
    ensures leads { (d : Doubted) → StandsFor d yard.old → is_for_group d.world (Crash name.now pick) ≡ false → Leads d (Crash name.now pick) result yard.old yard.new }
    ensures above { (d : Doubted) → StandsFor d yard.old → is_for_rvg d.world (Crash name.now pick) ≡ true → LeadsAbove d (Crash name.now pick) result yard.old yard.new }
    ensures asked { (d : Doubted) → StandsFor d yard.old → is_for_group d.world (Crash name.now pick) ≡ false → AsAsked d.world (Crash name.now pick) yard.old yard.new }
    ensures told { IsTold yard.new → IsTold yard.old }
    ensures files { in_files yard.new ≡ in_files yard.old }
{
    let site = yard.site_of(name);
    go_down(yard, alloc, site, pick);
    Said::Done
}
