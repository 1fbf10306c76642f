// The line that makes a disk fail, or ends that.
ghost use Rattle.std.specs.Prelude.{◌≡◌, true, false};
ghost use Rattle.vx_history.specs.Doubts.{Doubted};
ghost use Rattle.vx_script.specs.declared.line.ScriptLine.TheVariants.{Disk};
ghost use Rattle.vx_events.specs.RvgSteps.{is_for_rvg};
ghost use Rattle.vx_events.specs.StepsOver.{is_for_group};
ghost use Rattle.vx_yard.specs.AboveLines.{LeadsAbove};
ghost use Rattle.vx_yard.specs.OfSites.{AsAsked};
ghost use Rattle.vx_yard.specs.Standing.{Leads, StandsFor};
ghost use Rattle.vx_yard.specs.Working.{IsFree};
ghost use Rattle.vx_yard.specs.Yards.{IsYardKept, IsTold, in_files};

use vx_disk::Rack;
use vx_events::{Said, is_failing};
use vx_model::Name;
use vx_script::DiskState as DiskWord;
use vx_yard::Yard;

/// Makes the calls on a disk fail, or ends that.
pub fn set_disk<R: Rack>(yard: &mut Yard<R>, name: &Name, disk: u64, state: DiskWord) -> Said
    requires kept { IsYardKept yard.old }
    requires free { IsFree yard.old (Disk name.now disk state) }
    ensures leads { (d : Doubted) → StandsFor d yard.old → is_for_group d.world (Disk name.now disk state) ≡ false → Leads d (Disk name.now disk state) result yard.old yard.new }
    ensures above { (d : Doubted) → StandsFor d yard.old → is_for_rvg d.world (Disk name.now disk state) ≡ true → LeadsAbove d (Disk name.now disk state) result yard.old yard.new }
    ensures asked { (d : Doubted) → StandsFor d yard.old → is_for_group d.world (Disk name.now disk state) ≡ false → AsAsked d.world (Disk name.now disk state) yard.old yard.new }
    ensures told { IsTold yard.new → IsTold yard.old }
    ensures files { in_files yard.new ≡ in_files yard.old }
{
    let site = yard.site_of(name);
    yard.disk_sets[site].fail(disk, is_failing(state));
    Said::Done
}
