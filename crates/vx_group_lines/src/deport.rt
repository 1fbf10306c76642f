// The line that deports a disk group.
ghost use Rattle.std.specs.Prelude.{◌≡◌, IfOk, true};
ghost use Rattle.vx_history.specs.Doubts.{Doubted};
ghost use Rattle.vx_script.specs.declared.line.ScriptLine.TheVariants.{GroupDeport};
ghost use Rattle.vx_events.specs.RvgSteps.{is_for_rvg};
ghost use Rattle.vx_events.specs.StepsOver.{is_for_group};
ghost use Rattle.vx_yard.specs.AboveLines.{LeadsAboveIs};
ghost use Rattle.vx_yard.specs.OfSites.{AsAsked, HasCalled};
ghost use Rattle.vx_yard.specs.Standing.{LeadsOverIs, StandsFor};
ghost use Rattle.vx_yard.specs.Working.{IsFree};
ghost use Rattle.vx_yard.specs.Yards.{IsYardKept, IsTold, in_files};

use crate::noting::group_stopped;
use std::alloc::Global;
use vx_disk::Rack;
use vx_events::Said;
use vx_model::{Name, OutOfMemory};
use vx_yard::Yard;
use vx_yard::group_facts::deport;
use vx_yard::load::let_go;

/// Deports the disk group of a site, which lets go what it had in assembly.
pub fn deport_line<R: Rack>(
    yard: &mut Yard<R>,
    alloc: Global,
    name: &Name,
) -> Result<Said, OutOfMemory>
    requires kept { IsYardKept yard.old }
    requires free { IsFree yard.old (GroupDeport name.now) }
    ensures leads { (d : Doubted) → StandsFor d yard.old → is_for_group d.world (GroupDeport name.now) ≡ true → LeadsOverIs d (GroupDeport name.now) yard.old yard.new result }
    ensures above { (d : Doubted) → StandsFor d yard.old → is_for_rvg d.world (GroupDeport name.now) ≡ true → LeadsAboveIs d (GroupDeport name.now) yard.old yard.new result }
    ensures asked { (d : Doubted) → StandsFor d yard.old → is_for_group d.world (GroupDeport name.now) ≡ true → AsAsked d.world (GroupDeport name.now) yard.old yard.new }
    ensures called { (d : Doubted) → StandsFor d yard.old → is_for_group d.world (GroupDeport name.now) ≡ true → IfOk result (λ said. HasCalled d.world (GroupDeport name.now) said yard.old yard.new) }
    ensures told { IsTold yard.new → IsTold yard.old }
    ensures files { in_files yard.new ≡ in_files yard.old }
{
    let site = yard.site_of(name);
    match yard.disk_sets[site].deport_group() {
        Ok(()) => {
            let_go(&mut yard.assemblies, site);
            deport(alloc, &mut yard.facts[site]);
            Ok(Said::Done)
        }
        Err(stop) => group_stopped(yard, alloc, site, stop),
    }
}
