// The line that sends what the receiver of a link may lack.
ghost use Rattle.std.specs.Prelude.{◌≡◌, IfOk};
ghost use Rattle.vx_history.specs.Doubts.{Doubted};
ghost use Rattle.vx_script.specs.declared.line.ScriptLine.TheVariants.{Pump};
ghost use Rattle.vx_yard.specs.Carries.{Carries};
ghost use Rattle.vx_yard.specs.OfSites.{AsAsked, HasCalled};
ghost use Rattle.vx_yard.specs.Standing.{LeadsIs, StandsFor};
ghost use Rattle.vx_yard.specs.Working.{IsFree};
ghost use Rattle.vx_yard.specs.Yards.{IsYardKept, IsTold, in_files};

use std::alloc::Global;
use vx_disk::Rack;
use vx_events::Said;
use vx_linked::{keep_pumped, link_named};
use vx_model::{Name, OutOfMemory};
use vx_yard::Yard;
use vx_yard::refusing::stopped;

/// Sends on the link of a site to another what its receiver may lack. Where a write cannot be read nothing is sent, and nothing changes.
pub fn pump_line<R: Rack>(
    yard: &mut Yard<R>,
    alloc: Global,
    first: &Name,
    second: &Name,
) -> Result<Said, OutOfMemory>
    requires kept { IsYardKept yard.old }
    requires free { IsFree yard.old (Pump first.now second.now) }
    ensures leads { (d : Doubted) → StandsFor d yard.old → Carries d yard.old → LeadsIs d (Pump first.now second.now) yard.old yard.new result }
    ensures asked { (d : Doubted) → StandsFor d yard.old → AsAsked d.world (Pump first.now second.now) yard.old yard.new }
    ensures called { (d : Doubted) → StandsFor d yard.old → IfOk result (λ said. HasCalled d.world (Pump first.now second.now) said yard.old yard.new) }
    ensures told { IsTold yard.new → IsTold yard.old }
    ensures files { in_files yard.new ≡ in_files yard.old }
{
    let here = yard.site_of(first);
    let mut link = link_named(&yard.facts, first, second).link;
    match yard.disk_sets[here].pump(alloc, &mut link, here as u32, &mut yard.flight) {
        Ok(()) => {
            keep_pumped(&mut yard.facts, first, second, &link);
            Ok(Said::Done)
        }
        Err(stop) => stopped(stop),
    }
}
