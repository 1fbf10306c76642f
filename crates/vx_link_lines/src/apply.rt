// The line that applies what the log of a site holds.
ghost use Rattle.std.specs.Prelude.{◌≡◌, IfOk, false, true};
ghost use Rattle.vx_history.specs.Doubts.{Doubted};
ghost use Rattle.vx_events.specs.RvgSteps.{is_for_rvg};
ghost use Rattle.vx_script.specs.declared.line.ScriptLine.TheVariants.{Apply};
ghost use Rattle.vx_yard.specs.AboveLines.{LeadsAboveIs};
ghost use Rattle.vx_yard.specs.Carries.{Carries};
ghost use Rattle.vx_yard.specs.OfSites.{AsAsked, HasCalled};
ghost use Rattle.vx_yard.specs.Standing.{LeadsIs, StandsFor};
ghost use Rattle.vx_yard.specs.Working.{IsFree};
ghost use Rattle.vx_yard.specs.Yards.{IsYardKept, IsTold, in_files};

use crate::received::apply_received;
use std::alloc::Global;
use vx_disk::Rack;
use vx_events::Said;
use vx_model::{Name, OutOfMemory};
use vx_yard::Yard;
use vx_yard::load::let_go_if_down;
use vx_yard::receiving::receives;
use vx_yard::refusing::refused;

/// Brings the logged writes of a site up to a number into their volumes. At a site that receives so many of the updates that wait are logged first.
pub fn apply_line<R: Rack>(
    yard: &mut Yard<R>,
    alloc: Global,
    name: &Name,
    to: u64,
) -> Result<Said, OutOfMemory>
    requires kept { IsYardKept yard.old }
    requires free { IsFree yard.old (Apply name.now to) }
    ensures leads { (d : Doubted) → StandsFor d yard.old → is_for_rvg d.world (Apply name.now to) ≡ false → Carries d yard.old → LeadsIs d (Apply name.now to) yard.old yard.new result }
    ensures above { (d : Doubted) → StandsFor d yard.old → is_for_rvg d.world (Apply name.now to) ≡ true → LeadsAboveIs d (Apply name.now to) yard.old yard.new result }
    ensures asked { (d : Doubted) → StandsFor d yard.old → is_for_rvg d.world (Apply name.now to) ≡ false → AsAsked d.world (Apply name.now to) yard.old yard.new }
    ensures called { (d : Doubted) → StandsFor d yard.old → is_for_rvg d.world (Apply name.now to) ≡ false → IfOk result (λ said. HasCalled d.world (Apply name.now to) said yard.old yard.new) }
    ensures told { IsTold yard.new → IsTold yard.old }
    ensures files { in_files yard.new ≡ in_files yard.old }
{
    let site = yard.site_of(name);
    if receives(&yard.disk_sets[site]) {
        return apply_received(yard, alloc, name, to);
    }
    match yard.disk_sets[site].apply(to) {
        Ok(number) => Ok(Said::DoneAt(number)),
        Err(no) => {
            let_go_if_down(&mut yard.assemblies, site, &no);
            Ok(refused(alloc, &mut yard.facts[site], no))
        }
    }
}
