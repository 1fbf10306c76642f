// The lines that work on links.
ghost use Rattle.std.specs.Prelude.{◌≡◌, IfOk, IsOk, false, true};
ghost use Rattle.vx_history.specs.Doubts.{Doubted};
ghost use Rattle.vx_events.specs.RvgLinks.{links_rvg};
ghost use Rattle.vx_yard.specs.Carries.{Carries};
ghost use Rattle.vx_yard.specs.LinkLines.{is_on_links};
ghost use Rattle.vx_yard.specs.OfSites.{AsAsked, HasCalled};
ghost use Rattle.vx_yard.specs.Standing.{LeadsIs, StandsFor};
ghost use Rattle.vx_yard.specs.Working.{IsFree, takes_memory};
ghost use Rattle.vx_yard.specs.Yards.{IsYardKept, IsTold, in_files};

use crate::connect::connect_line;
use crate::cut::cut_line;
use crate::linking::link_line;
use crate::pause::pause_line;
use crate::pump::pump_line;
use crate::resume::resume_line;
use crate::set::set_line;
use crate::tick::tick_line;
use crate::wait::wait_line;
use std::alloc::Global;
use vx_disk::Rack;
use vx_events::Said;
use vx_model::OutOfMemory;
use vx_script::ScriptLine;
use vx_yard::Yard;

/// Does a line on links that no test refuses.
pub fn work_link<R: Rack>(
    yard: &mut Yard<R>,
    alloc: Global,
    words: &ScriptLine,
) -> Result<Said, OutOfMemory>
    requires kind { is_on_links words.now ≡ true }
    requires kept { IsYardKept yard.old }
    requires free { IsFree yard.old words.now }
    ensures leads { (d : Doubted) → StandsFor d yard.old → links_rvg d.world words.now ≡ false → Carries d yard.old → LeadsIs d words.now yard.old yard.new result }
    ensures asked { (d : Doubted) → StandsFor d yard.old → links_rvg d.world words.now ≡ false → AsAsked d.world words.now yard.old yard.new }
    ensures called { (d : Doubted) → StandsFor d yard.old → links_rvg d.world words.now ≡ false → IfOk result (λ said. HasCalled d.world words.now said yard.old yard.new) }
    // Memory is short for no line that takes none.
    ensures whole { takes_memory words.now ≡ false → IsOk result }
    ensures told { IsTold yard.new → IsTold yard.old }
    ensures files { in_files yard.new ≡ in_files yard.old }
{
    match words {
        ScriptLine::Link {
            primary,
            secondary,
            sync,
            prot: _,
        } => link_line(yard, alloc, primary, secondary, *sync),
        ScriptLine::Set {
            primary,
            secondary,
            sync,
            prot: _,
        } => set_line(yard, alloc, primary, secondary, *sync),
        ScriptLine::Connect { primary, secondary } => connect_line(yard, primary, secondary),
        ScriptLine::Cut { primary, secondary } => Ok(cut_line(yard, primary, secondary)),
        ScriptLine::Pause { primary, secondary } => Ok(pause_line(yard, primary, secondary)),
        ScriptLine::Resume { primary, secondary } => Ok(resume_line(yard, primary, secondary)),
        ScriptLine::Pump { primary, secondary } => pump_line(yard, alloc, primary, secondary),
        ScriptLine::Tick { primary, secondary } => Ok(tick_line(yard, primary, secondary)),
        ScriptLine::Wait { site, number } => Ok(wait_line(yard, site, *number)),
        // A line that is not on links.
        _ => unreachable!(),
    }
}
