// The line that pauses a link.
ghost use Rattle.std.specs.Prelude.{◌≡◌};
ghost use Rattle.vx_history.specs.Doubts.{Doubted};
ghost use Rattle.vx_script.specs.declared.line.ScriptLine.TheVariants.{Pause};
ghost use Rattle.vx_yard.specs.Carries.{Carries};
ghost use Rattle.vx_yard.specs.Standing.{Leads, StandsFor};
ghost use Rattle.vx_yard.specs.Working.{IsFree};
ghost use Rattle.vx_yard.specs.Yards.{in_files};

use vx_disk::Rack;
use vx_events::Said;
use vx_linked::pause;
use vx_model::Name;
use vx_yard::Yard;

/// The link of a site to another is paused.
pub(crate) fn pause_line<R: Rack>(yard: &mut Yard<R>, first: &Name, second: &Name) -> Said
    requires free { IsFree yard.old (Pause first.now second.now) }
    ensures leads { (d : Doubted) → StandsFor d yard.old → Carries d yard.old → Leads d (Pause first.now second.now) result yard.old yard.new }
    ensures still { yard.new.disk_sets ≡ yard.old.disk_sets }
    ensures files { in_files yard.new ≡ in_files yard.old }
{
    pause(&mut yard.facts, first, second);
    Said::Done
}
