// The line that counts what was sent on a link as lost.
ghost use Rattle.std.specs.Prelude.{◌≡◌};
ghost use Rattle.vx_history.specs.Doubts.{Doubted};
ghost use Rattle.vx_script.specs.declared.line.ScriptLine.TheVariants.{Tick};
ghost use Rattle.vx_yard.specs.Carries.{Carries};
ghost use Rattle.vx_yard.specs.Standing.{Leads, StandsFor};
ghost use Rattle.vx_yard.specs.Working.{IsFree};
ghost use Rattle.vx_yard.specs.Yards.{in_files};

use vx_disk::Rack;
use vx_events::Said;
use vx_linked::tick;
use vx_model::Name;
use vx_yard::Yard;

/// What was sent on the link of a site to another counts as lost.
pub fn tick_line<R: Rack>(yard: &mut Yard<R>, first: &Name, second: &Name) -> Said
    requires free { IsFree yard.old (Tick first.now second.now) }
    ensures leads { (d : Doubted) → StandsFor d yard.old → Carries d yard.old → Leads d (Tick first.now second.now) result yard.old yard.new }
    ensures still { yard.new.disk_sets ≡ yard.old.disk_sets }
    ensures done { result ≡ Said.Done }
    ensures files { in_files yard.new ≡ in_files yard.old }
{
    tick(&mut yard.facts, first, second);
    Said::Done
}
