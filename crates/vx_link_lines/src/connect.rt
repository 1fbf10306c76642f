// The line that connects a link.
ghost use Rattle.std.specs.Prelude.{◌≡◌, IfOk};
ghost use Rattle.vx_history.specs.Doubts.{Doubted};
ghost use Rattle.vx_script.specs.declared.line.ScriptLine.TheVariants.{Connect};
ghost use Rattle.vx_yard.specs.Carries.{Carries};
ghost use Rattle.vx_yard.specs.Standing.{LeadsIs, StandsFor};
ghost use Rattle.vx_yard.specs.Working.{IsFree};
ghost use Rattle.vx_yard.specs.Yards.{IsYardKept, in_files};

use vx_disk::Rack;
use vx_events::Said;
use vx_linked::connect;
use vx_model::{Name, OutOfMemory};
use vx_yard::Yard;

/// Connects the link of a site to another, which greets it.
pub fn connect_line<R: Rack>(
    yard: &mut Yard<R>,
    first: &Name,
    second: &Name,
) -> Result<Said, OutOfMemory>
    requires kept { IsYardKept yard.old }
    requires free { IsFree yard.old (Connect first.now second.now) }
    ensures leads { (d : Doubted) → StandsFor d yard.old → Carries d yard.old → LeadsIs d (Connect first.now second.now) yard.old yard.new result }
    ensures still { yard.new.disk_sets ≡ yard.old.disk_sets }
    ensures done { IfOk result (λ said. said ≡ Said.Done) }
    ensures files { in_files yard.new ≡ in_files yard.old }
{
    let there = yard.site_of(second);
    let session = yard.disk_sets[there].session();
    let stored = yard.disk_sets[there].last();
    connect(
        &mut yard.facts,
        first,
        second,
        session,
        stored,
        &mut yard.flight,
    )?;
    Ok(Said::Done)
}
