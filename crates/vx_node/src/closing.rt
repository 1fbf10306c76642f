// Whether a run ends at a line: no test refuses it, and it is open.
ghost use Rattle.std.specs.Prelude.{◌≡◌, None, Some, false, true};
ghost use Rattle.vx_history.specs.Doubts.{Doubted};
ghost use Rattle.vx_events.specs.OpenLines.{EndsRun, is_open};
ghost use Rattle.vx_events.specs.RvgSteps.{over_rvg_at};
ghost use Rattle.vx_yard.specs.Carries.{Carries};
ghost use Rattle.vx_yard.specs.Standing.{StandsFor};
ghost use Rattle.vx_yard.specs.Working.{IsFree};
ghost use Rattle.vx_yard.specs.Yards.{IsYardKept, in_files};
ghost use Rattle.vx_node.specs.OpenSites.{open_second, open_site};

use crate::answering::refusal;
use vx_disk::Rack;
use vx_group_lines::has_rvg;
use vx_model::Name;
use vx_script::ScriptLine;
use vx_yard::Yard;

// A site at which a line is open, where a replicated volume group is over its group.
fn open_site(line: &ScriptLine) -> Option<Name>
    ensures { result ≡ open_site line.now }
{
    match line {
        ScriptLine::Link { primary, .. } => Some(*primary),
        _ => None,
    }
}

// Another one at which it is.
fn open_second(line: &ScriptLine) -> Option<Name>
    ensures { result ≡ open_second line.now }
{
    match line {
        ScriptLine::Link { secondary, .. } => Some(*secondary),
        _ => None,
    }
}

// A line of whose first site it is known that it has none.
fn is_open_beside<R: Rack>(yard: &Yard<R>, line: &ScriptLine, site: &Name) -> bool
    requires kept { IsYardKept yard.now }
    requires free { IsFree yard.now line.now }
    requires there { open_site line.now ≡ Some site.now }
    ensures { (d : Doubted) → StandsFor d yard.now → over_rvg_at d.world site.now ≡ false → result ≡ is_open d.world line.now }
{
    match open_second(line) {
        Some(second) => has_rvg(yard, &second),
        None => false,
    }
}

// One that may be open at this site.
fn is_open_from<R: Rack>(yard: &Yard<R>, line: &ScriptLine, site: &Name) -> bool
    requires kept { IsYardKept yard.now }
    requires free { IsFree yard.now line.now }
    requires there { open_site line.now ≡ Some site.now }
    ensures { (d : Doubted) → StandsFor d yard.now → result ≡ is_open d.world line.now }
{
    if has_rvg(yard, site) {
        true
    } else {
        is_open_beside(yard, line, site)
    }
}

// Any that no test refuses.
fn is_open_at<R: Rack>(yard: &Yard<R>, line: &ScriptLine) -> bool
    requires kept { IsYardKept yard.now }
    requires free { IsFree yard.now line.now }
    ensures { (d : Doubted) → StandsFor d yard.now → result ≡ is_open d.world line.now }
{
    match open_site(line) {
        Some(site) => is_open_from(yard, line, &site),
        None => false,
    }
}

/// Whether a run ends at the line.
pub(crate) fn ends_run<R: Rack>(yard: &Yard<R>, line: &ScriptLine) -> bool
    requires kept { IsYardKept yard.now }
    ensures ends { result ≡ true → (d : Doubted) → StandsFor d yard.now → Carries d yard.now → EndsRun (in_files yard.now) d.world line.now }
    ensures closed { result ≡ false → IsFree yard.now line.now → (d : Doubted) → StandsFor d yard.now → Carries d yard.now → is_open d.world line.now ≡ false }
{
    match refusal(yard, line) {
        Some(_) => false,
        None => is_open_at(yard, line),
    }
}
