// A link is connected, and the other end greets.
ghost use Rattle.std.specs.Prelude.{◌≡◌, ◌<◌, length, IfOk, OnOk};
ghost use Rattle.vx_history.specs.Refusals.{says};
ghost use Rattle.vx_history.specs.Sends.{sending};
ghost use Rattle.vx_history.specs.Events.{greets, greeting_back};
ghost use Rattle.vx_history.specs.Step.{outcome_of};
ghost use Rattle.vx_history.specs.declared.event.Event.TheVariants.{Connect};
ghost use Rattle.vx_sites.specs.Shapes.{world_of, node_of};

use crate::rule::move_link;
use crate::targets::is_running;
use vx_history::{SEvent, Said};
use vx_model::{OutOfMemory, is_origin, is_same_line};
use vx_sites::refusals::{is_up, refuse_link};
use vx_sites::{Node, World};

/// The link is connected. The site that it leads to greets the other, where it is up, not halted, and a receiver on its line.
/// Refused with 1, 5, 6 and 20.
pub fn connect(world: &mut World, from: u32, to: u32) -> Result<Said, OutOfMemory>
    ensures { IfOk result (λ said. says (world_of world.new) said ≡ outcome_of (world_of world.old) (Connect from to)) }
{
    if let Some(no) = refuse_link(world, from, to) {
        return Ok(Said::Refused(no));
    }
    move_link(world, from, to, &SEvent::Connect)?;
    greet_back(world, from, to)?;
    Ok(Said::Done)
}

// The site that a link leads to greets the other, if it is to.
fn greet_back(world: &mut World, from: u32, to: u32) -> Result<(), OutOfMemory>
    requires from { from < length world.old.nodes.items }
    requires to { to < length world.old.nodes.items }
    ensures { OnOk result (let w = world_of world.old in world_of world.new ≡ sending w (greeting_back w from to)) }
{
    if is_greeting(world.node(from), world.node(to)) {
        world.greet(to, from)?;
    }
    Ok(())
}

// Whether the second site greets the first, to which a link was connected.
fn is_greeting(here: &Node, there: &Node) -> bool
    ensures { result ≡ greets (node_of here.now) (node_of there.now) }
{
    is_up(there)
        && is_running(there)
        && !is_origin(&there.role)
        && is_same_line(&there.line, &here.line)
}
