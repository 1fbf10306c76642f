// What the rule of a link makes of it.
ghost use Rattle.std.specs.Prelude.{◌≡◌, ◌<◌, length, IfOk};
ghost use Rattle.vx_history.specs.Sends.{with_link};
ghost use Rattle.vx_history.specs.LinkForms.{with_plain};
ghost use Rattle.vx_history.specs.Events.{link_step};
ghost use Rattle.vx_sites.specs.Shapes.{world_of};

use vx_history::{Action, SEvent, SFacts};
use vx_model::OutOfMemory;
use vx_sites::World;

/// The link after an event of the line on which its site stands, and what is then to be done.
pub fn move_link(
    world: &mut World,
    from: u32,
    to: u32,
    event: &SEvent,
) -> Result<Action, OutOfMemory>
    requires { from < length world.old.nodes.items }
    ensures moved { let w = world_of world.old in IfOk result (λ action. world_of world.new ≡ with_link w from to (with_plain (w.links from to) (link_step w from to event.now).link)) }
    ensures action { IfOk result (λ action. action ≡ (link_step (world_of world.old) from to event.now).action) }
{
    let facts = SFacts {
        safe: world.node(from).safe,
        line_ok: true,
    };
    let link = world.link(from, to);
    let mut state = link.plain(to);
    let action = vx_sender::step(&mut state, event, &facts);
    world.set_link(from, to, link.with_plain(&state))?;
    Ok(action)
}
