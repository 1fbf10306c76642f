// What was sent on a link counts as lost.
ghost use Rattle.std.specs.Prelude.{◌≡◌, ◌<◌, length, IfOk, OnOk};
ghost use Rattle.vx_history.specs.Refusals.{says};
ghost use Rattle.vx_history.specs.Events.{ticked_at};
ghost use Rattle.vx_history.specs.Step.{outcome_of};
ghost use Rattle.vx_history.specs.declared.event.Event.TheVariants.{Tick};
ghost use Rattle.vx_sites.specs.Shapes.{world_of};

use vx_history::{SEvent, SFacts, Said};
use vx_model::OutOfMemory;
use vx_sites::World;
use vx_sites::refusals::refuse_link;

/// Sending begins again behind what is acknowledged. Refused with 1, 5, 6 and 20.
pub fn tick(world: &mut World, from: u32, to: u32) -> Result<Said, OutOfMemory>
    ensures { IfOk result (λ said. says (world_of world.new) said ≡ outcome_of (world_of world.old) (Tick from to)) }
{
    if let Some(no) = refuse_link(world, from, to) {
        return Ok(Said::Refused(no));
    }
    forget_sent(world, from, to)?;
    Ok(Said::Done)
}

// The link after a tick. A link in memory keeps no regions that were sent.
fn forget_sent(world: &mut World, from: u32, to: u32) -> Result<(), OutOfMemory>
    requires { from < length world.old.nodes.items }
    ensures { OnOk result (world_of world.new ≡ ticked_at (world_of world.old) from to) }
{
    let facts = SFacts {
        safe: world.node(from).safe,
        line_ok: true,
    };
    let link = world.link(from, to);
    let mut state = link.plain(to);
    vx_sender::step(&mut state, &SEvent::Tick, &facts);
    world.set_link(from, to, link.with_plain(&state))?;
    Ok(())
}
