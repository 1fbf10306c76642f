// Updates are sent on a link.
ghost use Rattle.std.specs.Prelude.{◌≡◌, ◌<◌, length, IfOk, OnOk};
ghost use Rattle.vx_history.specs.Refusals.{says};
ghost use Rattle.vx_history.specs.Sends.{sending, sent_by};
ghost use Rattle.vx_history.specs.Events.{link_event};
ghost use Rattle.vx_history.specs.Step.{outcome_of};
ghost use Rattle.vx_history.specs.declared.sender.SEvent.TheVariants.{Pump as PumpLink};
ghost use Rattle.vx_history.specs.declared.event.Event.TheVariants.{Pump};
ghost use Rattle.vx_sites.specs.Shapes.{world_of};

use crate::rule::move_link;
use vx_history::{Action, SEvent, Said};
use vx_model::OutOfMemory;
use vx_sites::World;
use vx_sites::refusals::{refuse_dead, refuse_link};

/// What the receiver may lack is sent: durable writes, up to `MOST_AHEAD` numbers past the last acknowledged one. Refused with 1, 5, 6, 20,
/// 14 and 23.
pub fn pump(world: &mut World, from: u32, to: u32) -> Result<Said, OutOfMemory>
    ensures { IfOk result (λ said. says (world_of world.new) said ≡ outcome_of (world_of world.old) (Pump from to)) }
{
    if let Some(no) = refuse_link(world, from, to) {
        return Ok(Said::Refused(no));
    }
    if let Some(no) = refuse_dead(world, to, &world.link(from, to)) {
        return Ok(Said::Refused(no));
    }
    pump_link(world, from, to)?;
    Ok(Said::Done)
}

// The link after a pump, and the updates that its rule asks for.
fn pump_link(world: &mut World, from: u32, to: u32) -> Result<(), OutOfMemory>
    requires { from < length world.old.nodes.items }
    ensures { OnOk result (world_of world.new ≡ link_event (world_of world.old) from to PumpLink) }
{
    let action = move_link(world, from, to, &SEvent::Pump)?;
    send_by(world, from, to, &action)?;
    Ok(())
}

// Sends what the action asks for.
fn send_by(world: &mut World, from: u32, to: u32, action: &Action) -> Result<(), OutOfMemory>
    requires { from < length world.old.nodes.items }
    ensures { OnOk result (let w = world_of world.old in world_of world.new ≡ sending w (sent_by action.now from to (w.nodes from))) }
{
    match action {
        Action::Updates {
            from: first,
            to: last,
        } => world.send_updates(from, to, *first, *last),
        Action::Nothing | Action::Ignored | Action::Taken => Ok(()),
    }
}
