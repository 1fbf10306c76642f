// Messages that a link hears of the site that it leads to.
ghost use Rattle.std.specs.Prelude.{◌≡◌, ◌<◌, length, IfOk};
ghost use Rattle.vx_history.specs.Refusals.{says};
ghost use Rattle.vx_history.specs.Sends.{with_link};
ghost use Rattle.vx_history.specs.LinkForms.{plain_link, with_plain};
ghost use Rattle.vx_history.specs.Sending.{sent_step};
ghost use Rattle.vx_history.specs.Events.{receiver_facts, link_heard, said_of_link};
ghost use Rattle.vx_sites.specs.Shapes.{world_of, packet_of};

use vx_history::{Action, SEvent, SFacts, Said, has_links};
use vx_model::{OutOfMemory, is_same_line};
use vx_sites::{Packet, World};

/// The target's link to the source hears a message of it. Without a link there, and at a site that keeps none, it is ignored.
pub fn hear_on_link(world: &mut World, packet: &Packet, event: &SEvent) -> Result<Said, OutOfMemory>
    requires { packet.now.target < length world.old.nodes.items }
    ensures { IfOk result (λ said. says (world_of world.new) said ≡ link_heard (world_of world.old) (packet_of packet.now) event.now) }
{
    if !has_links(&world.node(packet.target).role) {
        return Ok(Said::Ignored);
    }
    if !world.link(packet.target, packet.source).is_linked() {
        return Ok(Said::Ignored);
    }
    let action = change_link(world, packet, event)?;
    Ok(say_of_link(&action))
}

// The link after the message, by its rule, and what the rule says.
fn change_link(world: &mut World, packet: &Packet, event: &SEvent) -> Result<Action, OutOfMemory>
    requires { packet.now.target < length world.old.nodes.items }
    ensures moved { let w = world_of world.old in let p = packet.now in let l = w.links p.target p.source in let r = sent_step (plain_link p.source l) event.now (receiver_facts (w.nodes p.target) p.line) in IfOk result (λ action. world_of world.new ≡ with_link w p.target p.source (with_plain l r.link)) }
    ensures action { let w = world_of world.old in let p = packet.now in let l = w.links p.target p.source in let r = sent_step (plain_link p.source l) event.now (receiver_facts (w.nodes p.target) p.line) in IfOk result (λ action. action ≡ r.action) }
{
    let node = world.node(packet.target);
    let facts = SFacts {
        safe: node.safe,
        line_ok: is_same_line(&packet.line, &node.line),
    };
    let link = world.link(packet.target, packet.source);
    let mut state = link.plain(packet.source);
    let action = vx_sender::step(&mut state, event, &facts);
    world.set_link(packet.target, packet.source, link.with_plain(&state))?;
    Ok(action)
}

fn say_of_link(action: &Action) -> Said
    ensures { result ≡ said_of_link action.now }
{
    match action {
        Action::Taken => Said::Taken,
        Action::Nothing | Action::Ignored | Action::Updates { .. } => Said::Ignored,
    }
}
