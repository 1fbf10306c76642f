// Updates that sites hear.
ghost use Rattle.std.specs.Prelude.{◌≡◌, ◌<◌, ◌-◌, min, length, IfOk, OnOk};
ghost use Rattle.vx_model.specs.declared.limits.TheConstants.{MOST_WAITING};
ghost use Rattle.vx_history.specs.Refusals.{says};
ghost use Rattle.vx_history.specs.LinkForms.{plain_receiver};
ghost use Rattle.vx_history.specs.Receiving.{received_step};
ghost use Rattle.vx_history.specs.Events.{from_memory, update_heard, update_taken, taken_if};
ghost use Rattle.vx_history.specs.Gatherings.{completes};
ghost use Rattle.vx_history.specs.declared.receiver.REvent.TheVariants.{Update};
ghost use Rattle.vx_sites.specs.Shapes.{world_of, node_of, packet_of};

use vx_history::{RAction, REvent, RState, Said};
use vx_model::limits::MOST_WAITING;
use vx_model::{Line, OutOfMemory, is_origin};
use vx_sites::{Dispatch, Message, Node, Packet, World, Write};

/// The target hears an update. A site where writes arise ignores it.
pub fn hear_update(
    world: &mut World,
    packet: &Packet,
    number: u64,
    write: &Write,
) -> Result<Said, OutOfMemory>
    requires { packet.now.target < length world.old.nodes.items }
    ensures { IfOk result (λ said. says (world_of world.new) said ≡ update_heard (world_of world.old) (packet_of packet.now) number write.now) }
{
    let node = world.node(packet.target);
    if is_origin(&node.role) {
        return Ok(Said::Ignored);
    }
    let action = find_action(node, &packet.line, number);
    follow(world, packet, write, &action)
}

// Does what the rule of receivers says of an update: it is taken and acknowledged, acknowledged again, or ignored.
fn follow(
    world: &mut World,
    packet: &Packet,
    write: &Write,
    action: &RAction,
) -> Result<Said, OutOfMemory>
    requires { packet.now.target < length world.old.nodes.items }
    ensures { IfOk result (λ said. says (world_of world.new) said ≡ update_taken (world_of world.old) (packet_of packet.now) write.now action.now) }
{
    match action {
        RAction::Take { ack } => take(world, packet, write, *ack),
        RAction::IgnoredAck { number } => {
            acknowledge(world, packet, *number)?;
            Ok(Said::Ignored)
        }
        RAction::Nothing | RAction::Ignored | RAction::DataAck { .. } => Ok(Said::Ignored),
    }
}

// An update that is whole is taken and acknowledged; of one that is not the part is kept.
fn take(world: &mut World, packet: &Packet, write: &Write, ack: u64) -> Result<Said, OutOfMemory>
    requires { packet.now.target < length world.old.nodes.items }
    ensures { IfOk result (λ said. let w = world_of world.old in let p = packet_of packet.now in says (world_of world.new) said ≡ taken_if (completes (w.gathering p.target) p) w p write.now ack) }
{
    if !world.completes(packet)? {
        return Ok(Said::Taken);
    }
    world.receive(packet.target, packet.source, *write)?;
    acknowledge(world, packet, ack)?;
    Ok(Said::Taken)
}

// The target acknowledges this number from memory.
fn acknowledge(world: &mut World, packet: &Packet, number: u64) -> Result<(), OutOfMemory>
    requires { packet.now.target < length world.old.nodes.items }
    ensures { OnOk result (let w = world_of world.old in world_of world.new ≡ from_memory w (w.nodes packet.now.target) (packet_of packet.now) number) }
{
    let node = world.node(packet.target);
    let answer = Dispatch {
        source: packet.target,
        target: packet.source,
        line: node.line,
        message: Message::NetAck {
            session: node.session,
            number,
        },
    };
    world.send(answer)
}

// What the rule of receivers says of an update of this line.
fn find_action(node: &Node, line: &Line, number: u64) -> RAction
    ensures { result ≡ (received_step (plain_receiver (node_of node.now)) (Update line.now number)).action }
{
    let mut state = receiver(node);
    vx_receiver::step(
        &mut state,
        &REvent::Update {
            line: *line,
            number,
        },
    )
}

// The site in the form that the rule of receivers takes. More waiting records than there may be count as `MOST_WAITING`, at which no update is
// taken.
fn receiver(node: &Node) -> RState
    ensures { let n = node_of node.now in result ≡ record (plain_receiver n) { waiting = min (length n.log - n.safe) MOST_WAITING } }
{
    let last = node.log.len() as u64;
    RState {
        line: node.line,
        last,
        waiting: last.saturating_sub(node.safe).min(MOST_WAITING) as u32,
        session: node.session,
        mark: node.mark,
        phase: node.phase,
        replay: node.replay,
        end: node.end,
    }
}
