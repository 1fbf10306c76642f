// Packets that are handed to their targets.
ghost use Rattle.std.specs.Prelude.{◌≡◌, ◌<◌, length, IfOk};
ghost use Rattle.vx_history.specs.Refusals.{says};
ghost use Rattle.vx_history.specs.Events.{handed, heard, gathers, is_taken as takes};
ghost use Rattle.vx_history.specs.Step.{outcome_of};
ghost use Rattle.vx_history.specs.declared.event.Event.TheVariants.{Deliver};
ghost use Rattle.vx_sites.specs.Shapes.{world_of, packet_of};
ghost use Rattle.vx_sites.specs.Messages.{message_of};

use crate::hearing::hear_on_link;
use crate::receiving::hear_update;
use crate::targets::is_open;
use vx_history::{SEvent, Said};
use vx_model::{Named, No, OutOfMemory};
use vx_sites::{Message, Packet, World};

/// A packet is handed to its target, which puts the parts of a message together. Refused with 1.
pub fn deliver(world: &mut World, number: u64) -> Result<Said, OutOfMemory>
    ensures { IfOk result (λ said. says (world_of world.new) said ≡ outcome_of (world_of world.old) (Deliver number)) }
{
    match world.packet(number)? {
        Some(packet) => hand_on(world, &packet),
        None => Ok(Said::Refused(No::Unknown {
            what: Named::Number(number),
        })),
    }
}

// What is taken or kept takes the one place of assembly of the packet's target.
fn hand_on(world: &mut World, packet: &Packet) -> Result<Said, OutOfMemory>
    ensures { IfOk result (λ said. let p = packet_of packet.now in says (world_of world.new) said ≡ gathers p (handed (world_of world.old) p)) }
{
    let said = hand(world, packet)?;
    if is_taken(&said) {
        world.gather(packet)?;
    }
    Ok(said)
}

fn is_taken(said: &Said) -> bool
    ensures { result ≡ takes said.now }
{
    match said {
        Said::Taken => true,
        Said::Done
        | Said::DoneAt(_)
        | Said::Logged(_)
        | Said::Pending(_)
        | Said::Got(_)
        | Said::Ignored
        | Said::Recovered(_)
        | Said::Refused(_) => false,
    }
}

// The packet comes to its target, which ignores it where it is not up or is halted.
fn hand(world: &mut World, packet: &Packet) -> Result<Said, OutOfMemory>
    ensures { IfOk result (λ said. says (world_of world.new) said ≡ handed (world_of world.old) (packet_of packet.now)) }
{
    if is_open(world, packet.target) {
        hear(world, packet)
    } else {
        Ok(Said::Ignored)
    }
}

// The target hears the message of the packet.
fn hear(world: &mut World, packet: &Packet) -> Result<Said, OutOfMemory>
    requires { packet.now.target < length world.old.nodes.items }
    ensures { IfOk result (λ said. says (world_of world.new) said ≡ heard (world_of world.old) (packet_of packet.now) (message_of packet.now.message)) }
{
    match &packet.message {
        Message::Hello {
            session,
            number,
            stored,
        } => hear_on_link(
            world,
            packet,
            &SEvent::Hello {
                session: *session,
                number: *number,
                stored: *stored,
            },
        ),
        Message::Update { number, write } => hear_update(world, packet, *number, write),
        Message::NetAck { session, number } => hear_on_link(
            world,
            packet,
            &SEvent::NetAck {
                session: *session,
                number: *number,
            },
        ),
        Message::DataAck { number } => hear_on_link(
            world,
            packet,
            &SEvent::DataAck { number: *number },
        ),
    }
}
