// The packet of an update that is handed to its target.
ghost use Rattle.std.specs.Prelude.{◌≡◌, ◌+◌, ◌≤◌, ℕ, Some, None, IfOk, OnErr, true};
ghost use Rattle.vx_courier.specs.Together.{AreOne, AssemblyStands};
ghost use Rattle.vx_courier.specs.UnderWay.{FlightStands};
ghost use Rattle.vx_history.specs.Events.{packet_at};
ghost use Rattle.vx_history.specs.World.{Packet, Update as PlainUpdate, World};
ghost use Rattle.vx_model.specs.Content.{Write};
ghost use Rattle.vx_net.specs.Flights.{greatest_packet};
ghost use Rattle.vx_packet.specs.Messages.{IsCounted};
ghost use Rattle.vx_peers.specs.Receivers.{DeliveredAt, ReceivesWrites, SendsOn, TookOne, rule_at};
ghost use Rattle.vx_rvg.specs.Holdings.{update_of};
ghost use Rattle.vx_secondary.specs.Receivers.{can_log};

use crate::hearing::gather;
use vx_courier::send_message;
use vx_disk::Shelf;
use vx_history::Said;
use vx_model::limits::MOST_NUMBER;
use vx_model::{Line, OutOfMemory};
use vx_net::Net;
use vx_packet::{Assembly, Envelope, Message, decode};
use vx_receiver::RAction;
use vx_secondary::Secondary;

// Sends an acknowledgement from memory.
fn acknowledge<N: Net>(flight: &mut N, from: u32, to: u32, line: &Line, session: u64, number: u64)
    requires generation { IsCounted line.now.generation }
    requires session { IsCounted session }
    requires number { IsCounted number }
    ensures sends { SendsOn from to line.now session number (N.flying flight.old) (N.flying flight.new) }
{
    let envelope = Envelope {
        source: from,
        target: to,
        line: *line,
    };
    send_message(flight, &envelope, &Message::NetAck { session, number });
}

/// Hands the packet of a number, which is of an update, to the site that receives it. A site that is halted ignores it. `fed_by` is the site
/// that sent the last update that it took, and `site` its own number.
///
/// It takes no memory. Numbers, sessions and generations past those that packets carry are answered as want of memory, which changes
/// nothing.
pub fn deliver_update<S: Shelf, N: Net>(
    secondary: &mut Secondary<S>,
    fed_by: &mut u32,
    assembly: &mut Assembly,
    site: u32,
    flight: &mut N,
    number: u64,
) -> Result<Said, OutOfMemory>
    ensures delivered { (w : World) (p : Packet) (k : ℕ) (x : Write) → packet_at w.packets number ≡ Some p → p.target ≡ site → p.message ≡ PlainUpdate k x
        → AreOne w.packets → FlightStands w.packets (N.flying flight.old) → ReceivesWrites (w.nodes site) secondary.old.rvg.core secondary.old.waiting fed_by.old
        → AssemblyStands w.packets site (w.gathering site) assembly.old
        → (p.line ≡ secondary.old.rvg.core.log.header.state.line → can_log secondary.old.rvg.core (S.meaning secondary.old.rvg.shelf).size (update_of p.line k x) ≡ true)
        → IfOk result (λ said. DeliveredAt w site number secondary.new.rvg.core secondary.new.waiting fed_by.new assembly.new (N.flying flight.new) said) }
    // Whatever is in assembly.
    ensures took { (w : World) (p : Packet) (k : ℕ) (x : Write) → packet_at w.packets number ≡ Some p → p.message ≡ PlainUpdate k x → FlightStands w.packets (N.flying flight.old)
        → secondary.old.rvg.core.halted ≡ None
        → IfOk result (λ said. TookOne (rule_at secondary.old.rvg.core secondary.old.waiting p.line k) p.source site secondary.old.rvg.core secondary.old.waiting secondary.new.waiting fed_by.old fed_by.new assembly.old assembly.new (N.flying flight.old) (N.flying flight.new) said) }
    ensures group { secondary.new.rvg ≡ secondary.old.rvg }
    ensures waiting { OnErr result (secondary.new.waiting ≡ secondary.old.waiting) }
    ensures fed_by { OnErr result (fed_by.new ≡ fed_by.old) }
    ensures assembly { OnErr result (assembly.new ≡ assembly.old) }
    ensures unsent { OnErr result (N.flying flight.new ≡ N.flying flight.old) }
{
    let line = secondary.rvg.state().line;
    let session = secondary.rvg.session();
    if flight.count() >= MOST_NUMBER || session > MOST_NUMBER || line.generation > MOST_NUMBER {
        return Err(OutOfMemory);
    }
    if let Some(_) = secondary.rvg.halted() {
        return Ok(Said::Ignored);
    }
    let Some(bytes) = flight.get(number) else {
        return Ok(Said::Ignored);
    };
    let Some(part) = decode(bytes) else {
        return Ok(Said::Ignored);
    };
    match secondary.rule_for(&part.line, part.number) {
        RAction::Take { ack } => {
            if ack > MOST_NUMBER {
                return Err(OutOfMemory);
            }
            match gather(secondary, assembly, bytes, &part) {
                Some(true) => {
                    *fed_by = part.source;
                    acknowledge(flight, site, part.source, &line, session, ack);
                    Ok(Said::Taken)
                }
                Some(false) => Ok(Said::Taken),
                None => Ok(Said::Ignored),
            }
        }
        RAction::IgnoredAck { number } => {
            if number > MOST_NUMBER {
                return Err(OutOfMemory);
            }
            acknowledge(flight, site, part.source, &line, session, number);
            Ok(Said::Ignored)
        }
        RAction::Nothing | RAction::Ignored | RAction::DataAck { number: _ } => Ok(Said::Ignored),
    }
}
