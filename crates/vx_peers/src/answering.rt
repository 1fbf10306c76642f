// The packet of a greeting or an acknowledgement that is handed to the sending end of a link.
ghost use Rattle.std.specs.Prelude.{◌≡◌, ℕ, Some, true};
ghost use Rattle.vx_courier.specs.Together.{AreOne, AssemblyStands};
ghost use Rattle.vx_courier.specs.UnderWay.{FlightStands};
ghost use Rattle.vx_history.specs.Events.{delivered, packet_at};
ghost use Rattle.vx_history.specs.LinkForms.{plain_link};
ghost use Rattle.vx_history.specs.World.{Packet, World};
ghost use Rattle.vx_peers.specs.Answers.{AnsweredAt, Listens, PartAnsweredAt, event_in, is_answer};

use vx_courier::read_one;
use vx_history::Said;
use vx_model::{Line, Link};
use vx_net::Net;
use vx_packet::{Assembly, Message, decode};
use vx_sender::{Action, SEvent, SFacts};

// What a message is to the sending end of a link: none but a greeting or an acknowledgement.
fn event_of(message: &Message<'_>) -> Option<SEvent>
    ensures { result ≡ event_in message.now }
{
    match message {
        Message::Hello {
            session,
            number,
            stored,
        } => Some(SEvent::Hello {
            session: *session,
            number: *number,
            stored: *stored,
        }),
        Message::NetAck { session, number } => Some(SEvent::NetAck {
            session: *session,
            number: *number,
        }),
        Message::DataAck { number } => Some(SEvent::DataAck { number: *number }),
        _ => None,
    }
}

/// Hands the packet of a number, which is of a greeting or an acknowledgement, to the site whose link goes to its sender. `safe` is the
/// number of the site's last durable write, and `line` the line on which it stands. It takes no memory.
pub fn deliver_answer<N: Net>(
    link: &mut Link,
    safe: u64,
    line: &Line,
    assembly: &mut Assembly,
    flight: &N,
    number: u64,
) -> Said
    ensures exact { (w : World) (p : Packet) (site : ℕ) → packet_at w.packets number ≡ Some p → p.target ≡ site → is_answer p.message ≡ true → AreOne w.packets
        → FlightStands w.packets (N.flying flight.now) → Listens (w.nodes site) (w.links site p.source) safe line.now → link.old ≡ plain_link p.source (w.links site p.source)
        → AssemblyStands w.packets site (w.gathering site) assembly.old
        → AnsweredAt w site p.source number link.new assembly.new (N.flying flight.now) result }
    // Whatever is in assembly: it is one part.
    ensures part { (w : World) (p : Packet) (site : ℕ) → packet_at w.packets number ≡ Some p → p.target ≡ site → is_answer p.message ≡ true
        → FlightStands w.packets (N.flying flight.now) → Listens (w.nodes site) (w.links site p.source) safe line.now → link.old ≡ plain_link p.source (w.links site p.source)
        → PartAnsweredAt w site p.source number link.new (N.flying flight.now) result }
{
    let Some(bytes) = flight.get(number) else {
        return Said::Ignored;
    };
    let Some(part) = decode(bytes) else {
        return Said::Ignored;
    };
    let Some(message) = read_one(bytes, &part) else {
        return Said::Ignored;
    };
    let Some(event) = event_of(&message) else {
        return Said::Ignored;
    };
    let facts = SFacts {
        safe,
        line_ok: part.line == *line,
    };
    match vx_sender::step(link, &event, &facts) {
        Action::Taken => {
            let _whole = assembly.take(bytes, &part);
            Said::Taken
        }
        Action::Nothing | Action::Ignored | Action::Updates { from: _, to: _ } => Said::Ignored,
    }
}

/// The link as `deliver_answer` would leave it, which it does not do.
pub fn heard_link<N: Net>(link: &Link, safe: u64, line: &Line, flight: &N, number: u64) -> Link
    ensures { (w : World) (p : Packet) (site : ℕ) → packet_at w.packets number ≡ Some p → p.target ≡ site → is_answer p.message ≡ true
        → FlightStands w.packets (N.flying flight.now) → Listens (w.nodes site) (w.links site p.source) safe line.now → link.now ≡ plain_link p.source (w.links site p.source)
        → result ≡ plain_link p.source ((delivered w number (packet_at w.packets number)).world.links site p.source) }
{
    let Some(bytes) = flight.get(number) else {
        return *link;
    };
    let Some(part) = decode(bytes) else {
        return *link;
    };
    let Some(message) = read_one(bytes, &part) else {
        return *link;
    };
    let Some(event) = event_of(&message) else {
        return *link;
    };
    let facts = SFacts {
        safe,
        line_ok: part.line == *line,
    };
    let mut heard = *link;
    let _action = vx_sender::step(&mut heard, &event, &facts);
    heard
}
