// Updates on their way.
ghost use Rattle.std.specs.Prelude.{◌≡◌, ◌+◌, ◌*◌, ◌≤◌, ◌++◌, List, length, map};
ghost use Rattle.vx_courier.specs.UnderWay.{FlightStands};
ghost use Rattle.vx_history.specs.Sends.{packets_of, updates as updates_of};
ghost use Rattle.vx_history.specs.World.{Packet, Update as PlainUpdate};
ghost use Rattle.vx_net.specs.Flights.{greatest_packet};
ghost use Rattle.vx_packet.specs.Messages.{IsCounted};
ghost use Rattle.vx_rvg.specs.Contents.{write_of_update};

use vx_courier::send_message;
use vx_model::Update;
use vx_model::limits::MOST_NUMBER;
use vx_net::Net;
use vx_packet::{BlockBytes, Envelope, Message};

// Sends an update.
fn send_update<N: Net>(flight: &mut N, envelope: &Envelope, number: u64, update: &Update)
    requires generation { IsCounted envelope.now.line.generation }
    requires number { IsCounted number }
    requires room { (N.flying flight.old).count + 16 ≤ greatest_packet }
    ensures flies { (ps : List Packet) → FlightStands ps (N.flying flight.old)
        → FlightStands (ps ++ packets_of envelope.now.source envelope.now.target envelope.now.line (PlainUpdate number (write_of_update update.now))) (N.flying flight.new) }
    ensures count { (N.flying flight.new).count ≤ (N.flying flight.old).count + 16 }
{
    let message = Message::Update {
        number,
        vol: update.vol,
        block: update.block,
        bytes: BlockBytes::of(&update.bytes),
    };
    send_message(flight, envelope, &message);
}

/// Sends these updates, the first under this number.
pub(crate) fn send_updates<N: Net>(
    flight: &mut N,
    envelope: &Envelope,
    first: u64,
    updates: &[Update],
)
    requires generation { IsCounted envelope.now.line.generation }
    requires numbers { first + length updates.now ≤ MOST_NUMBER + 1 }
    requires room { (N.flying flight.old).count + 16 * length updates.now ≤ greatest_packet }
    ensures flies { (ps : List Packet) → FlightStands ps (N.flying flight.old)
        → FlightStands (ps ++ updates_of envelope.now.source envelope.now.target envelope.now.line first (map write_of_update updates.now)) (N.flying flight.new) }
{
    for (past, update) in updates.iter().enumerate() {
        send_update(flight, envelope, first + past as u64, update);
    }
}
