// A message on its way, in its parts.
ghost use Rattle.std.specs.Prelude.{◌≡◌, ◌+◌, ◌≤◌, ◌++◌, List};
ghost use Rattle.vx_courier.specs.UnderWay.{FlightStands};
ghost use Rattle.vx_history.specs.Sends.{packets_of, parts_of};
ghost use Rattle.vx_history.specs.World.{Message as PlainMessage, Packet};
ghost use Rattle.vx_net.specs.Flights.{greatest_packet};
ghost use Rattle.vx_packet.specs.Messages.{CanSpellMessage, IsCounted, IsTyped, count_of_parts as parts_in_bytes};
ghost use Rattle.vx_parts.specs.Spelling.{spelled_message};

use vx_model::Line;
use vx_net::Net;
use vx_packet::{Envelope, Message, encode, parts};

fn origin_of(line: &Line) -> u32
    ensures { result ≡ line.now.origin }
{
    line.origin
}

// The numbers of a message are of their types, which a contract learns where they are read.
fn is_typed(message: &Message<'_>)
    ensures { IsTyped message.now }
{
    match message {
        Message::Update {
            number: _,
            vol,
            block,
            bytes: _,
        } => {
            let _vol = *vol;
            let _block = *block;
        }
        Message::Region {
            id: _,
            vol,
            region,
            bytes: _,
        } => {
            let _vol = *vol;
            let _region = *region;
        }
        Message::RegionAck {
            id: _,
            vol,
            region,
            kind: _,
        } => {
            let _vol = *vol;
            let _region = *region;
        }
        Message::Fork { fork: _, parent } => {
            let _origin = origin_of(parent);
        }
        Message::ForkMap {
            vol,
            regions,
            bytes: _,
        } => {
            let _vol = *vol;
            let _regions = *regions;
        }
        Message::Hello {
            session: _,
            number: _,
            stored: _,
        }
        | Message::NetAck {
            session: _,
            number: _,
        }
        | Message::DataAck { number: _ }
        | Message::ReplayStart { id: _, start: _ }
        | Message::RegionsDone {
            id: _,
            start: _,
            end: _,
        }
        | Message::Handover { head: _ }
        | Message::Trim { number: _ } => {}
    }
}

/// Sends a message, in a packet for each of its parts, in their order.
pub fn send_message<N: Net>(flight: &mut N, envelope: &Envelope, message: &Message<'_>)
    requires generation { IsCounted envelope.now.line.generation }
    requires message { CanSpellMessage message.now }
    ensures sends { (ps : List Packet) (m : PlainMessage) → message.now ≡ spelled_message m → FlightStands ps (N.flying flight.old)
        → (N.flying flight.old).count + parts_of m ≤ greatest_packet
        → FlightStands (ps ++ packets_of envelope.now.source envelope.now.target envelope.now.line m) (N.flying flight.new) }
    ensures count { (N.flying flight.new).count ≤ (N.flying flight.old).count + parts_in_bytes message.now }
{
    is_typed(message);
    let count = parts(message);
    for part in 0..count {
        let mut room = [0; 1072];
        let len = encode(envelope, message, part, &mut room);
        let _number = flight.send(&room[..len]);
    }
}
