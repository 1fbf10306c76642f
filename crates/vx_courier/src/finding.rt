// A packet under its number.
ghost use Rattle.std.specs.Prelude.{◌≡◌, List};
ghost use Rattle.std.specs.Option.{option_map};
ghost use Rattle.vx_courier.specs.UnderWay.{FlightStands, part_carried};
ghost use Rattle.vx_history.specs.Events.{packet_at};
ghost use Rattle.vx_history.specs.World.{Packet};

use vx_net::Net;
use vx_packet::{Part, decode};

/// The part that the packet of a number carries; none where no packet was sent under it, or it is not kept any more.
pub fn part_at<N: Net>(flight: &N, number: u64) -> Option<Part>
    ensures { (ps : List Packet) → FlightStands ps (N.flying flight.now) → result ≡ option_map part_carried (packet_at ps number) }
{
    match flight.get(number) {
        Some(bytes) => decode(bytes),
        None => None,
    }
}
