// The test of a packet's number.
ghost use Rattle.std.specs.Prelude.{◌≡◌};
ghost use Rattle.vx_order.specs.Packets.{packet_unknown};

use vx_model::limits::MOST_PACKETS;
use vx_model::{Named, No};

/// What a `deliver` line is refused: 1, where of the packets that were sent, the first under number 1, none that the network
/// still keeps has this number.
pub fn refuse_packet(sent: u64, number: u64) -> Option<No>
    ensures { result ≡ packet_unknown sent number }
{
    if number == 0 || sent < number || sent - number >= MOST_PACKETS as u64 {
        Some(No::Unknown {
            what: Named::Number(number),
        })
    } else {
        None
    }
}
