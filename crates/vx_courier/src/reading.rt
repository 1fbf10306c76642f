// A message that goes in one packet.
ghost use Rattle.std.specs.Prelude.{◌≡◌, Some};
ghost use Rattle.vx_packet.specs.Messages.{IsMessage};
ghost use Rattle.vx_packet.specs.Packets.{IsPacket, payload_in};
ghost use Rattle.vx_packet.specs.declared.message.Message.{Message as MessageValue};

use vx_packet::{Message, Part, read_message};

/// The message of which a packet carries the whole payload. Of a packet that carries a part of a payload nothing is promised.
pub fn read_one<'a>(bytes: &'a [u8], part: &Part) -> Option<Message<'a>>
    requires packet { IsPacket bytes.now part.now }
    ensures only { (m : MessageValue) → IsMessage part.now.kind part.now.session part.now.number (payload_in part.now bytes.now) m → result ≡ Some m }
{
    let end = part.start + part.length as usize;
    read_message(
        part.kind,
        part.session,
        part.number,
        &bytes[part.start..end],
    )
}
