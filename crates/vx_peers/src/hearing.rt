// A packet of an update, at its receiver.
ghost use Rattle.std.specs.Prelude.{◌≡◌, None};
ghost use Rattle.vx_packet.specs.Packets.{IsPacket, payload_in};
ghost use Rattle.vx_peers.specs.Receivers.{GatheredIs, WaitsBy, update_from, waits_now};

use vx_disk::Shelf;
use vx_model::{No, Update};
use vx_packet::{Assembly, Message, Part, Taken};
use vx_receiver::RAction;
use vx_secondary::Secondary;

// The update that a message is, of the line of its part.
fn update_in(message: &Message<'_>, part: &Part) -> Option<Update>
    ensures { result ≡ update_from message.now part.now.line }
{
    match message {
        Message::Update {
            number,
            vol,
            block,
            bytes,
        } => Some(Update {
            line: part.line,
            number: *number,
            vol: *vol,
            block: *block,
            bytes: bytes.blocks(),
        }),
        _ => None,
    }
}

// Whether an update that was put to a receiver waits now.
fn waits(answer: &Result<RAction, No>) -> Option<bool>
    ensures { result ≡ waits_now answer.now }
{
    match answer {
        Ok(RAction::Take { ack: _ }) => Some(true),
        _ => None,
    }
}

/// Puts a part of an update that can be taken to what is in assembly: whether the update is whole now, and waits. None where it is no
/// update, or none that the group can log.
pub(crate) fn gather<S: Shelf>(
    secondary: &mut Secondary<S>,
    assembly: &mut Assembly,
    bytes: &[u8],
    part: &Part,
) -> Option<bool>
    requires running { secondary.old.rvg.core.halted ≡ None }
    requires packet { IsPacket bytes.now part.now }
    ensures gathered { GatheredIs secondary.old.rvg.core (S.meaning secondary.old.rvg.shelf).size part.now (payload_in part.now bytes.now) secondary.old.waiting assembly.old secondary.new.waiting assembly.new result }
    ensures waits { WaitsBy result secondary.old.waiting secondary.new.waiting }
    ensures group { secondary.new.rvg ≡ secondary.old.rvg }
{
    match assembly.take(bytes, part) {
        Taken::Kept => Some(false),
        Taken::Bad => None,
        Taken::Whole => {
            let message = assembly.message()?;
            let update = update_in(&message, part)?;
            waits(&secondary.take(&update))
        }
    }
}
