// Which messages the table can spell.
ghost use Rattle.std.specs.Prelude.{◌≡◌, ◌↔◌, ◌+◌, ◌/◌, ◌%◌, ◌^◌, length, slice_index, IsTrue};
ghost use Rattle.vx_packet.specs.Messages.{CanSpellMessage, IsAck, IsMap};

use crate::{MapBytes, Message};
use vx_model::limits::MOST_NUMBER;

// Whether an acknowledgement of a replay is one: the start, a region, or the end.
fn is_ack(kind: u8, vol: u32, region: u32) -> bool
    ensures { IsTrue result ↔ IsAck kind vol region }
{
    kind == 1 || (kind == 0 || kind == 2) && vol == 0 && region == 0
}

// Whether the bits behind the last of so many regions are zero.
fn has_unused(regions: u64, bytes: &[u8]) -> bool
    requires { length bytes.now ≡ (regions + 7) / 8 }
    ensures { IsTrue result ↔ (slice_index bytes.now (regions / 8) / 2 ^ (regions % 8) ≡ 0) }
{
    let used = regions % 8;
    used == 0 || bytes[(regions / 8) as usize] >> used == 0
}

// Whether there is a bit for each of so many regions, and zeros behind them in the last byte.
fn is_map(regions: u64, bytes: &MapBytes<'_>) -> bool
    ensures { IsTrue result ↔ IsMap regions bytes.now }
{
    let bytes = bytes.as_bytes();
    bytes.len() as u64 == regions.div_ceil(8) && has_unused(regions, bytes)
}

/// Whether a message is one that the table can spell.
pub fn can_spell(m: &Message<'_>) -> bool
    ensures { IsTrue result ↔ CanSpellMessage m.now }
{
    match m {
        Message::Hello {
            session,
            number,
            stored,
        } => { *session <= MOST_NUMBER && *number <= MOST_NUMBER && *stored <= MOST_NUMBER }
        Message::Update {
            number,
            vol: _,
            block: _,
            bytes,
        } => {
            let _blocks = bytes.as_bytes();
            *number <= MOST_NUMBER
        }
        Message::NetAck { session, number } => *session <= MOST_NUMBER && *number <= MOST_NUMBER,
        Message::DataAck { number } => *number <= MOST_NUMBER,
        Message::ReplayStart { id, start } => *id <= MOST_NUMBER && *start <= MOST_NUMBER,
        Message::Region {
            id,
            vol: _,
            region: _,
            bytes,
        } => {
            let _blocks = bytes.as_bytes();
            *id <= MOST_NUMBER
        }
        Message::RegionsDone { id, start, end } => {
            *id <= MOST_NUMBER && *start <= MOST_NUMBER && *end <= MOST_NUMBER
        }
        Message::RegionAck {
            id,
            vol,
            region,
            kind,
        } => { *id <= MOST_NUMBER && is_ack(*kind, *vol, *region) }
        Message::Fork { fork, parent } => *fork <= MOST_NUMBER && parent.generation <= MOST_NUMBER,
        Message::ForkMap {
            vol: _,
            regions,
            bytes,
        } => is_map(*regions, bytes),
        Message::Handover { head } => *head <= MOST_NUMBER,
        Message::Trim { number } => *number <= MOST_NUMBER,
    }
}
