// From payloads to messages.
ghost use Rattle.std.specs.Prelude.{◌≡◌, ◌↔◌, ◌*◌, ◌/◌, ◌%◌, ◌^◌, ◌≤◌, ◌++◌, IsTrue, IfSome, Some};
ghost use Rattle.vx_packet.specs.MessageReading.{are_blocks as are_blocks_is, within_payload, message_in, update_in, region_in, fork_map_in};
ghost use Rattle.vx_packet.specs.Messages.{IsMessage, IsSpelled, IsTyped};
ghost use Rattle.vx_packet.specs.declared.message.Message.TheVariants.{Hello, ReplayStart, RegionsDone, RegionAck, Fork};
ghost use Rattle.vx_wire.specs.Numbers.{number_at};
ghost use Rattle.vx_packet.specs.declared.message.Message.{Message as MessageValue};

use crate::row::{Row, put_front, row_of};
use crate::spelling::can_spell;
use crate::{BlockBytes, MapBytes, Message, RegionBytes};
use vx_model::limits::{BLOCK, MOST_CALL_BLOCKS, MOST_MAP_BYTES, REGION};
use vx_wire::{get_line, get_u8, get_u32, get_u64};

// Whether these are 1 to so many whole blocks.
fn are_blocks(most: usize, bytes: &[u8]) -> bool
    requires { most ≤ REGION }
    ensures { result ≡ are_blocks_is most bytes.now }
{
    !bytes.is_empty() && bytes.len() <= BLOCK * most && bytes.len() % BLOCK == 0
}

// The volume of a region's number, and the region.
fn region_of(number: u64) -> (u32, u32)
    ensures vol { result.0 ≡ number / 2 ^ 32 }
    ensures region { result.1 ≡ number % 2 ^ 32 }
{
    (
        (number / 0x1_0000_0000) as u32,
        (number % 0x1_0000_0000) as u32,
    )
}

fn read_update(number: u64, payload: &[u8]) -> Option<Message<'_>>
    ensures { result ≡ update_in number payload.now }
{
    if payload.len() > 16 && are_blocks(MOST_CALL_BLOCKS as usize, &payload[16..]) {
        Some(Message::Update {
            number,
            vol: get_u32(payload, 0),
            block: get_u64(payload, 4),
            bytes: BlockBytes::new(&payload[16..]),
        })
    } else {
        None
    }
}

fn read_region(session: u64, number: u64, payload: &[u8]) -> Option<Message<'_>>
    ensures { result ≡ region_in session number payload.now }
{
    if are_blocks(REGION as usize, payload) {
        let (vol, region) = region_of(session);
        Some(Message::Region {
            id: number,
            vol,
            region,
            bytes: RegionBytes::new(payload),
        })
    } else {
        None
    }
}

fn read_fork_map(number: u64, payload: &[u8]) -> Option<Message<'_>>
    ensures { result ≡ fork_map_in number payload.now }
{
    if payload.len() >= 8 && payload.len() <= 8 + MOST_MAP_BYTES {
        Some(Message::ForkMap {
            vol: number,
            regions: get_u64(payload, 0),
            bytes: MapBytes::new(&payload[8..]),
        })
    } else {
        None
    }
}

fn read_hello(session: u64, number: u64, payload: &[u8]) -> Option<Message<'_>>
    ensures { result ≡ within_payload 8 payload.now (Hello session number (number_at 8 0 payload.now)) }
{
    if payload.len() < 8 {
        None
    } else {
        Some(Message::Hello {
            session,
            number,
            stored: get_u64(payload, 0),
        })
    }
}

fn read_start(number: u64, payload: &[u8]) -> Option<Message<'_>>
    ensures { result ≡ within_payload 8 payload.now (ReplayStart number (number_at 8 0 payload.now)) }
{
    if payload.len() < 8 {
        None
    } else {
        Some(Message::ReplayStart {
            id: number,
            start: get_u64(payload, 0),
        })
    }
}

fn read_done(number: u64, payload: &[u8]) -> Option<Message<'_>>
    ensures { result ≡ within_payload 16 payload.now (RegionsDone number (number_at 8 0 payload.now) (number_at 8 8 payload.now)) }
{
    if payload.len() < 16 {
        None
    } else {
        Some(Message::RegionsDone {
            id: number,
            start: get_u64(payload, 0),
            end: get_u64(payload, 8),
        })
    }
}

fn read_ack(session: u64, number: u64, payload: &[u8]) -> Option<Message<'_>>
    ensures { result ≡ within_payload 1 payload.now (RegionAck number (session / 2 ^ 32) (session % 2 ^ 32) (number_at 1 0 payload.now)) }
{
    if payload.is_empty() {
        return None;
    }
    let (vol, region) = region_of(session);
    Some(Message::RegionAck {
        id: number,
        vol,
        region,
        kind: get_u8(payload, 0),
    })
}

fn read_fork(number: u64, payload: &[u8]) -> Option<Message<'_>>
    ensures { result ≡ within_payload 12 payload.now (Fork number (record { generation = number_at 8 0 payload.now; origin = number_at 4 8 payload.now })) }
{
    if payload.len() < 12 {
        None
    } else {
        Some(Message::Fork {
            fork: number,
            parent: get_line(payload, 0),
        })
    }
}

/// What is read under a kind, whether or not the payload is one of its.
#[tactic(auto, unfolding(crate::specs::MessageReading::message_in))]
pub(crate) fn read_as(kind: u8, session: u64, number: u64, payload: &[u8]) -> Option<Message<'_>>
    ensures { result ≡ message_in kind session number payload.now }
{
    match kind {
        1 => read_hello(session, number, payload),
        2 => read_update(number, payload),
        3 => Some(Message::NetAck { session, number }),
        4 => Some(Message::DataAck { number }),
        5 => read_start(number, payload),
        6 => read_region(session, number, payload),
        7 => read_done(number, payload),
        8 => read_ack(session, number, payload),
        9 => read_fork(number, payload),
        10 => read_fork_map(number, payload),
        11 => Some(Message::Handover { head: number }),
        12 => Some(Message::Trim { number }),
        _ => None,
    }
}

// Whether a payload is these two runs of bytes.
fn is_payload(front: &[u8], bytes: &[u8], payload: &[u8]) -> bool
    ensures { IsTrue result ↔ (front.now ++ bytes.now ≡ payload.now) }
{
    if payload.len() < front.len() {
        return false;
    }
    let begins = &payload[..front.len()] == front;
    let ends = &payload[front.len()..] == bytes;
    begins && ends
}

// Whether a row has these fields of the header.
fn has_fields(row: &Row<'_>, kind: u8, session: u64, number: u64) -> bool
    ensures { IsTrue result ↔ ((row.now.kind ≡ kind) × (row.now.session ≡ session) × (row.now.number ≡ number)) }
{
    row.kind == kind && row.session == session && row.number == number
}

// Whether a message is spelled by these fields of the header and this payload.
fn is_spelled(m: &Message<'_>, kind: u8, session: u64, number: u64, payload: &[u8]) -> bool
    ensures spelled { IsTrue result ↔ IsSpelled kind session number payload.now m.now }
    ensures typed { IsTyped m.now }
{
    let row = row_of(m);
    let mut front = [0; 24];
    let len = put_front(row.numbers, &mut front);
    has_fields(&row, kind, session, number) && is_payload(&front[..len], row.bytes, payload)
}

/// The message that a payload is under a kind, with these two fields of the header: None exactly where it is none.
pub fn read_message(kind: u8, session: u64, number: u64, payload: &[u8]) -> Option<Message<'_>>
    ensures found { IfSome result (λ m. IsMessage kind session number payload.now m) }
    ensures only { (m : MessageValue) → IsMessage kind session number payload.now m → result ≡ Some m }
{
    match read_as(kind, session, number, payload) {
        Some(message) => {
            let spelled = is_spelled(&message, kind, session, number, payload);
            if spelled && can_spell(&message) {
                Some(message)
            } else {
                None
            }
        }
        None => None,
    }
}
