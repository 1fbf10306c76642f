// From messages to packets.
ghost use Rattle.std.specs.Prelude.{◌≡◌, ◌<◌, ◌≤◌, take, drop, length};
ghost use Rattle.vx_packet.specs.Messages.{CanSpellMessage, IsCounted, count_of_parts};
ghost use Rattle.vx_packet.specs.Packets.{part_numbered, part_packet, IsTypedEnvelope, IsPacket};

use crate::part::{HEADER, table};
use crate::payload::{part_count, put_chunk};
use crate::row::{put_front, row_of};
use crate::{Envelope, Message, Part};
use vx_model::limits::PART_BYTES;
use vx_wire::put_fields;

/// In how many parts a message goes: one for each 1,024 bytes of its payload that have begun, and one where it has none.
pub fn parts(m: &Message<'_>) -> u32
    ensures { result ≡ count_of_parts m.now }
{
    let row = row_of(m);
    let mut front = [0; 24];
    let len = put_front(row.numbers, &mut front);
    part_count(len + row.bytes.len())
}

// The numbers of an envelope are of their types, which a contract learns where they are read.
fn is_typed(e: &Envelope)
    ensures { IsTypedEnvelope e.now }
{
    let _source = e.source;
    let _target = e.target;
    let _origin = e.line.origin;
}

/// Writes the packet of a message's part, counted from 0, and answers how many bytes it has. What is behind them stays.
pub fn encode(e: &Envelope, m: &Message<'_>, part: u32, into: &mut [u8; 1072]) -> usize
    requires generation { IsCounted e.now.line.generation }
    requires message { CanSpellMessage m.now }
    requires part { part < count_of_parts m.now }
    ensures length { result ≡ length (part_packet e.now m.now part) }
    ensures few { result ≤ 1072 }
    ensures bytes { take result into.new ≡ part_packet e.now m.now part }
    ensures behind { drop result into.new ≡ drop result into.old }
    ensures packet { IsPacket (part_packet e.now m.now part) (part_numbered e.now m.now part) }
{
    is_typed(e);
    let row = row_of(m);
    let mut front = [0; 24];
    let len = put_front(row.numbers, &mut front);
    let total = len + row.bytes.len();
    let length = (total - PART_BYTES * part as usize).min(PART_BYTES);
    let carried = Part {
        kind: row.kind,
        source: e.source,
        target: e.target,
        line: e.line,
        session: row.session,
        number: row.number,
        part: part as u16,
        parts: part_count(total) as u16,
        start: HEADER,
        length: length as u16,
    };
    put_fields(into, 0, &table(&carried));
    put_chunk(into, HEADER, &front[..len], row.bytes, part as usize);
    HEADER + length
}
