// Packets, and the parts of messages that they carry.
ghost use Rattle.std.specs.Prelude.{◌≡◌, ◌↔◌, ◌+◌, ◌≤◌, length, take, IsTrue, IfSome, Some};
ghost use Rattle.vx_packet.specs.PacketReading.{part_in};
ghost use Rattle.vx_packet.specs.Packets.{fits_kind as fits_kind_is, packet_table, HasLength, CanCarry, IsTypedPart, IsPacket};
ghost use Rattle.vx_packet.specs.declared.part.Part.{Part as PartValue};
ghost use Rattle.vx_wire.specs.Fields.{spelled};

use vx_model::Line;
use vx_model::limits::{MOST_NUMBER, PART_BYTES};
use vx_wire::{Field, get_line, get_u8, get_u16, get_u32, get_u64, put_fields};

// The bytes "VXPK", with which a packet begins, and the version behind them.
const MAGIC: u32 = 0x5658504b;

const VERSION: u8 = 1;

// The places of the fields, in the order in which they stand.
const KIND: usize = 5;

const SOURCE: usize = 6;

const TARGET: usize = 10;

const LINE: usize = 14;

const SESSION: usize = 26;

const NUMBER: usize = 34;

const PART: usize = 42;

const PARTS: usize = 44;

const LENGTH: usize = 46;

/// How many bytes a header has.
pub const HEADER: usize = 48;

/// A part of a message, as a packet carries it. Its payload is the `length` bytes from `start`.
#[derive(Clone, Copy, Debug, PartialEq, Eq)]
pub struct Part {
    pub kind: u8,
    pub source: u32,
    pub target: u32,
    /// The line of the sending site.
    pub line: Line,
    pub session: u64,
    pub number: u64,
    /// Which part it is, from 0.
    pub part: u16,
    /// In how many parts the message goes, from 1.
    pub parts: u16,
    pub start: usize,
    pub length: u16,
}

/// The fields of a header.
#[tactic(auto, unfolding(crate::specs::Packets::packet_table))]
pub fn table(p: &Part) -> [Field; 12]
    ensures { result ≡ packet_table p.now }
{
    [
        Field::U32(MAGIC),
        Field::U8(VERSION),
        Field::U8(p.kind),
        Field::U32(p.source),
        Field::U32(p.target),
        Field::U64(p.line.generation),
        Field::U32(p.line.origin),
        Field::U64(p.session),
        Field::U64(p.number),
        Field::U16(p.part),
        Field::U16(p.parts),
        Field::U16(p.length),
    ]
}

// The numbers of a part are of their types, which a contract learns where they are read.
fn is_typed(p: &Part)
    ensures { IsTypedPart p.now }
{
    let _kind = p.kind;
    let _source = p.source;
    let _target = p.target;
    let _origin = p.line.origin;
    let _session = p.session;
    let _number = p.number;
    let _parts = p.parts;
}

// Whether a kind has this code, and its fields may hold these.
fn fits_kind(kind: u8, session: u64, number: u64) -> bool
    ensures { result ≡ fits_kind_is kind session number }
{
    match kind {
        1 | 3 => session <= MOST_NUMBER && number <= MOST_NUMBER,
        6 | 8 => number <= MOST_NUMBER,
        10 => session == 0,
        2 | 4 | 5 | 7 | 9 | 11 | 12 => session == 0 && number <= MOST_NUMBER,
        _ => false,
    }
}

// Whether a part has the length that its place asks for.
fn has_length(p: &Part) -> bool
    ensures { IsTrue result ↔ HasLength p.now }
{
    let last = p.part as u32 + 1 >= p.parts as u32;
    (last || p.length as usize == PART_BYTES)
        && p.length as usize <= PART_BYTES
        && (p.parts <= 1 || p.length > 0)
}

// Whether a part that was read is one that a packet can carry.
fn can_carry(p: &Part) -> bool
    ensures { IsTrue result ↔ CanCarry p.now }
{
    fits_kind(p.kind, p.session, p.number)
        && p.line.generation <= MOST_NUMBER
        && p.part < p.parts
        && has_length(p)
}

// Whether the first 48 bytes are the header of the part.
fn is_spelled(p: &Part, bytes: &[u8]) -> bool
    requires { 48 ≤ length bytes.now }
    ensures { IsTrue result ↔ (take 48 bytes.now ≡ spelled (packet_table p.now)) }
{
    let mut again = [0; HEADER];
    put_fields(&mut again, 0, &table(p));
    again[..] == bytes[..HEADER]
}

// What stands in the places of the fields, whether or not the bytes are a packet.
#[tactic(auto, unfolding(crate::specs::PacketReading::part_in))]
fn read_part(bytes: &[u8]) -> Part
    requires { 48 ≤ length bytes.now }
    ensures { result ≡ part_in bytes.now }
{
    Part {
        kind: get_u8(bytes, KIND),
        source: get_u32(bytes, SOURCE),
        target: get_u32(bytes, TARGET),
        line: get_line(bytes, LINE),
        session: get_u64(bytes, SESSION),
        number: get_u64(bytes, NUMBER),
        part: get_u16(bytes, PART),
        parts: get_u16(bytes, PARTS),
        start: HEADER,
        length: get_u16(bytes, LENGTH),
    }
}

/// The part that a packet carries: None exactly where the bytes are no packet.
pub fn decode(bytes: &[u8]) -> Option<Part>
    ensures found { IfSome result (λ p. IsPacket bytes.now p) }
    ensures only { (p : PartValue) → IsPacket bytes.now p → result ≡ Some p }
{
    if bytes.len() < HEADER {
        return None;
    }
    let part = read_part(bytes);
    is_typed(&part);
    let whole = bytes.len() == HEADER + part.length as usize;
    if whole && can_carry(&part) && is_spelled(&part, bytes) {
        Some(part)
    } else {
        None
    }
}
