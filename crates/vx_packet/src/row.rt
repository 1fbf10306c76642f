// The table of kinds, as the code reads it.
ghost use Rattle.std.specs.Prelude.{◌≡◌, ◌+◌, ◌/◌, ◌≤◌, length, take};
ghost use Rattle.vx_model.specs.declared.limits.TheConstants.{MOST_MAP_BYTES};
ghost use Rattle.vx_packet.specs.Messages.{row as row_is, region_number as region_number_is, IsTyped};
ghost use Rattle.vx_packet.specs.Rows.{IsRow, numbers_list};
ghost use Rattle.vx_wire.specs.Fields.{spelled};
ghost use Rattle.vx_wire.specs.Places.{put_at};

use crate::{BlockBytes, Message};
use vx_model::limits::BLOCK;
use vx_wire::{Field, put_fields};

/// The numbers with which a payload begins.
#[derive(Clone, Copy)]
pub enum Numbers {
    None,
    One(Field),
    Two(Field, Field),
    Three(Field, Field, Field),
}

impl Numbers {
    /// Writes them from a place on, and answers the place behind them.
    pub fn put(self, bytes: &mut [u8], at: usize) -> usize
        requires { at + length (spelled (numbers_list self)) ≤ length bytes.old }
        ensures next { result ≡ at + length (spelled (numbers_list self)) }
        ensures written { bytes.new ≡ put_at at (spelled (numbers_list self)) bytes.old }
    {
        match self {
            Numbers::None => put_fields(bytes, at, &[]),
            Numbers::One(first) => put_fields(bytes, at, &[first]),
            Numbers::Two(first, second) => put_fields(bytes, at, &[first, second]),
            Numbers::Three(first, second, third) => {
                put_fields(bytes, at, &[first, second, third])
            }
        }
    }
}

/// Writes the numbers into room for three, and answers how many bytes they are.
pub fn put_front(numbers: Numbers, into: &mut [u8; 24]) -> usize
    ensures length { result ≡ length (spelled (numbers_list numbers)) }
    ensures few { result ≤ 24 }
    ensures written { take result into.new ≡ spelled (numbers_list numbers) }
{
    numbers.put(into, 0)
}

/// What a packet says of a message: its kind, the two fields of the header, and the payload, which is numbers and bytes
/// behind them.
#[derive(Clone, Copy)]
pub struct Row<'a> {
    pub kind: u8,
    pub session: u64,
    pub number: u64,
    pub numbers: Numbers,
    pub bytes: &'a [u8],
}

impl<'a> Row<'a> {
    fn new(kind: u8, session: u64, number: u64, numbers: Numbers, bytes: &'a [u8]) -> Row<'a>
        ensures kind { result.kind ≡ kind }
        ensures session { result.session ≡ session }
        ensures number { result.number ≡ number }
        ensures numbers { result.numbers ≡ numbers }
        ensures bytes { result.bytes.now ≡ bytes.now }
    {
        Row {
            kind,
            session,
            number,
            numbers,
            bytes,
        }
    }
}

// A region of a volume as one number.
fn region_number(vol: u32, region: u32) -> u64
    ensures { result ≡ region_number_is vol region }
{
    vol as u64 * 0x1_0000_0000 + region as u64
}

// How many blocks there are.
fn block_count(bytes: &BlockBytes<'_>) -> u32
    ensures { result ≡ length bytes.now / BLOCK }
{
    (bytes.as_bytes().len() / BLOCK) as u32
}

/// The row of a message.
pub fn row_of<'a>(m: &'a Message<'a>) -> Row<'a>
    ensures row { IsRow result (row_is m.now) }
    ensures typed { IsTyped m.now }
    ensures few { length result.bytes.now ≤ MOST_MAP_BYTES }
{
    match m {
        Message::Hello {
            session,
            number,
            stored,
        } => { Row::new(1, *session, *number, Numbers::One(Field::U64(*stored)), b"") }
        Message::Update {
            number,
            vol,
            block,
            bytes,
        } => {
            let count = Field::U32(block_count(bytes));
            let numbers = Numbers::Three(Field::U32(*vol), Field::U64(*block), count);
            Row::new(2, 0, *number, numbers, bytes.as_bytes())
        }
        Message::NetAck { session, number } => {
            Row::new(3, *session, *number, Numbers::None, b"")
        }
        Message::DataAck { number } => Row::new(4, 0, *number, Numbers::None, b""),
        Message::ReplayStart { id, start } => {
            Row::new(5, 0, *id, Numbers::One(Field::U64(*start)), b"")
        }
        Message::Region {
            id,
            vol,
            region,
            bytes,
        } => {
            let session = region_number(*vol, *region);
            Row::new(6, session, *id, Numbers::None, bytes.as_bytes())
        }
        Message::RegionsDone { id, start, end } => {
            Row::new(
                7,
                0,
                *id,
                Numbers::Two(Field::U64(*start), Field::U64(*end)),
                b"",
            )
        }
        Message::RegionAck {
            id,
            vol,
            region,
            kind,
        } => {
            let session = region_number(*vol, *region);
            Row::new(8, session, *id, Numbers::One(Field::U8(*kind)), b"")
        }
        Message::Fork { fork, parent } => {
            let (generation, origin) = (parent.generation, parent.origin);
            let numbers = Numbers::Two(Field::U64(generation), Field::U32(origin));
            Row::new(9, 0, *fork, numbers, b"")
        }
        Message::ForkMap {
            vol,
            regions,
            bytes,
        } => {
            Row::new(
                10,
                0,
                *vol,
                Numbers::One(Field::U64(*regions)),
                bytes.as_bytes(),
            )
        }
        Message::Handover { head } => Row::new(11, 0, *head, Numbers::None, b""),
        Message::Trim { number } => Row::new(12, 0, *number, Numbers::None, b""),
    }
}
