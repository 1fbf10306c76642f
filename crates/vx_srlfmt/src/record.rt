// The header of a record.
ghost use Rattle.std.specs.Prelude.{◌≡◌, ◌↔◌, ◌-◌, ◌<◌, ◌≤◌, ◌^◌, take, drop, length, IsTrue, IfSome, Some};
ghost use Rattle.vx_srlfmt.specs.RecordReading.{head_in};
ghost use Rattle.vx_srlfmt.specs.Records.{record_table, record_fields, CanSpellHead, IsTypedHead, IsRecord, IsDamaged, HasDigests, IsSeen};
ghost use Rattle.vx_srlfmt.specs.declared.record.RecordHead.{RecordHead as HeadValue};
ghost use Rattle.vx_wire.specs.Fields.{zero_bytes};
ghost use Rattle.vx_wire.specs.Places.{put_at};
ghost use Rattle.vx_wire.specs.Seals.{filled, digest_of, IsSealed};

use vx_model::Line;
use vx_model::limits::{BLOCK, MOST_CALL_BLOCKS, MOST_NUMBER};
use vx_wire::{
    Field, broken_seal, get_bytes, get_line, get_u32, get_u64, is_zero, put_bytes, put_fields,
    put_zeros, seal,
};

/// The bytes "VXSRLR01", with which a record header begins.
pub const RECORD_MAGIC: u64 = 0x565853524c523031;

// The places of the fields, in the order in which they stand.
const INCARNATION: usize = 8;

const RUN: usize = 16;

const LINE: usize = 24;

const NUMBER: usize = 36;

const VOL: usize = 44;

const START: usize = 48;

const COUNT: usize = 56;

const DIGEST: usize = 60;

const FIRSTS: usize = 92;

const FRONT: usize = 108;

/// What stands before the blocks of a logged write.
#[derive(Clone, Copy, Debug, PartialEq, Eq)]
pub struct RecordHead {
    pub incarnation: u64,
    pub run: u64,
    pub line: Line,
    pub number: u64,
    pub vol: u32,
    /// The volume's first block that is written.
    pub block: u64,
    /// 1 to 16 blocks.
    pub count: u32,
    /// The digest of these blocks as they were given.
    pub digest: [u8; 32],
    /// The first byte of each block as it was given, and zeros behind them.
    pub firsts: [u8; MOST_CALL_BLOCKS as usize],
}

/// What a block is as a record header.
#[derive(Clone, Copy, Debug, PartialEq, Eq)]
pub enum Seen {
    Record(RecordHead),
    /// It begins as one, and the digest that it has is not the one computed of it.
    Damaged {
        stored: [u8; 32],
        computed: [u8; 32],
    },
    Other,
}

// The numbers of a record header.
#[tactic(auto, unfolding(crate::specs::Records::record_table))]
fn table(h: &RecordHead) -> [Field; 9]
    ensures { result ≡ record_table h.now }
{
    [
        Field::U64(RECORD_MAGIC),
        Field::U64(h.incarnation),
        Field::U64(h.run),
        Field::U64(h.line.generation),
        Field::U32(h.line.origin),
        Field::U64(h.number),
        Field::U32(h.vol),
        Field::U64(h.block),
        Field::U32(h.count),
    ]
}

// The fields of a record header are of their types, which a contract learns where they are read.
fn is_typed(h: &RecordHead)
    ensures { IsTypedHead h.now }
{
    let _origin = h.line.origin;
    let _vol = h.vol;
    let _block = h.block;
    let _digest = h.digest;
    let _firsts = h.firsts;
}

// Writes the 480 bytes before the digest.
fn put_front(h: &RecordHead, into: &mut [u8])
    requires { 480 ≤ length into.old }
    ensures { into.new ≡ put_at 0 (filled (record_fields h.now)) into.old }
{
    put_fields(into, 0, &table(h));
    put_bytes(into, DIGEST, &h.digest);
    put_bytes(into, FIRSTS, &h.firsts);
    put_zeros(into, FRONT, 480 - FRONT);
}

// Whether the 480 bytes before the digest are those of the record header.
fn is_spelled(h: &RecordHead, block: &[u8; BLOCK]) -> bool
    requires { IsTypedHead h.now }
    ensures { IsTrue result ↔ (take 480 block.now ≡ filled (record_fields h.now)) }
{
    let mut again = [0; 480];
    put_front(h, &mut again);
    again[..] == block[..480]
}

// Whether the bytes behind the first bytes of the blocks are zero.
fn has_zeros(h: &RecordHead) -> bool
    requires { h.now.count ≤ MOST_CALL_BLOCKS }
    ensures { IsTrue result ↔ (drop h.now.count h.now.firsts ≡ zero_bytes (MOST_CALL_BLOCKS - h.now.count)) }
{
    let count = h.count as usize;
    is_zero(&h.firsts, count, MOST_CALL_BLOCKS as usize - count)
}

// Whether a record header that was read is one that its form can spell.
fn can_spell(h: &RecordHead) -> bool
    ensures { IsTrue result ↔ CanSpellHead h.now }
{
    h.incarnation <= MOST_NUMBER
        && h.run <= MOST_NUMBER
        && h.line.generation <= MOST_NUMBER
        && h.number <= MOST_NUMBER
        && h.count > 0
        && h.count <= MOST_CALL_BLOCKS as u32
        && has_zeros(h)
}

// What stands in the places of the fields, whether or not the block is a record header.
#[tactic(auto, unfolding(crate::specs::RecordReading::head_in))]
fn read_head(block: &[u8; BLOCK]) -> RecordHead
    ensures { result ≡ head_in block.now }
{
    RecordHead {
        incarnation: get_u64(block, INCARNATION),
        run: get_u64(block, RUN),
        line: get_line(block, LINE),
        number: get_u64(block, NUMBER),
        vol: get_u32(block, VOL),
        block: get_u64(block, START),
        count: get_u32(block, COUNT),
        digest: get_bytes(block, DIGEST),
        firsts: get_bytes(block, FIRSTS),
    }
}

/// Writes a record header as a block.
pub fn put_record(h: &RecordHead, into: &mut [u8; BLOCK])
    requires { CanSpellHead h.now }
    ensures { IsRecord into.new h.now }
{
    is_typed(h);
    put_front(h, into);
    seal(into);
}

// What a block is as a record header, where its digest is good.
fn whole_record(block: &[u8; BLOCK]) -> Seen
    requires { IsSealed block.now }
    ensures { IsSeen block.now result }
{
    let head = read_head(block);
    is_typed(&head);
    if can_spell(&head) && is_spelled(&head, block) {
        Seen::Record(head)
    } else {
        Seen::Other
    }
}

/// What a block is: a record header exactly where it is the spelling of one, damaged exactly where it begins as one and
/// its digest fails.
pub fn get_record(block: &[u8; BLOCK]) -> Seen
    ensures seen { IsSeen block.now result }
    ensures only { (r : HeadValue) → IsRecord block.now r → result ≡ Seen.Record r }
    ensures damaged { IsDamaged block.now → result ≡ Seen.Damaged (drop 480 block.now) (digest_of (take 480 block.now)) }
{
    if get_u64(block, 0) != RECORD_MAGIC {
        return Seen::Other;
    }
    match broken_seal(block) {
        Some(broken) => {
            let (stored, computed) = (broken.stored, broken.computed);
            Seen::Damaged { stored, computed }
        }
        None => whole_record(block),
    }
}
