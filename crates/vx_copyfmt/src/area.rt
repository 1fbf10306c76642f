// The header of a configuration area.
ghost use Rattle.std.specs.Prelude.{◌≡◌, ◌↔◌, ◌-◌, ◌<◌, ◌≤◌, ◌^◌, take, length, IsTrue};
ghost use Rattle.vx_copyfmt.specs.Areas.{area_table, area_fields, area_in, header_of, CanSpellArea, IsTypedArea, IsArea};
ghost use Rattle.vx_wire.specs.Places.{put_at};
ghost use Rattle.vx_wire.specs.Seals.{filled};

use vx_model::limits::{BLOCK, MOST_CONFIG_BYTES, MOST_NUMBER};
use vx_wire::{
    Field, broken_seal, get_bytes, get_u32, get_u64, put_bytes, put_fields, put_zeros, seal,
};

/// The bytes "VXAREA01", with which the header of an area begins.
pub const AREA_MAGIC: u64 = 0x5658415245413031;

// The places of the fields, in the order in which they stand.
const SERIAL: usize = 8;

const LENGTH: usize = 16;

const DIGEST: usize = 20;

const FRONT: usize = 52;

/// What stands before the body of a configuration.
#[derive(Clone, Copy, Debug, PartialEq, Eq)]
pub struct AreaHeader {
    pub serial: u64,
    /// 1 to 65,024 bytes.
    pub length: u32,
    /// The digest of these bytes.
    pub digest: [u8; 32],
}

// The numbers of an area's header.
#[tactic(auto, unfolding(crate::specs::Areas::area_table))]
fn table(h: &AreaHeader) -> [Field; 3]
    ensures { result ≡ area_table h.now }
{
    [
        Field::U64(AREA_MAGIC),
        Field::U64(h.serial),
        Field::U32(h.length),
    ]
}

// The digest of an area's header has its length, which a contract learns where it is read.
fn is_typed(h: &AreaHeader)
    ensures { IsTypedArea h.now }
{
    let _digest = h.digest;
}

// Writes the 480 bytes before the digest of the block.
fn put_front(h: &AreaHeader, into: &mut [u8])
    requires { 480 ≤ length into.old }
    ensures { into.new ≡ put_at 0 (filled (area_fields h.now)) into.old }
{
    put_fields(into, 0, &table(h));
    put_bytes(into, DIGEST, &h.digest);
    put_zeros(into, FRONT, 480 - FRONT);
}

// Whether the 480 bytes before the digest of the block are those of the header.
fn is_spelled(h: &AreaHeader, block: &[u8; BLOCK]) -> bool
    requires { IsTypedArea h.now }
    ensures { IsTrue result ↔ (take 480 block.now ≡ filled (area_fields h.now)) }
{
    let mut again = [0; 480];
    put_front(h, &mut again);
    again[..] == block[..480]
}

// Whether a header that was read is one that its form can spell.
fn can_spell(h: &AreaHeader) -> bool
    ensures { IsTrue result ↔ CanSpellArea h.now }
{
    h.serial <= MOST_NUMBER && h.length > 0 && h.length <= MOST_CONFIG_BYTES as u32
}

// What stands in the places of the fields, whether or not the block is a header.
#[tactic(auto, unfolding(crate::specs::Areas::area_in))]
fn read_area(block: &[u8; BLOCK]) -> AreaHeader
    ensures { result ≡ area_in block.now }
{
    AreaHeader {
        serial: get_u64(block, SERIAL),
        length: get_u32(block, LENGTH),
        digest: get_bytes(block, DIGEST),
    }
}

/// Writes an area's header as a block.
pub fn put_area(h: &AreaHeader, into: &mut [u8; BLOCK])
    requires { CanSpellArea h.now }
    ensures { IsArea into.new h.now }
{
    is_typed(h);
    put_front(h, into);
    seal(into);
}

/// The header that a block is: None exactly where it is the spelling of none.
pub fn get_area(block: &[u8; BLOCK]) -> Option<AreaHeader>
    ensures { result ≡ header_of block.now }
{
    let header = read_area(block);
    is_typed(&header);
    if can_spell(&header) && is_spelled(&header, block) && broken_seal(block).is_none() {
        Some(header)
    } else {
        None
    }
}
