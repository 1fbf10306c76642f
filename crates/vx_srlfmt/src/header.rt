// The header of a log.
ghost use Rattle.std.specs.Prelude.{◌≡◌, ◌↔◌, ◌<◌, ◌≤◌, ◌^◌, take, length, flat_map, IsTrue, IfSome, Some};
ghost use Rattle.vx_srlfmt.specs.Headers.{CanSpellHeader, CanSpellLink, CanSpellState, Agrees, IsTypedState, IsHeader, header_table, link_table, header_fields, header_block};
ghost use Rattle.vx_srlfmt.specs.declared.header.Header.{Header as HeaderValue};
ghost use Rattle.vx_wire.specs.Places.{put_at};
ghost use Rattle.vx_wire.specs.Seals.{filled};

use crate::header_codes::{
    flags_code, mark_code, mode_code, phase_code, prot_code, role_code, sync_code,
};
use crate::header_reading::read_header;
use vx_model::limits::{BLOCK, MOST_NUMBER};
use vx_model::{KeptLink, State};
use vx_wire::{Field, broken_seal, put_fields, put_zeros, seal};

/// The bytes "VXSRLH01", with which a header begins.
pub const HEADER_MAGIC: u64 = 0x565853524c483031;

/// What a header keeps: the state of its site, and where the log begins.
#[derive(Drop)]
pub struct Header {
    /// One more at each write of a header.
    pub stamp: u64,
    pub state: State,
    /// One more at each start of the log.
    pub incarnation: u64,
    /// The incarnation below which no record from the low number on is taken.
    pub floor: u64,
    /// One more each time the log is emptied.
    pub run: u64,
    /// The number of the first record that is kept.
    pub low: u64,
    /// The place of that record in the ring, in blocks.
    pub place: u32,
    /// The number up to which the writes are in the volumes.
    pub applied: u64,
}

// The fields of a header up to the number of its links.
#[tactic(auto, unfolding(crate::specs::Headers::header_table))]
fn table(h: &Header) -> [Field; 21]
    ensures { result ≡ header_table h.now }
{
    [
        Field::U64(HEADER_MAGIC),
        Field::U64(h.stamp),
        Field::U64(h.state.line.generation),
        Field::U32(h.state.line.origin),
        Field::U64(h.state.top),
        Field::U64(h.incarnation),
        Field::U64(h.floor),
        Field::U64(h.run),
        Field::U64(h.low),
        Field::U32(h.place),
        Field::U64(h.applied),
        Field::U8(role_code(h.state.role)),
        Field::U8(mark_code(h.state.mark)),
        Field::U8(phase_code(h.state.phase)),
        Field::U64(h.state.replay),
        Field::U64(h.state.end),
        Field::U32(h.state.other),
        Field::U64(h.state.parent.generation),
        Field::U32(h.state.parent.origin),
        Field::U64(h.state.fork),
        Field::U8(h.state.links.as_slice().len() as u8),
    ]
}

// The fields of a link.
#[tactic(auto, unfolding(crate::specs::Headers::link_table))]
fn link_fields(link: &KeptLink) -> [Field; 7]
    ensures { result ≡ link_table link.now }
{
    [
        Field::U32(link.site),
        Field::U8(flags_code(link.attached, link.bunker)),
        Field::U8(mode_code(link.mode)),
        Field::U8(sync_code(link.sync)),
        Field::U8(prot_code(link.prot)),
        Field::U64(link.stored),
        Field::U64(link.start),
    ]
}

// The number of a link's site is of its type, which a contract learns where it is read.
fn site_is_typed(link: &KeptLink)
    ensures { link.now.site < 2 ^ 32 }
{
    let _site = link.site;
}

// The same of a header's numbers.
fn is_typed(h: &Header)
    ensures state { IsTypedState h.now.state }
    ensures place { h.now.place < 2 ^ 32 }
{
    let _place = h.place;
    let _origin = h.state.line.origin;
    let _other = h.state.other;
    let _parent = h.state.parent.origin;
    for link in h.state.links.as_slice() {
        site_is_typed(link);
    }
}

// Writes the 480 bytes before the digest.
fn put_front(h: &Header, into: &mut [u8])
    requires few { length h.now.state.links ≤ 4 }
    requires room { 480 ≤ length into.old }
    ensures { into.new ≡ put_at 0 (filled (header_fields h.now)) into.old }
{
    let mut place = put_fields(into, 0, &table(h));
    for link in h.state.links.as_slice() {
        place = put_fields(into, place, &link_fields(link));
    }
    put_zeros(into, place, 480 - place);
}

// Whether the 480 bytes before the digest are those of the header.
fn is_spelled(h: &Header, block: &[u8; BLOCK]) -> bool
    requires { length h.now.state.links ≤ 4 }
    ensures { IsTrue result ↔ (take 480 block.now ≡ filled (header_fields h.now)) }
{
    let mut again = [0; 480];
    put_front(h, &mut again);
    again[..] == block[..480]
}

// Whether the numbers of a link are within their limit.
fn can_spell_link(link: &KeptLink) -> bool
    ensures { IsTrue result ↔ CanSpellLink link.now }
{
    link.stored <= MOST_NUMBER && link.start <= MOST_NUMBER
}

// Whether a state that was read is one that the table can spell.
fn can_spell_state(state: &State) -> bool
    requires role { Agrees state.now.role state.now.other }
    requires few { length state.now.links ≤ 4 }
    ensures { IsTrue result ↔ CanSpellState state.now }
{
    state.line.generation <= MOST_NUMBER
        && state.top <= MOST_NUMBER
        && state.replay <= MOST_NUMBER
        && state.end <= MOST_NUMBER
        && state.parent.generation <= MOST_NUMBER
        && state.fork <= MOST_NUMBER
        && state.links.as_slice().iter().all(can_spell_link)
}

// Whether a header that was read is one that the table can spell.
fn can_spell(h: &Header) -> bool
    requires role { Agrees h.now.state.role h.now.state.other }
    requires few { length h.now.state.links ≤ 4 }
    ensures { IsTrue result ↔ CanSpellHeader h.now }
{
    h.stamp <= MOST_NUMBER
        && h.incarnation <= MOST_NUMBER
        && h.floor <= MOST_NUMBER
        && h.run <= MOST_NUMBER
        && h.low <= MOST_NUMBER
        && h.applied <= MOST_NUMBER
        && can_spell_state(&h.state)
}

/// Writes a header as a block.
pub fn put_header(h: &Header, into: &mut [u8; BLOCK])
    requires { CanSpellHeader h.now }
    ensures { IsHeader into.new h.now }
{
    is_typed(h);
    put_front(h, into);
    seal(into);
}

/// The header that a block is: None exactly where it is the spelling of none.
pub fn get_header(block: &[u8; BLOCK]) -> Option<Header>
    ensures found { IfSome result (λ h. IsHeader block.now h) }
    ensures only { (h : HeaderValue) → IsHeader block.now h → result ≡ Some h }
{
    let header = read_header(block);
    if can_spell(&header) && is_spelled(&header, block) && broken_seal(block).is_none() {
        Some(header)
    } else {
        None
    }
}
