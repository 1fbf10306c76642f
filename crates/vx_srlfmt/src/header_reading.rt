// What stands in the places of a header's fields, whether or not the block is a header.
ghost use Rattle.std.specs.Prelude.{◌≡◌, ◌+◌, ◌<◌, ◌≤◌, ◌^◌, All};
ghost use Rattle.vx_srlfmt.specs.HeaderReading.{link_at, links_at, state_in, header_in};
ghost use Rattle.vx_srlfmt.specs.Headers.{IsTypedState};

use crate::header::Header;
use crate::header_codes::{
    attached_of, bunker_of, mark_of, mode_of, phase_of, prot_of, role_of, sync_of,
};
use vx_model::limits::BLOCK;
use vx_model::{KeptLink, KeptLinks, State};
use vx_wire::{get_line, get_u8, get_u32, get_u64};

// The places of the fields, in the order in which they stand.
const STAMP: usize = 8;

const LINE: usize = 16;

const TOP: usize = 28;

const INCARNATION: usize = 36;

const FLOOR: usize = 44;

const RUN: usize = 52;

const LOW: usize = 60;

const PLACE: usize = 68;

const APPLIED: usize = 72;

const ROLE: usize = 80;

const MARK: usize = 81;

const PHASE: usize = 82;

const REPLAY: usize = 83;

const END: usize = 91;

const OTHER: usize = 99;

const PARENT: usize = 103;

const FORK: usize = 115;

const LINK_COUNT: usize = 123;

const LINKS: usize = 124;

// So many bytes has a link, and so many links has a header at most.
const LINK_BYTES: usize = 24;

const MOST_LINKS: u8 = 4;

fn read_link(block: &[u8; BLOCK], at: usize) -> KeptLink
    requires { at + 24 ≤ BLOCK }
    ensures link { result ≡ link_at at block.now }
    ensures site { result.site < 2 ^ 32 }
{
    let flags = get_u8(block, at + 4);
    KeptLink {
        site: get_u32(block, at),
        attached: attached_of(flags),
        bunker: bunker_of(flags),
        mode: mode_of(get_u8(block, at + 5)),
        sync: sync_of(get_u8(block, at + 6)),
        prot: prot_of(get_u8(block, at + 7)),
        stored: get_u64(block, at + 8),
        start: get_u64(block, at + 16),
    }
}

fn read_links(block: &[u8; BLOCK], count: u8) -> KeptLinks
    requires { count ≤ 4 }
    ensures links { result ≡ links_at count 124 block.now }
    ensures sites { All (λ l. l.site < 2 ^ 32) result }
{
    let mut links = KeptLinks::new();
    for i in 0..count {
        links.push(read_link(block, LINKS + LINK_BYTES * i as usize));
    }
    links
}

#[tactic(auto, unfolding(crate::specs::HeaderReading::state_in))]
fn read_state(block: &[u8; BLOCK]) -> State
    ensures state { result ≡ state_in block.now }
    ensures typed { IsTypedState result }
{
    let other = get_u32(block, OTHER);
    State {
        line: get_line(block, LINE),
        top: get_u64(block, TOP),
        role: role_of(get_u8(block, ROLE), other),
        mark: mark_of(get_u8(block, MARK)),
        phase: phase_of(get_u8(block, PHASE)),
        replay: get_u64(block, REPLAY),
        end: get_u64(block, END),
        other,
        parent: get_line(block, PARENT),
        fork: get_u64(block, FORK),
        links: read_links(block, get_u8(block, LINK_COUNT).min(MOST_LINKS)),
    }
}

/// The header that a block is, if it is one.
#[tactic(auto, unfolding(crate::specs::HeaderReading::header_in))]
pub fn read_header(block: &[u8; BLOCK]) -> Header
    ensures header { result ≡ header_in block.now }
    ensures typed { IsTypedState result.state }
    ensures place { result.place < 2 ^ 32 }
{
    Header {
        stamp: get_u64(block, STAMP),
        state: read_state(block),
        incarnation: get_u64(block, INCARNATION),
        floor: get_u64(block, FLOOR),
        run: get_u64(block, RUN),
        low: get_u64(block, LOW),
        place: get_u32(block, PLACE),
        applied: get_u64(block, APPLIED),
    }
}
