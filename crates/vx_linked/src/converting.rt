// The links of a site as a write of it is let in.
ghost use Rattle.std.specs.Prelude.{◌≡◌, ◌≤◌, if◌then◌else◌, length};
ghost use Rattle.vx_linked.specs.Converting.{changed_fact, converted_fact, converted_facts, mode_maps, places_with_maps, with_need};
ghost use Rattle.vx_model.specs.declared.limits.TheConstants.{LINK_PLACES};

use crate::holding::is_holding;
use crate::keeping::put_at;
use vx_history::Change;
use vx_model::{Link, Mode};
use vx_order::{LinkFacts, SiteFacts};
use vx_policy::find_change;

/// A link that has become another one. It needs nothing of the log where that holds none of it.
pub(crate) fn behind(l: &LinkFacts, next: &Link) -> LinkFacts
    ensures { result ≡ with_need next.now l.now }
{
    LinkFacts {
        link: *next,
        used: if is_holding(next) { l.used } else { 0 },
    }
}

fn in_mode(l: &LinkFacts, mode: Mode) -> LinkFacts
    ensures { result ≡ with_need (record l.now.link { mode = mode }) l.now }
{
    let next = Link { mode, ..l.link };
    behind(l, &next)
}

fn change_link(l: &LinkFacts, change: Change) -> LinkFacts
    ensures { result ≡ changed_fact change l.now }
{
    match change {
        Change::Stays => *l,
        Change::ToStale => in_mode(l, Mode::Stale),
        Change::ToDcm => in_mode(l, Mode::Dcm),
    }
}

fn convert(l: &LinkFacts, need: u64, room: u64) -> LinkFacts
    ensures { result ≡ converted_fact need room l.now }
{
    change_link(l, find_change(&l.link, l.used, need, room))
}

/// The links of a site behind the letting in of a write that takes so many blocks of a ring of these: each that leaves too little room is
/// given up, or goes by its map, and then needs nothing of the log.
pub fn convert_links(site: &mut SiteFacts, need: u64, room: u64)
    ensures converted { site.new ≡ record site.old { links = converted_facts need room site.old.links } }
{
    let count = site.links.as_slice().len();
    for k in 0..count {
        let next = convert(&site.links.as_slice()[k], need, room);
        put_at(site, k, &next);
    }
}

fn map_bit(l: &LinkFacts) -> u8
    ensures { result ≡ (if mode_maps l.now.link.mode then 1 else 0) }
{
    match l.link.mode {
        Mode::Dcm | Mode::Fork { .. } => 1,
        Mode::Log | Mode::Replay { .. } | Mode::Stale => 0,
    }
}

/// The places of the links of a site in whose maps the regions of a write are marked, place k by bit k.
pub fn map_places(site: &SiteFacts) -> u8
    requires few { length site.now.links ≤ LINK_PLACES }
    ensures places { result ≡ places_with_maps site.now.links }
{
    let links = site.links.as_slice();
    let count = links.len();
    let mut places = 0;
    // From the last link to the first, which is the lowest bit.
    for back in 0..count {
        let at = count - 1 - back;
        places = 2 * places + map_bit(&links[at]);
    }
    places
}
