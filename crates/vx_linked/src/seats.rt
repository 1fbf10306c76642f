// The sites and the link that a line names. The tests of the line found them, so there is no case without one.
ghost use Rattle.std.specs.Prelude.{◌≡◌, ◌<◌, Some, IsSome, length};
ghost use Rattle.vx_events.specs.Facts.{seat_of};
ghost use Rattle.vx_linked.specs.Tables.{place_to};

use vx_model::Name;
use vx_order::{LinkFacts, SiteFacts};

/// The number of the site of this name, where there is one.
pub fn find_seat(sites: &[SiteFacts], name: &Name) -> Option<usize>
    ensures { result ≡ seat_of sites.now name.now }
{
    sites
        .iter()
        .position(|site| site.name.as_bytes() == name.as_bytes())
}

/// The number of the site of this name.
pub fn seat(sites: &[SiteFacts], name: &Name) -> usize
    requires named { IsSome (seat_of sites.now name.now) }
    ensures seat { seat_of sites.now name.now ≡ Some result }
    ensures within { result < length sites.now }
{
    match find_seat(sites, name) {
        Some(site) => site,
        None => unreachable!(),
    }
}

fn find_link(links: &[LinkFacts], there: usize) -> Option<usize>
    ensures { result ≡ place_to there links.now }
{
    links.iter().position(|l| l.link.site as usize == there)
}

/// The place of the link to this site.
pub fn link_place(links: &[LinkFacts], there: usize) -> usize
    requires linked { IsSome (place_to there links.now) }
    ensures place { place_to there links.now ≡ Some result }
    ensures within { result < length links.now }
{
    match find_link(links, there) {
        Some(place) => place,
        None => unreachable!(),
    }
}
