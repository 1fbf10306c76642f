// A link of a site, found by the numbers of its sites, and kept as it was changed.
ghost use Rattle.std.specs.Prelude.{◌≡◌, ℕ, ◌<◌, Some, IsSome, length, slice_get};
ghost use Rattle.std.specs.List.{find};
ghost use Rattle.std.specs.Option.{option_copied};
ghost use Rattle.vx_events.specs.LinkedFacts.{link_fact};
ghost use Rattle.vx_events.specs.StepsOver.{facts_over};
ghost use Rattle.vx_history.specs.Sends.{with_link};
ghost use Rattle.vx_history.specs.World.{Link, World};
ghost use Rattle.vx_order.specs.declared.facts.LinkFacts.{LinkFacts};
ghost use Rattle.vx_linked.specs.Tables.{HasPlace, Put, fact_between, leads_to, link_leading, place_to, site_relinked};
ghost use Rattle.vx_linked.specs.Turns.{IsLinkOf};

use crate::seats::link_place;
use vx_order::{LinkFacts, SiteFacts};

fn find_to(links: &[LinkFacts], to: u32) -> Option<&LinkFacts>
    ensures { option_copied result ≡ find (leads_to to) links.now }
{
    links.iter().find(|l| l.link.site == to)
}

// The site of a number.
pub(crate) fn site_at(sites: &[SiteFacts], from: usize) -> Option<&SiteFacts>
    ensures { option_copied result ≡ slice_get sites.now from }
{
    sites.get(from)
}

fn find_in(site: Option<&SiteFacts>, to: u32) -> Option<LinkFacts>
    ensures { result ≡ link_leading (option_copied site.entry) to }
{
    match site {
        Some(site) => find_to(site.links.as_slice(), to).copied(),
        None => None,
    }
}

/// The link of the site of this number to that of another, with the blocks that the numbers above its hold take in the log. None where
/// the site shows none, as one that is not up.
pub fn link_between(sites: &[SiteFacts], from: usize, to: u32) -> Option<LinkFacts>
    ensures link { result ≡ fact_between sites.now from to }
    ensures world { (w : World) (l : LinkFacts) → sites.now ≡ facts_over w → result ≡ Some l → IsLinkOf w from to l }
{
    find_in(site_at(sites, from), to)
}

/// Puts a link in the place of another one of its site.
pub(crate) fn put_at(site: &mut SiteFacts, place: usize, link: &LinkFacts)
    requires place { place < length site.old.links }
    ensures { site.new ≡ site_relinked site.old place link.now }
{
    site.links.set(place, *link);
}

fn put_to(site: &mut SiteFacts, to: u32, link: &LinkFacts)
    requires linked { IsSome (place_to to site.old.links) }
    ensures { (place : ℕ) → place_to to site.old.links ≡ Some place → site.new ≡ site_relinked site.old place link.now }
{
    let place = link_place(site.links.as_slice(), to as usize);
    put_at(site, place, link);
}

fn put_in(sites: &mut [SiteFacts], from: usize, to: u32, link: &LinkFacts)
    requires within { from < length sites.old }
    requires linked { HasPlace sites.old from to }
    ensures { Put from to link.now sites.old sites.new }
{
    put_to(&mut sites[from], to, link);
}

/// Keeps the link of the site of this number to that of another as it is handed in.
pub fn put_link(sites: &mut [SiteFacts], from: usize, to: u32, link: &LinkFacts)
    requires linked { IsSome (fact_between sites.old from to) }
    ensures put { Put from to link.now sites.old sites.new }
    ensures world { (w : World) (l : Link) → sites.old ≡ facts_over w → l.made ≡ (w.links from to).made → link.now ≡ link_fact (w.nodes from) to l
        → sites.new ≡ facts_over (with_link w from to l) }
{
    put_in(sites, from, to, link);
}
