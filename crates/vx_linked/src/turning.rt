// A link in memory, and an event of it that looks at nothing of its site.
ghost use Rattle.std.specs.Prelude.{◌≡◌, ◌<◌, Some, length, slice_get, slice_set};
ghost use Rattle.vx_order.specs.declared.facts.LinkFacts.{LinkFacts};
ghost use Rattle.vx_linked.specs.Tables.{FoundLink, site_relinked};
ghost use Rattle.vx_linked.specs.Turns.{Turned, fact_turned};

use crate::keeping::put_at;
use crate::seats::{link_place, seat};
use vx_model::Name;
use vx_order::{LinkFacts, SiteFacts};
use vx_sender::{SEvent, SFacts, step};

fn turn_link(l: &LinkFacts, event: &SEvent) -> LinkFacts
    ensures { result ≡ fact_turned event.now l.now }
{
    let mut next = *l;
    let facts = SFacts {
        safe: 0,
        line_ok: true,
    };
    let _nothing = step(&mut next.link, event, &facts);
    next
}

fn turn_at(site: &mut SiteFacts, place: usize, event: &SEvent)
    requires place { place < length site.old.links }
    ensures { (l : LinkFacts) → slice_get site.old.links place ≡ Some l → site.new ≡ site_relinked site.old place (fact_turned event.now l) }
{
    let next = turn_link(&site.links.as_slice()[place], event);
    put_at(site, place, &next);
}

/// The link of a site to another has this event behind it.
pub fn turn(sites: &mut [SiteFacts], from: &Name, to: &Name, event: &SEvent)
    requires found { FoundLink sites.old from.now to.now }
    ensures { Turned event.now from.now to.now sites.old sites.new }
{
    let here = seat(sites, from);
    let there = seat(sites, to);
    let place = link_place(sites[here].links.as_slice(), there);
    turn_at(&mut sites[here], place, event);
}
