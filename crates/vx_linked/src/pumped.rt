// A link that is pumped over the group of its site.
ghost use Rattle.std.specs.Prelude.{◌≡◌, ◌<◌, Some, length, slice_get};
ghost use Rattle.vx_courier.specs.UnderWay.{FlightStands};
ghost use Rattle.vx_events.specs.Facts.{site_number};
ghost use Rattle.vx_events.specs.StepsOver.{facts_over};
ghost use Rattle.vx_history.specs.Events.{link_event, link_step};
ghost use Rattle.vx_history.specs.LinkForms.{plain_link};
ghost use Rattle.vx_history.specs.Step.{step};
ghost use Rattle.vx_history.specs.World.{World};
ghost use Rattle.vx_history.specs.declared.event.Event.TheVariants.{Pump as PumpAt};
ghost use Rattle.vx_history.specs.declared.sender.SEvent.TheVariants.{Pump as PumpLink};
ghost use Rattle.vx_net.specs.Flights.{Flying};
ghost use Rattle.vx_script.specs.declared.line.ScriptLine.TheVariants.{Pump};
ghost use Rattle.vx_order.specs.declared.facts.LinkFacts.{LinkFacts as LinkValue};
ghost use Rattle.vx_linked.specs.Tables.{FoundLink, IsUnrefused, site_relinked};
ghost use Rattle.vx_linked.specs.Turns.{ComesBehind, Relinked};

use crate::keeping::put_at;
use crate::seats::{link_place, seat};
use vx_model::{Link, Name};
use vx_order::{LinkFacts, SiteFacts};

/// The link that a line names.
pub fn link_named(sites: &[SiteFacts], from: &Name, to: &Name) -> LinkFacts
    requires found { FoundLink sites.now from.now to.now }
    ensures link { (f : FoundLink sites.now from.now to.now) → result ≡ f.link }
{
    let here = seat(sites, from);
    let there = seat(sites, to);
    let links = sites[here].links.as_slice();
    let place = link_place(links, there);
    links[place]
}

/// Keeps the link that a `pump` line names as the pump left it. The blocks above its hold stay, as a pump does not change what is stored.
pub fn keep_pumped(sites: &mut [SiteFacts], from: &Name, to: &Name, link: &Link)
    requires free { IsUnrefused sites.old (Pump from.now to.now) }
    ensures kept { Relinked from.now to.now link.now sites.old sites.new }
    ensures world { (w : World) (f : Flying) → sites.old ≡ facts_over w
        → link.now ≡ plain_link (site_number w to.now)
        ((link_event w (site_number w from.now) (site_number w to.now) PumpLink).links (site_number w from.now) (site_number w to.now))
        → FlightStands (link_event w (site_number w from.now) (site_number w to.now) PumpLink).packets f
        → ComesBehind w (PumpAt (site_number w from.now) (site_number w to.now)) sites.new f }
    // Whatever was sent: the link is as its rule leaves it.
    ensures facts { (w : World) → sites.old ≡ facts_over w → link.now ≡ (link_step w (site_number w from.now) (site_number w to.now) PumpLink).link
        → sites.new ≡ facts_over (step w (PumpAt (site_number w from.now) (site_number w to.now))).world }
{
    relink(sites, from, to, link);
}

fn relink_at(site: &mut SiteFacts, place: usize, link: &Link)
    requires place { place < length site.old.links }
    ensures { (l : LinkValue) → slice_get site.old.links place ≡ Some l → site.new ≡ site_relinked site.old place (record l { link = link.now }) }
{
    let used = site.links.as_slice()[place].used;
    put_at(site, place, &LinkFacts { link: *link, used });
}

fn relink(sites: &mut [SiteFacts], from: &Name, to: &Name, link: &Link)
    requires found { FoundLink sites.old from.now to.now }
    ensures { Relinked from.now to.now link.now sites.old sites.new }
{
    let here = seat(sites, from);
    let there = seat(sites, to);
    let place = link_place(sites[here].links.as_slice(), there);
    relink_at(&mut sites[here], place, link);
}
