// A line that asks for the status of a site.
ghost use Rattle.std.specs.Prelude.{◌≡◌, IfOk, false, true};
ghost use Rattle.vx_above.specs.Seen.{link_seen, links_seen};
ghost use Rattle.vx_history.specs.Doubts.{Doubted};
ghost use Rattle.vx_script.specs.declared.line.ScriptLine.TheVariants.{Status as StatusLine};
ghost use Rattle.vx_yard.specs.AboveLines.{LeadsAboveIs};
ghost use Rattle.vx_yard.specs.Standing.{LeadsIs, StandsFor};
ghost use Rattle.vx_events.specs.RvgSteps.{is_for_rvg};
ghost use Rattle.vx_events.specs.StepsOver.{is_for_group};
ghost use Rattle.vx_yard.specs.Working.{IsFree};
ghost use Rattle.vx_yard.specs.Yards.{IsYardKept};

use std::alloc::Global;
use vx_above::{ViewRoom, full_at};
use vx_disk::Rack;
use vx_events::Said;
use vx_model::{Name, OutOfMemory};
use vx_order::{LinkFacts, SiteFacts, name_at};
use vx_report::{LinkView, LinkViews};
use vx_yard::Yard;

/// A link. It keeps no map, so no region is marked.
pub(crate) fn link_view(sites: &[SiteFacts], link: &LinkFacts) -> LinkView
    ensures { result ≡ link_seen sites.now link.now }
{
    LinkView {
        name: name_at(sites, link.link.site),
        bunker: link.link.bunker,
        attached: link.link.attached,
        connected: link.link.connected,
        paused: link.link.paused,
        mode: link.link.mode,
        marked: 0,
        net: link.link.net,
        stored: link.link.stored,
    }
}

// The links of a site, in order.
fn link_views(
    alloc: Global,
    sites: &[SiteFacts],
    links: &[LinkFacts],
) -> Result<LinkViews, OutOfMemory>
    ensures { IfOk result (λ views. views ≡ links_seen sites.now links.now) }
{
    let mut views = LinkViews::new(alloc);
    for link in links {
        views.push(link_view(sites, link))?;
    }
    Ok(views)
}

/// The status of a site.
pub fn status_line<R: Rack>(yard: &Yard<R>, alloc: Global, name: &Name) -> Result<Said, OutOfMemory>
    requires kept { IsYardKept yard.now }
    requires free { IsFree yard.now (StatusLine name.now) }
    ensures leads { (d : Doubted) → StandsFor d yard.now → is_for_group d.world (StatusLine name.now) ≡ false → is_for_rvg d.world (StatusLine name.now) ≡ false → LeadsIs d (StatusLine name.now) yard.now yard.now result }
    ensures above { (d : Doubted) → StandsFor d yard.now → is_for_rvg d.world (StatusLine name.now) ≡ true → LeadsAboveIs d (StatusLine name.now) yard.now yard.now result }
{
    let room = ViewRoom::new(alloc)?;
    let site = yard.site_of(name);
    let links = link_views(alloc, &yard.facts, yard.facts[site].links.as_slice())?;
    Ok(Said::Shown(full_at(yard, site, links, room)))
}
