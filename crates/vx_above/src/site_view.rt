// What the status of a site shows.
ghost use Rattle.std.specs.Prelude.{◌≡◌, ◌<◌, [], Some, true, false, length, slice_get};
ghost use Rattle.vx_above.specs.Seen.{group_seen, group_at, links_seen, site_seen};
ghost use Rattle.vx_above.specs.Views.{ShowsPlain, full_seen};
ghost use Rattle.vx_history.specs.Doubts.{Doubted};
ghost use Rattle.vx_order.specs.declared.facts.SiteFacts.{SiteFacts as Facts};
ghost use Rattle.vx_yard.specs.Standing.{StandsFor};
ghost use Rattle.vx_events.specs.GroupLines.{is_over_group};
ghost use Rattle.vx_events.specs.GroupNotes.{note_at};
ghost use Rattle.vx_events.specs.LinkViews.{linked_view};
ghost use Rattle.vx_events.specs.RvgViews.{is_over_rvg, over_disks};

use crate::views::{ViewRoom, views_of};
use std::alloc::Global;
use vx_disk::Rack;
use vx_model::SiteState;
use vx_order::{RvgFacts, SiteFacts, name_at};
use vx_report::{DiskViews, LinkViews, RvgView, SiteView, VolumeViews};
use vx_yard::Yard;

fn group(sites: &[SiteFacts], session: u64, rvg: &RvgFacts) -> RvgView
    ensures { result ≡ group_seen sites.now session rvg.now }
{
    RvgView {
        role: rvg.role,
        generation: rvg.line.generation,
        origin: name_at(sites, rvg.line.origin),
        head: rvg.last,
        mark: rvg.mark,
        session,
        halted: rvg.halted,
    }
}

// The replicated volume group of a site that is up.
fn rvg_view(sites: &[SiteFacts], session: u64, site: &SiteFacts) -> Option<RvgView>
    ensures { result ≡ group_at site.now.state sites.now session site.now.rvg }
{
    match site.state {
        SiteState::Up => match &site.rvg {
            Some(rvg) => Some(group(sites, session, rvg)),
            None => None,
        },
        SiteState::Bare | SiteState::Deported | SiteState::Down => None,
    }
}

fn view(
    alloc: Global,
    sites: &[SiteFacts],
    session: u64,
    site: &SiteFacts,
    links: LinkViews,
) -> SiteView
    ensures { result ≡ site_seen sites.now session site.now links }
{
    SiteView {
        name: site.name,
        state: site.state,
        disks: DiskViews::new(alloc),
        volumes: VolumeViews::new(alloc),
        rvg: rvg_view(sites, session, site),
        links,
    }
}

/// How a site with these links stands.
pub fn view_at<R: Rack>(yard: &Yard<R>, alloc: Global, site: usize, links: LinkViews) -> SiteView
    requires site { site < length yard.now.facts.items }
    requires disk_set { site < length yard.now.disk_sets.items }
    ensures linked { (d : Doubted) (f : Facts) → StandsFor d yard.now → site < d.world.sites → is_over_group (d.world.nodes site) ≡ false → slice_get yard.now.facts.items site ≡ Some f → links ≡ links_seen yard.now.facts.items f.links → result ≡ linked_view d.world site }
{
    let session = yard.disk_sets[site].session();
    view(alloc, &yard.facts, session, &yard.facts[site], links)
}

fn full_view(
    sites: &[SiteFacts],
    session: u64,
    site: &SiteFacts,
    disks: DiskViews,
    volumes: VolumeViews,
    links: LinkViews,
) -> SiteView
    ensures { result ≡ full_seen sites.now session site.now disks volumes links }
{
    SiteView {
        name: site.name,
        state: site.state,
        disks,
        volumes,
        rvg: rvg_view(sites, session, site),
        links,
    }
}

/// How a site with these links stands, with the disks and volumes of the group below its replicated volume group.
pub fn full_at<R: Rack>(yard: &Yard<R>, site: usize, links: LinkViews, room: ViewRoom) -> SiteView
    requires site { site < length yard.now.facts.items }
    requires disk_set { site < length yard.now.disk_sets.items }
    requires disks { room.disks ≡ [] }
    requires volumes { room.volumes ≡ [] }
    ensures linked { (d : Doubted) (f : Facts) → StandsFor d yard.now → site < d.world.sites → is_over_group (d.world.nodes site) ≡ false → is_over_rvg (d.world.nodes site) ≡ false → slice_get yard.now.facts.items site ≡ Some f → links ≡ links_seen yard.now.facts.items f.links → result ≡ linked_view d.world site }
    ensures plain { links ≡ [] → ShowsPlain yard.now site result }
    ensures above { (d : Doubted) (f : Facts) → StandsFor d yard.now → site < d.world.sites → is_over_rvg (d.world.nodes site) ≡ true → slice_get yard.now.facts.items site ≡ Some f → links ≡ links_seen yard.now.facts.items f.links → result ≡ over_disks (d.world.nodes site) (note_at (d.world.nodes site)) (linked_view d.world site) }
{
    let disk_set = &yard.disk_sets[site];
    let session = disk_set.session();
    let shown = views_of(disk_set.config(), room);
    full_view(
        &yard.facts,
        session,
        &yard.facts[site],
        shown.0,
        shown.1,
        links,
    )
}
