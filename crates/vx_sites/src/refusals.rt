// The tests of events, in their order. Each answers the refusal, or none.
ghost use Rattle.std.specs.Prelude.{◌≡◌, ◌<◌, length, not, IsNone};
ghost use Rattle.vx_model.specs.Sites.{is_origin as is_origin_is};
ghost use Rattle.vx_history.specs.Sends.{is_linked};
ghost use Rattle.vx_history.specs.Refusals.{unless, at_site, at_work, both_at_work, on_link, on_link_if, when_live};
ghost use Rattle.vx_model.specs.Sites.{is_up as up};
ghost use Rattle.vx_model.specs.declared.no.No.TheVariants.{Unknown, Down as NotUp};
ghost use Rattle.vx_model.specs.declared.no.Named.TheVariants.{Number as ByNumber};
ghost use Rattle.vx_sites.specs.Refusing.{Refuses};
ghost use Rattle.vx_sites.specs.Shapes.{world_of, link_of};

use crate::{Link, Node, World};
use vx_history::has_links;
use vx_model::{Named, No, SiteName, SiteState, is_origin};

/// 1 where no site has this number.
pub fn refuse_site(world: &World, site: u32) -> Option<No>
    ensures refuses { Refuses result (world_of world.now) (at_site (world_of world.now) site) }
    ensures within { IsNone result → site < length world.now.nodes.items }
{
    if (site as usize) < world.nodes.len() {
        None
    } else {
        Some(No::Unknown {
            what: Named::Number(u64::from(site)),
        })
    }
}

/// 6 where the site is not up.
pub fn refuse_not_up(world: &World, site: u32) -> Option<No>
    requires { site < length world.now.nodes.items }
    ensures { Refuses result (world_of world.now) (unless (not (up ((world_of world.now).nodes site).state)) NotUp (world_of world.now)) }
{
    if is_up(&world.nodes[site as usize]) {
        None
    } else {
        Some(No::Down)
    }
}

/// 6 where the site is not up, and 20 where a disk halted it.
pub fn refuse_work(world: &World, site: u32) -> Option<No>
    requires { site < length world.now.nodes.items }
    ensures { Refuses result (world_of world.now) (at_work (world_of world.now) site) }
{
    let node = &world.nodes[site as usize];
    if !is_up(node) {
        return Some(No::Down);
    }
    match node.halted {
        Some(disk) => Some(No::Halted { disk }),
        None => None,
    }
}

/// 6 where one of two sites is not up, and 20 where a disk halted one of them.
pub fn refuse_work_of_both(world: &World, from: u32, to: u32) -> Option<No>
    requires from { from < length world.now.nodes.items }
    requires to { to < length world.now.nodes.items }
    ensures { Refuses result (world_of world.now) (both_at_work (world_of world.now) from to) }
{
    let here = &world.nodes[from as usize];
    let there = &world.nodes[to as usize];
    if !is_up(here) || !is_up(there) {
        return Some(No::Down);
    }
    if let Some(disk) = here.halted {
        return Some(No::Halted { disk });
    }
    match there.halted {
        Some(disk) => Some(No::Halted { disk }),
        None => None,
    }
}

/// 1 for either end of a link, and 6 and 20 of the site that it starts at.
pub fn refuse_ends(world: &World, from: u32, to: u32) -> Option<No>
    ensures refuses { let w = world_of world.now in Refuses result w (λ o. at_site w from (at_site w to (at_work w from o))) }
    ensures from { IsNone result → from < length world.now.nodes.items }
    ensures to { IsNone result → to < length world.now.nodes.items }
{
    if let Some(no) = refuse_site(world, from) {
        return Some(no);
    }
    if let Some(no) = refuse_site(world, to) {
        return Some(no);
    }
    refuse_work(world, from)
}

/// 1 where there is no link between the sites.
pub fn refuse_no_link(world: &World, from: u32, to: u32) -> Option<No>
    ensures { let w = world_of world.now in Refuses result w (unless (not (is_linked (w.links from to))) (Unknown (ByNumber to)) w) }
{
    if world.link(from, to).is_linked() {
        None
    } else {
        Some(No::Unknown {
            what: Named::Number(u64::from(to)),
        })
    }
}

/// The tests of an event on a link: 1 for its ends, 6, 20, 5 where its site keeps no links, and 1 where there is no link.
pub fn refuse_link(world: &World, from: u32, to: u32) -> Option<No>
    ensures refuses { let w = world_of world.now in Refuses result w (on_link w from to) }
    ensures from { IsNone result → from < length world.now.nodes.items }
    ensures to { IsNone result → to < length world.now.nodes.items }
{
    if let Some(no) = refuse_ends(world, from, to) {
        return Some(no);
    }
    if !has_links(&world.nodes[from as usize].role) {
        return Some(No::Role);
    }
    refuse_no_link(world, from, to)
}

/// The same of a link of a site where writes arise.
pub fn refuse_link_of_origin(world: &World, from: u32, to: u32) -> Option<No>
    ensures refuses { let w = world_of world.now in Refuses result w (on_link_if is_origin_is w from to) }
    ensures from { IsNone result → from < length world.now.nodes.items }
    ensures to { IsNone result → to < length world.now.nodes.items }
{
    if let Some(no) = refuse_ends(world, from, to) {
        return Some(no);
    }
    if !is_origin(&world.nodes[from as usize].role) {
        return Some(No::Role);
    }
    refuse_no_link(world, from, to)
}

/// 14 where the link is not attached or not connected, and 23 where it is paused.
pub fn refuse_dead(world: &World, to: u32, link: &Link) -> Option<No>
    ensures { Refuses result (world_of world.now) (when_live (world_of world.now) to (link_of link.now)) }
{
    if !link.state.attached || !link.state.connected {
        return Some(No::LinkDown {
            link: SiteName::Number(to),
        });
    }
    if link.state.paused {
        Some(No::Paused)
    } else {
        None
    }
}

/// Whether the site is up.
pub fn is_up(node: &Node) -> bool
    ensures { result ≡ up node.now.state }
{
    match node.state {
        SiteState::Up => true,
        SiteState::Bare | SiteState::Deported | SiteState::Down => false,
    }
}
