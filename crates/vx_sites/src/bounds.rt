// The tests of sites that are made, of volumes, and of links that are made. Each answers the refusal, or none.
ghost use Rattle.std.specs.Prelude.{◌≡◌, ◌+◌, ◌<◌, ◌^◌, not, ◌&&◌, length, leb, IsNone, bytes_eq};
ghost use Rattle.vx_history.specs.World.{World as PlainWorld};
ghost use Rattle.vx_model.specs.Answer.{is_past};
ghost use Rattle.vx_history.specs.Sends.{is_linked};
ghost use Rattle.vx_history.specs.Refusals.{unless, unless_at_most, at_site, at_work, is_primary as primary, some_below, may_be_site, is_fresh as fresh, may_link as can_link, may_join, agree, sizes_meet, rings_fit as fit, count_links_of, follows as following};
ghost use Rattle.vx_model.specs.Sites.{is_bare as bare};
ghost use Rattle.vx_model.specs.Sizes.{is_raw_shape as raw_shape};
ghost use Rattle.vx_model.specs.declared.no.No.TheVariants.{Unknown, Exists, Role as WrongRole, Size as WrongSize, Range as OutOfRange};
ghost use Rattle.vx_model.specs.declared.no.Named.TheVariants.{Number as ByNumber};
ghost use Rattle.vx_sites.specs.Refusing.{Refuses};
ghost use Rattle.vx_sites.specs.Shapes.{world_of, node_of, named_volumes};

use crate::refusals::{refuse_site, refuse_work};
use crate::{Node, World};
use vx_model::limits::{LEAST_BLOCKS, MOST_DISKS, MOST_NUMBER, MOST_SITES};
use vx_model::{
    Counted, Line, Name, Named, No, Role, SiteState, is_origin, is_raw_shape, is_same_line,
};

/// 2, 19 and 4 of a further site.
pub fn refuse_new_site(world: &World, name: &Name, disks: u32, blocks: u64) -> Option<No>
    ensures { Refuses result (world_of world.now) (may_be_site (world_of world.now) name.now disks blocks) }
{
    if is_taken(world, name) {
        return Some(No::Exists { name: *name });
    }
    if world.nodes.len() >= MOST_SITES {
        return Some(No::Limit {
            what: Counted::Sites,
            most: MOST_SITES as u64,
        });
    }
    if disks > MOST_DISKS {
        return Some(No::Limit {
            what: Counted::Disks,
            most: u64::from(MOST_DISKS),
        });
    }
    if disks == 0 || blocks < LEAST_BLOCKS {
        return Some(No::Size);
    }
    None
}

fn is_taken(world: &World, name: &Name) -> bool
    ensures { let w = world_of world.now in result ≡ some_below w.sites (λ k. bytes_eq (w.nodes k).name name.now) }
{
    let mut taken = false;
    for site in 0..world.nodes.len() {
        taken = world.nodes[site].name.as_bytes() == name.as_bytes() || taken;
    }
    taken
}

/// 5 where the site is not bare.
pub fn refuse_not_bare(world: &World, site: u32) -> Option<No>
    requires { site < length world.now.nodes.items }
    ensures { let w = world_of world.now in Refuses result w (unless (not (bare (w.nodes site).state)) WrongRole w) }
{
    if is_bare(world.node(site)) {
        None
    } else {
        Some(No::Role)
    }
}

/// 5 where the site is not bare, and 4 where its disks make no raw set.
pub fn refuse_raw(world: &World, site: u32) -> Option<No>
    requires { site < length world.now.nodes.items }
    ensures { let w = world_of world.now in let n = w.nodes site in Refuses result w (λ o. unless (not (bare n.state)) WrongRole w (unless (not (raw_shape n.disks n.blocks)) WrongSize w o)) }
{
    let node = world.node(site);
    if !is_bare(node) {
        return Some(No::Role);
    }
    if is_raw_shape(node.disks, node.blocks) {
        None
    } else {
        Some(No::Size)
    }
}

fn is_bare(node: &Node) -> bool
    ensures { result ≡ bare node.now.state }
{
    match node.state {
        SiteState::Bare => true,
        SiteState::Up | SiteState::Deported | SiteState::Down => false,
    }
}

/// 1 for the site and, of a bare site or one without it, for the volume; 6, 20, and 5 where the site is no primary.
pub fn refuse_volume(world: &World, site: u32, volume: u32) -> Option<No>
    ensures refuses { let w = world_of world.now in let n = w.nodes site in Refuses result w (λ o. at_site w site (unless (bare n.state) (Unknown (ByNumber volume)) w (at_work w site (unless (not (primary n.role)) WrongRole w (unless (leb (length n.volumes) volume) (Unknown (ByNumber volume)) w o))))) }
    ensures within { IsNone result → site < length world.now.nodes.items }
{
    if let Some(no) = refuse_site(world, site) {
        return Some(no);
    }
    let node = world.node(site);
    let unknown = No::Unknown {
        what: Named::Number(u64::from(volume)),
    };
    if is_bare(node) {
        return Some(unknown);
    }
    if let Some(no) = refuse_work(world, site) {
        return Some(no);
    }
    if !is_primary(node) {
        return Some(No::Role);
    }
    if lacks_volume(node, volume) {
        Some(unknown)
    } else {
        None
    }
}

fn lacks_volume(node: &Node, volume: u32) -> bool
    ensures { result ≡ leb (length (node_of node.now).volumes) volume }
{
    node.volumes.len() <= volume as usize
}

/// 3 where the blocks end past the volume.
pub fn refuse_range(world: &World, site: u32, volume: u32, start: u64, count: u64) -> Option<No>
    requires { site < length world.now.nodes.items }
    ensures refuses { let w = world_of world.now in Refuses result w (unless (is_past (w.nodes site).base volume start count) OutOfRange w) }
    ensures ends { IsNone result → start + count < 2 ^ 64 }
{
    let size = world.node(site).base.size(volume);
    if size < start || size - start < count {
        Some(No::Range)
    } else {
        None
    }
}

/// Whether the site is a primary.
pub fn is_primary(node: &Node) -> bool
    ensures { result ≡ primary node.now.role }
{
    match node.role {
        Role::Primary => true,
        Role::Secondary | Role::Handing { .. } | Role::Bunker => false,
    }
}

/// 5, 2, 19 and 4 of a line that links a site to another.
pub fn refuse_join(world: &World, from: u32, to: u32) -> Option<No>
    requires from { from < length world.now.nodes.items }
    requires to { to < length world.now.nodes.items }
    ensures { let w = world_of world.now in Refuses result w (may_join w from to) }
{
    if !may_link(world, from, to) {
        return Some(No::Role);
    }
    if let Some(no) = refuse_made(world, from, to) {
        return Some(no);
    }
    if count_links(world, from) >= 4 {
        return Some(No::Limit {
            what: Counted::Links,
            most: 4,
        });
    }
    let here = world.node(from);
    let there = world.node(to);
    if do_sizes_meet(here, there) && rings_fit(here, there) {
        None
    } else {
        Some(No::Size)
    }
}

/// 2 where there is a link between the sites already.
pub fn refuse_made(world: &World, from: u32, to: u32) -> Option<No>
    requires { to < length world.now.nodes.items }
    ensures { let w = world_of world.now in Refuses result w (unless (is_linked (w.links from to)) (Exists (w.nodes to).name) w) }
{
    if world.link(from, to).is_linked() {
        Some(No::Exists {
            name: world.node(to).name,
        })
    } else {
        None
    }
}

fn may_link(world: &World, from: u32, to: u32) -> bool
    requires from { from < length world.now.nodes.items }
    requires to { to < length world.now.nodes.items }
    ensures { result ≡ can_link (world_of world.now) from to }
{
    let here = world.node(from);
    let first = Line {
        generation: 1,
        origin: from,
    };
    let is_ready = is_primary(here) && to != from && here.log.is_empty();
    is_ready && is_same_line(&here.line, &first) && is_fresh(world, to)
}

fn is_fresh(world: &World, site: u32) -> bool
    requires { site < length world.now.nodes.items }
    ensures { result ≡ fresh (world_of world.now) site }
{
    let node = world.node(site);
    is_primary(node) && node.log.is_empty() && !has_link(world, site)
}

fn has_link(world: &World, site: u32) -> bool
    ensures { let w = world_of world.now in result ≡ some_below w.sites (λ k. is_linked (w.links site k)) }
{
    let mut found = false;
    for to in 0..world.nodes.len() {
        found = world.link_at(site, to).is_linked() || found;
    }
    found
}

/// How many links the site has.
pub fn count_links(world: &World, site: u32) -> usize
    ensures { result ≡ count_links_of (world_of world.now) site }
{
    let mut count = 0;
    for to in 0..world.nodes.len() {
        if world.link_at(site, to).is_linked() {
            count += 1;
        }
    }
    count
}

fn do_sizes_meet(here: &Node, there: &Node) -> bool
    ensures { result ≡ sizes_meet (node_of here.now).volumes (node_of there.now).volumes }
{
    !here.volumes.is_empty() && are_same(&here.volumes, &there.volumes)
}

// Whether the sizes are as many and the same.
fn are_same(here: &[u64], there: &[u64]) -> bool
    ensures { result ≡ agree (named_volumes 1 here.now) (named_volumes 1 there.now) }
{
    if here.len() != there.len() {
        return false;
    }
    for volume in 0..here.len() {
        if here[volume] != there[volume] {
            return false;
        }
    }
    true
}

fn rings_fit(here: &Node, there: &Node) -> bool
    ensures { result ≡ fit (node_of here.now) (node_of there.now) }
{
    there.ring >= 17 || here.ring <= there.ring
}

/// Whether the site `to` receives on the line of the site `from`.
pub fn follows(world: &World, from: u32, to: u32) -> bool
    requires from { from < length world.now.nodes.items }
    requires to { to < length world.now.nodes.items }
    ensures { result ≡ following (world_of world.now) from to }
{
    let there = world.node(to);
    !is_origin(&there.role) && is_same_line(&there.line, &world.node(from).line)
}

/// 19 where a number, of a write or a session, is the greatest.
pub fn refuse_most(number: u64) -> Option<No>
    ensures refuses { (w : PlainWorld) → Refuses result w (λ o. unless_at_most number w o) }
    ensures below { IsNone result → number < MOST_NUMBER }
{
    if number < MOST_NUMBER {
        None
    } else {
        Some(No::Limit {
            what: Counted::Number,
            most: MOST_NUMBER,
        })
    }
}
