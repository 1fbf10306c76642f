// Whether the links of a site let a write in.
ghost use Rattle.std.specs.Prelude.{◌≡◌, ◌++◌, ◌<◌, ◌≤◌, ℕ, [], Option, length, IfOk, OnOk};
ghost use Rattle.vx_history.specs.Refusals.{unless_at_most, some_below, is_waited_for as waited_for};
ghost use Rattle.vx_history.specs.Events.{is_in_place as in_place, link_in_place, put_before, linked_sites, plain_links, admitted, links_changed, put_in, written_if};
ghost use Rattle.vx_sites.specs.Refusing.{unless_refused};
ghost use Rattle.vx_sites.specs.Shapes.{world_of, node_of, link_of};
ghost use Rattle.vx_world.specs.Counted.{AreCounted, most_counted, refusal_by};

use vx_model::limits::{BLOCK, LINK_PLACES};
use vx_model::{Link as PlainLink, Mode, No, OutOfMemory, SyncMode};
use vx_policy::{Facts, Verdict, decide};
use vx_sites::row::used_above;
use vx_sites::{Link, Node, World, Write};

/// 14, 12 or 13 where a link of the site holds the write, by the rule of admission over the links in the order of their making.
pub fn refuse_by_links(world: &World, site: u32, links: &[PlainLink], write: &Write) -> Option<No>
    requires within { site < length world.now.nodes.items }
    requires few { length links.now ≤ LINK_PLACES }
    requires listed { let w = world_of world.now in links.now ≡ plain_links (w.links site) (linked_sites (w.links site) w.sites 0 w.sites) }
    ensures { let w = world_of world.now in let x = write.now in (fails : Option ℕ) → unless_refused result w (unless_at_most (w.nodes site).safe w (put_in (links_changed w site x) site x fails)) ≡ written_if (admitted w site x) w site x fails }
{
    let node = world.node(site);
    let facts = Facts {
        need: (write.as_bytes().len() / BLOCK + 1) as u64,
        room: room_of(node),
        head: node.safe,
        used: count_used(node, links),
    };
    find_refusal(decide(links, &facts))
}

fn find_refusal(verdict: Verdict) -> Option<No>
    ensures { result ≡ refusal_by verdict }
{
    match verdict {
        Verdict::Refuse(no) => Some(no),
        Verdict::Go { .. } => None,
    }
}

// The blocks of the site's log that hold records.
fn room_of(node: &Node) -> u64
    ensures is { result ≡ (node_of node.now).ring }
    ensures few { result < most_counted }
{
    u64::from(node.ring)
}

// For each link, in order, the blocks of the log that the numbers above its hold take, counted up to 2^32.
fn count_used(node: &Node, links: &[PlainLink]) -> [u64; LINK_PLACES]
    requires few { length links.now ≤ LINK_PLACES }
    ensures counted { AreCounted (node_of node.now).log links.now (length links.now) result }
    ensures long { length result ≡ LINK_PLACES }
{
    let mut used = [0; LINK_PLACES];
    for at in 0..links.len() {
        used[at] = used_above(&node.log, &links[at]);
    }
    used
}

/// The links of the site in the order of their making. More of them than the rule of admission takes have no memory.
pub fn list_links(world: &World, site: u32, sites: u32) -> Result<Vec<PlainLink>, OutOfMemory>
    ensures listed { IfOk result (λ links. let row = (world_of world.now).links site in links.items ≡ plain_links row (linked_sites row sites 0 sites)) }
    ensures few { IfOk result (λ links. length links.items ≤ LINK_PLACES) }
{
    let mut links = Vec::new(world.alloc);
    for place in 0..sites {
        let to = find_link(world, site, sites, place);
        add_link(&mut links, world, site, to)?;
    }
    if links.len() > LINK_PLACES {
        return Err(OutOfMemory);
    }
    Ok(links)
}

// The link to `to`, where there is one, stands behind the others.
fn add_link(
    links: &mut Vec<PlainLink>,
    world: &World,
    site: u32,
    to: Option<u32>,
) -> Result<(), OutOfMemory>
    ensures { OnOk result (let row = (world_of world.now).links site in links.new.items ≡ links.old.items ++ plain_links row (put_before to [])) }
{
    if let Some(to) = to {
        links.push(world.link(site, to).plain(to))?;
    }
    Ok(())
}

// The site of the link that was made in this place.
fn find_link(world: &World, site: u32, sites: u32, place: u32) -> Option<u32>
    ensures { result ≡ link_in_place ((world_of world.now).links site) place sites }
{
    let mut found = None;
    for to in 0..sites {
        if is_in_place(&world.link(site, to), place) {
            found = Some(to);
        }
    }
    found
}

fn is_in_place(link: &Link, place: u32) -> bool
    ensures { result ≡ in_place (link_of link.now).made place }
{
    match link.made {
        Some(made) => made == place as usize,
        None => false,
    }
}

/// Whether some link of the site is to confirm a write.
pub fn is_waited_for(world: &World, site: u32) -> bool
    ensures { let w = world_of world.now in result ≡ some_below w.sites (λ k. waited_for k (w.links site k)) }
{
    let mut found = false;
    for to in 0..world.nodes.len() {
        found = confirms(world, site, to) || found;
    }
    found
}

fn confirms(world: &World, site: u32, to: usize) -> bool
    ensures { result ≡ waited_for to ((world_of world.now).links site to) }
{
    let link = world.link_at(site, to);
    let waits = link.is_linked() && link.state.sync != SyncMode::Off;
    let is_live = link.state.attached && link.state.connected && !link.state.paused;
    waits && is_live && link.state.mode == Mode::Log
}
