// What events make of all links of a site.
ghost use Rattle.std.specs.Prelude.{◌≡◌, ◌<◌, ℕ, length, take, drop, min, OnOk};
ghost use Rattle.vx_history.specs.World.{Node as PlainNode, no_regions};
ghost use Rattle.vx_history.specs.Admission.{changed_mode, hold};
ghost use Rattle.vx_history.specs.Sends.{with_links};
ghost use Rattle.vx_history.specs.Events.{lost_touch, restarted_link, logged_blocks, link_after, links_changed, links_marked};
ghost use Rattle.vx_history.specs.ChangeMaps.{map_after, map_kept};
ghost use Rattle.vx_history.specs.Regions.{joined_maps, marks_of_all};
ghost use Rattle.vx_sites.specs.Shapes.{node_of, link_of, row_of, world_of, link_maps, with_map, with_link_map};
ghost use Rattle.vx_sites.specs.Rows.{change_by_write, is_copied, keeps_map, map_let_in, row_turned};

use crate::changes::newly_kept;
use crate::link::link_in;
use crate::{ChangeMaps, Link, Node, World, Write};
use vx_history::{Change, SEvent, SFacts};
use vx_model::limits::BLOCK;
use vx_model::{Link as PlainLink, Mode, OutOfMemory};
use vx_policy::{find_change, hold_of};

// The blocks of records up to which are counted what a link needs of a log: no ring has as many.
const MOST: u64 = 0x1_0000_0000;

impl World {
    /// The site loses what the network tells of its links.
    pub fn lose_touch(&mut self, site: u32)
        ensures { let w = world_of self.old in world_of self.new ≡ with_links w site (λ to. lost_touch (w.links site to)) }
    {
        if (site as usize) < self.rows.len() {
            lose_each(&mut self.rows[site as usize].links);
        }
    }

    /// The links of a site that comes up again.
    pub fn restart_links(&mut self, site: u32)
        ensures { let w = world_of self.old in world_of self.new ≡ with_links w site (λ to. restarted_link (w.nodes site) to (w.links site to)) }
    {
        if (site as usize) < self.rows.len() {
            restart_each(&mut self.rows[site as usize].links);
        }
    }

    /// The links of a site as the write is let in: each that leaves too little room and does not say so changes its mode. One that is then to
    /// keep a map has in it the regions of what its site may lack.
    pub fn let_in(&mut self, site: u32, write: &Write) -> Result<(), OutOfMemory>
        requires { site < length self.old.nodes.items }
        ensures { OnOk result (world_of self.new ≡ links_changed (world_of self.old) site write.now) }
    {
        if (site as usize) < self.rows.len() {
            let node = &self.nodes[site as usize];
            let row = &mut self.rows[site as usize];
            convert_maps(&mut self.maps, site, &row.links, node, write)?;
            change_each(&mut row.links, node, write);
            Ok(())
        } else {
            Ok(())
        }
    }

    /// The regions of these writes are marked in the maps that links of a site keep.
    pub fn mark_writes(&mut self, site: u32, writes: &[Write]) -> Result<(), OutOfMemory>
        ensures { OnOk result (world_of self.new ≡ links_marked (world_of self.old) site writes.now) }
    {
        if (site as usize) < self.rows.len() {
            let row = &self.rows[site as usize];
            mark_maps(&mut self.maps, site, &row.links, writes)
        } else {
            Ok(())
        }
    }

    /// The regions of the site's writes up to a number that were not durable before are marked in the maps that its links keep.
    pub fn mark_kept(&mut self, site: u32, kept: u64) -> Result<(), OutOfMemory>
        requires { site < length self.old.nodes.items }
        ensures { OnOk result (let w = world_of self.old in let n = w.nodes site in world_of self.new ≡ links_marked w site (drop n.safe (take kept n.log))) }
    {
        if (site as usize) < self.rows.len() {
            let row = &self.rows[site as usize];
            let node = &self.nodes[site as usize];
            let writes = newly_kept(&node.log, node.safe, kept);
            mark_maps(&mut self.maps, site, &row.links, writes)
        } else {
            Ok(())
        }
    }
}

fn lose_each(links: &mut Vec<Link>)
    ensures { row_of links.new.items ≡ (λ k. lost_touch (row_of links.old.items k)) }
{
    for to in 0..links.len() {
        let link = links[to];
        links[to] = lose(&link);
    }
}

fn lose(link: &Link) -> Link
    ensures { link_of result ≡ lost_touch (link_of link.now) }
{
    Link {
        made: link.made,
        state: PlainLink {
            connected: false,
            paused: false,
            net: link.state.stored,
            ..link.state
        },
    }
}

fn restart_each(links: &mut Vec<Link>)
    ensures { (n : PlainNode) → row_of links.new.items ≡ (λ k. restarted_link n k (row_of links.old.items k)) }
{
    for to in 0..links.len() {
        let link = links[to];
        links[to] = restart(&link);
    }
}

fn restart(link: &Link) -> Link
    ensures { (n : PlainNode) (k : ℕ) → link_of result ≡ restarted_link n k (link_of link.now) }
{
    let facts = SFacts {
        safe: 0,
        line_ok: true,
    };
    let mut state = link.state;
    vx_sender::step(&mut state, &SEvent::Restart, &facts);
    link.with_plain(&state)
}

fn change_each(links: &mut Vec<Link>, node: &Node, write: &Write)
    ensures { row_of links.new.items ≡ (λ k. with_map no_regions (link_after (node_of node.now) write.now k (row_of links.old.items k))) }
{
    for to in 0..links.len() {
        let link = links[to];
        links[to] = change(&link, node, write);
    }
}

fn change(link: &Link, node: &Node, write: &Write) -> Link
    ensures { (k : ℕ) → link_of result ≡ with_map no_regions (link_after (node_of node.now) write.now k (link_of link.now)) }
{
    let change = change_of(link, node, write);
    let mode = mode_after(&change, link.state.mode);
    Link {
        made: link.made,
        state: PlainLink { mode, ..link.state },
    }
}

fn mode_after(change: &Change, mode: Mode) -> Mode
    ensures { result ≡ changed_mode change.now mode }
{
    match change {
        Change::Stays => mode,
        Change::ToStale => Mode::Stale,
        Change::ToDcm => Mode::Dcm,
    }
}

// How the link changes as the write is let in.
fn change_of(link: &Link, node: &Node, write: &Write) -> Change
    ensures { (k : ℕ) → result ≡ change_by_write (node_of node.now) write.now k (link_of link.now) }
{
    let need = (write.as_bytes().len() / BLOCK + 1) as u64;
    let used = used_above(&node.log, &link.state);
    find_change(&link.state, used, need, u64::from(node.ring))
}

// The maps of the links of a site as the write is let in.
fn convert_maps(
    maps: &mut ChangeMaps,
    site: u32,
    links: &[Link],
    node: &Node,
    write: &Write,
) -> Result<(), OutOfMemory>
    ensures { OnOk result (link_maps maps.new.entries.items ≡ row_turned (link_maps maps.old.entries.items) site (λ k. map_let_in (node_of node.now) write.now k (row_of links.now k))) }
{
    for to in 0..links.len() {
        let link = link_in(links, to);
        convert_map(maps, site, to, &link, node, write)?;
    }
    Ok(())
}

fn convert_map(
    maps: &mut ChangeMaps,
    site: u32,
    to: usize,
    link: &Link,
    node: &Node,
    write: &Write,
) -> Result<(), OutOfMemory>
    ensures { OnOk result (let m = link_maps maps.old.entries.items in link_maps maps.new.entries.items ≡ with_link_map m site to (map_let_in (node_of node.now) write.now to (link_of link.now) (m site to))) }
{
    match change_of(link, node, write) {
        Change::Stays | Change::ToStale => Ok(()),
        Change::ToDcm => {
            let late = log_above(&node.log, &link.state);
            begin_map(maps, site, to, &link.state.mode, late)
        }
    }
}

// The map of a link that is converted: what a replay has still to copy, and the regions of these writes.
fn begin_map(
    maps: &mut ChangeMaps,
    site: u32,
    to: usize,
    mode: &Mode,
    late: &[Write],
) -> Result<(), OutOfMemory>
    ensures { OnOk result (let m = link_maps maps.old.entries.items in link_maps maps.new.entries.items ≡ with_link_map m site to (joined_maps (map_kept mode.now (m site to)) (marks_of_all late.now))) }
{
    if is_in_replay(mode) {
        return maps.mark(site, to, late);
    }
    maps.clear(site, to)?;
    maps.mark(site, to, late)
}

fn is_in_replay(mode: &Mode) -> bool
    ensures { result ≡ is_copied mode.now }
{
    match mode {
        Mode::Replay { .. } => true,
        Mode::Log | Mode::Dcm | Mode::Fork { .. } | Mode::Stale => false,
    }
}

// The maps of the links of a site with the regions of these writes, where they keep one.
fn mark_maps(
    maps: &mut ChangeMaps,
    site: u32,
    links: &[Link],
    writes: &[Write],
) -> Result<(), OutOfMemory>
    ensures { OnOk result (link_maps maps.new.entries.items ≡ row_turned (link_maps maps.old.entries.items) site (λ k m. map_after (row_of links.now k).mode m writes.now)) }
{
    for to in 0..links.len() {
        let link = link_in(links, to);
        mark_map(maps, site, to, &link.state.mode, writes)?;
    }
    Ok(())
}

fn mark_map(
    maps: &mut ChangeMaps,
    site: u32,
    to: usize,
    mode: &Mode,
    writes: &[Write],
) -> Result<(), OutOfMemory>
    ensures { OnOk result (let m = link_maps maps.old.entries.items in link_maps maps.new.entries.items ≡ with_link_map m site to (map_after mode.now (m site to) writes.now)) }
{
    if has_map(mode) {
        return maps.mark(site, to, writes);
    }
    Ok(())
}

fn has_map(mode: &Mode) -> bool
    ensures { result ≡ keeps_map mode.now }
{
    match mode {
        Mode::Dcm | Mode::Fork { .. } => true,
        Mode::Log | Mode::Replay { .. } | Mode::Stale => false,
    }
}

// The writes of a log above a link's hold.
fn log_above<'a>(log: &'a [Write], link: &PlainLink) -> &'a [Write]
    ensures { result.now ≡ drop (hold link.now) log.now }
{
    let from = (hold_of(link) as usize).min(log.len());
    &log[from..]
}

/// The blocks of a log that the numbers above a link's hold take, counted up to 2^32.
pub fn used_above(log: &[Write], link: &PlainLink) -> u64
    ensures { result ≡ min (logged_blocks (drop (hold link.now) log.now)) 0x1_0000_0000 }
{
    count_blocks(log_above(log, link))
}

fn count_blocks(writes: &[Write]) -> u64
    ensures { result ≡ min (logged_blocks writes.now) 0x1_0000_0000 }
{
    let mut count = 0;
    for write in writes {
        let blocks = write.as_bytes().len() / BLOCK;
        count = MOST.min(count + blocks as u64 + 1);
    }
    count
}
