// A world in memory.
ghost use Rattle.std.specs.Prelude.{◌≡◌, ◌+◌, ◌<◌, length, IfOk, OnOk};
ghost use Rattle.vx_history.specs.World.{empty_world, no_regions, updated};
ghost use Rattle.vx_history.specs.Sends.{with_link, sending, packets_of};
ghost use Rattle.vx_sites.specs.Shapes.{world_of, node_of, link_of, with_map};
ghost use Rattle.vx_sites.specs.Messages.{message_of};

use crate::link::lengthen_rows;
use crate::{ChangeMaps, Dispatch, Dispatches, Entry, Link, Node, Place, Promise, Row};
use std::alloc::Global;
use vx_model::OutOfMemory;

/// A world of sites, links, lines and packets. Contracts see it as `world_of` says.
#[derive(Drop)]
pub struct World {
    pub alloc: Global,
    pub nodes: Vec<Node>,
    /// The links of each site. A site without a row has none.
    pub rows: Vec<Row>,
    /// The change maps of links.
    pub maps: ChangeMaps,
    pub lines: Vec<Entry>,
    /// All packets that were ever sent, number 1 first.
    pub packets: Dispatches,
    /// All promises that were ever made.
    pub promised: Vec<Promise>,
    /// What each site has in assembly. One without a place has nothing.
    pub gathering: Vec<Place>,
}

impl World {
    /// The world without sites.
    pub fn new(alloc: Global) -> Result<World, OutOfMemory>
        ensures { IfOk result (λ w. world_of w ≡ empty_world) }
    {
        Ok(World {
            alloc,
            nodes: Vec::new(alloc),
            rows: Vec::new(alloc),
            maps: ChangeMaps::new(alloc),
            lines: Vec::new(alloc),
            packets: Dispatches::new(alloc),
            promised: Vec::new(alloc),
            gathering: Vec::new(alloc),
        })
    }

    /// The site of this number.
    pub fn node(&self, site: u32) -> &Node
        requires { site < length self.now.nodes.items }
        ensures { node_of result.now ≡ (world_of self.now).nodes site }
    {
        &self.nodes[site as usize]
    }

    /// A further site.
    pub fn add_site(&mut self, node: Node) -> Result<(), OutOfMemory>
        ensures { OnOk result (let w = world_of self.old in world_of self.new ≡ record w { sites = w.sites + 1; nodes = updated w.nodes w.sites (node_of node) }) }
    {
        self.nodes.push(node)?;
        Ok(())
    }

    /// How many sites there are. More than a number of 32 bits has no memory for.
    pub fn count_sites(&self) -> Result<u32, OutOfMemory>
        ensures { IfOk result (λ count. count ≡ (world_of self.now).sites) }
    {
        match u32::try_from(self.nodes.len()) {
            Ok(count) => Ok(count),
            Err(_) => Err(OutOfMemory),
        }
    }

    /// The link from a site to another, but for its map.
    pub fn link(&self, from: u32, to: u32) -> Link
        ensures { link_of result ≡ with_map no_regions ((world_of self.now).links from to) }
    {
        self.link_at(from, to as usize)
    }

    /// The link from a site to the one in this place among the sites, but for its map.
    pub fn link_at(&self, from: u32, place: usize) -> Link
        ensures { link_of result ≡ with_map no_regions ((world_of self.now).links from place) }
    {
        match self.rows.get(from as usize) {
            Some(row) => row.link(place),
            None => Link::none(),
        }
    }

    /// Puts this link into the place of the one from a site to another, of which the map stays.
    pub fn set_link(&mut self, from: u32, to: u32, link: Link) -> Result<(), OutOfMemory>
        ensures { OnOk result (let w = world_of self.old in world_of self.new ≡ with_link w from to (with_map (w.links from to).map (link_of link))) }
    {
        lengthen_rows(self.alloc, &mut self.rows, from as usize)?;
        self.rows[from as usize].set(to, link)?;
        Ok(())
    }

    /// Puts this link into the place of the one from a site to another. No region is marked in its map.
    pub fn renew_link(&mut self, from: u32, to: u32, link: Link) -> Result<(), OutOfMemory>
        ensures { OnOk result (world_of self.new ≡ with_link (world_of self.old) from to (link_of link)) }
    {
        lengthen_rows(self.alloc, &mut self.rows, from as usize)?;
        self.rows[from as usize].set(to, link)?;
        self.maps.clear(from, to as usize)?;
        Ok(())
    }

    /// Sends the packets of a message.
    pub fn send(&mut self, dispatch: Dispatch) -> Result<(), OutOfMemory>
        ensures { OnOk result (world_of self.new ≡ sending (world_of self.old) (packets_of dispatch.source dispatch.target dispatch.line (message_of dispatch.message))) }
    {
        self.packets.send(dispatch)
    }
}
