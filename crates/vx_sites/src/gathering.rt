// The message that each site puts together from its parts.
ghost use Rattle.std.specs.Prelude.{◌≡◌, ◌<◌, length, IfOk, OnOk};
ghost use Rattle.std.specs.List.{list_all};
ghost use Rattle.vx_history.specs.Gatherings.{key_of as key_by, same_key, came_before, came_after as came_by, completes as completes_by, gathered, emptied};
ghost use Rattle.vx_sites.specs.Shapes.{world_of, packet_of, plain_key, held_of, places_of};

use crate::packet::{kind_of, number_of, parts_of, session_of};
use crate::{Packet, World};
use std::alloc::Global;
use vx_model::{Line, OutOfMemory};

/// What the parts of one message have in common.
#[derive(Clone, Copy)]
pub struct Key {
    pub source: u32,
    pub kind: u32,
    pub line: Line,
    pub session: u64,
    pub number: u64,
    pub parts: u32,
}

/// A message of which not all parts have come, and of each part whether it has.
#[derive(Drop)]
pub struct Gathering {
    pub key: Key,
    pub came: Vec<bool>,
}

/// What a site has in assembly.
#[derive(Drop)]
pub struct Place {
    pub held: Option<Gathering>,
}

impl World {
    /// Whether the message of the packet is whole with it at its target.
    pub fn completes(&self, packet: &Packet) -> Result<bool, OutOfMemory>
        ensures { IfOk result (λ whole. let p = packet_of packet.now in whole ≡ completes_by ((world_of self.now).gathering p.target) p) }
    {
        let came = self.came_after(packet)?;
        Ok(is_whole(&came))
    }

    /// The packet's target puts the packet to what it has in assembly.
    pub fn gather(&mut self, packet: &Packet) -> Result<(), OutOfMemory>
        ensures { OnOk result (world_of self.new ≡ gathered (world_of self.old) (packet_of packet.now)) }
    {
        let came = self.came_after(packet)?;
        let held = if is_whole(&came) {
            None
        } else {
            Some(Gathering {
                key: key_of(packet),
                came,
            })
        };
        lengthen_places(&mut self.gathering, packet.target as usize)?;
        self.gathering[packet.target as usize] = Place { held };
        Ok(())
    }

    /// Nothing is in assembly at the site.
    pub fn empty(&mut self, site: u32)
        ensures { world_of self.new ≡ emptied (world_of self.old) site }
    {
        if (site as usize) < self.gathering.len() {
            self.gathering[site as usize] = Place { held: None };
        }
    }

    // Which parts of the packet's message have come to its target, with this one.
    fn came_after(&self, packet: &Packet) -> Result<Vec<bool>, OutOfMemory>
        ensures { IfOk result (λ came. let p = packet_of packet.now in came.items ≡ came_by ((world_of self.now).gathering p.target) p) }
    {
        match self.gathering.get(packet.target as usize) {
            Some(place) => came_in(self.alloc, place, packet),
            None => came_in(self.alloc, &Place { held: None }, packet),
        }
    }
}

// Which parts of the packet's message have come to this place, with this one.
fn came_in(alloc: Global, place: &Place, packet: &Packet) -> Result<Vec<bool>, OutOfMemory>
    ensures { IfOk result (λ came. came.items ≡ came_by (held_of place.now.held) (packet_of packet.now)) }
{
    let mut came = find_before(alloc, place, &key_of(packet))?;
    if (packet.part as usize) < came.len() {
        came[packet.part as usize] = true;
    }
    Ok(came)
}

// Which parts of the message with this key have come: none where another message is in assembly.
fn find_before(alloc: Global, place: &Place, key: &Key) -> Result<Vec<bool>, OutOfMemory>
    ensures { IfOk result (λ came. came.items ≡ came_before (held_of place.now.held) (plain_key key.now)) }
{
    if let Some(held) = &place.held {
        if is_same_key(&held.key, key) {
            return Ok(Vec::from_slice(alloc, &held.came)?);
        }
    }
    Ok(Vec::from_elem(alloc, false, key.parts as usize)?)
}

// The key of the packet's message.
fn key_of(packet: &Packet) -> Key
    ensures { plain_key result ≡ key_by (packet_of packet.now) }
{
    Key {
        source: packet.source,
        kind: kind_of(&packet.message),
        line: packet.line,
        session: session_of(&packet.message),
        number: number_of(&packet.message),
        parts: parts_of(&packet.message),
    }
}

fn is_same_key(key: &Key, other: &Key) -> bool
    ensures { result ≡ same_key (plain_key key.now) (plain_key other.now) }
{
    let is_of_source = key.source == other.source && key.kind == other.kind;
    let is_of_line = key.line.generation == other.line.generation
        && key.line.origin == other.line.origin;
    let is_numbered = key.session == other.session && key.number == other.number;
    is_of_source && is_of_line && is_numbered && key.parts == other.parts
}

fn is_whole(came: &[bool]) -> bool
    ensures { result ≡ list_all (λ c. c) came.now }
{
    came.iter().all(|part| *part)
}

// Adds places in which nothing is in assembly, up to the one of this site.
fn lengthen_places(places: &mut Vec<Place>, site: usize) -> Result<(), OutOfMemory>
    ensures within { OnOk result (site < length places.new.items) }
    ensures same { OnOk result (places_of places.new.items ≡ places_of places.old.items) }
{
    while places.len() <= site {
        places.push(Place { held: None })?;
    }
    Ok(())
}
