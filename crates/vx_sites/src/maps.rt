// The change maps of links.
ghost use Rattle.std.specs.Prelude.{◌≡◌, [], OnOk};
ghost use Rattle.vx_history.specs.World.{no_regions};
ghost use Rattle.vx_history.specs.Regions.{joined_maps, marks_of_all};
ghost use Rattle.vx_sites.specs.Shapes.{link_maps, with_link_map};

use crate::Write;
use std::alloc::Global;
use vx_model::OutOfMemory;

/// What is made of a map.
#[derive(Clone, Copy)]
pub enum MapChange {
    /// No region is marked any more.
    Clear,
    /// The regions of a volume that so many bytes touch, from a block on, are marked too.
    Mark {
        volume: u32,
        start: u64,
        bytes: usize,
    },
}

/// What is made of the map of the link from one site to another.
#[derive(Clone, Copy)]
pub struct MapEntry {
    pub from: u32,
    pub to: usize,
    pub change: MapChange,
}

/// The change maps of all links, as what was made of them, the first before the others. A link itself stays small: what is read of it is the
/// link but for its map.
#[derive(Drop)]
pub struct ChangeMaps {
    pub entries: Vec<MapEntry>,
}

impl ChangeMaps {
    /// Maps in which no region is marked.
    pub fn new(alloc: Global) -> ChangeMaps
        ensures { result.entries.items ≡ [] }
    {
        ChangeMaps {
            entries: Vec::new(alloc),
        }
    }

    /// No region is marked any more in the map of this link.
    pub fn clear(&mut self, from: u32, to: usize) -> Result<(), OutOfMemory>
        ensures { OnOk result (link_maps self.new.entries.items ≡ with_link_map (link_maps self.old.entries.items) from to no_regions) }
    {
        self.entries.push(MapEntry {
            from,
            to,
            change: MapChange::Clear,
        })?;
        Ok(())
    }

    /// The regions of these writes are marked too in the map of this link.
    pub fn mark(&mut self, from: u32, to: usize, writes: &[Write]) -> Result<(), OutOfMemory>
        ensures { OnOk result (let maps = link_maps self.old.entries.items in link_maps self.new.entries.items ≡ with_link_map maps from to (joined_maps (maps from to) (marks_of_all writes.now))) }
    {
        for write in writes {
            self.entries.push(MapEntry {
                from,
                to,
                change: MapChange::Mark {
                    volume: write.volume(),
                    start: write.start(),
                    bytes: write.as_bytes().len(),
                },
            })?;
        }
        Ok(())
    }
}
