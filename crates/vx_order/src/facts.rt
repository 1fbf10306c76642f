// What the tests of a line look at.
ghost use Rattle.std.specs.Prelude.{◌≡◌, ◌<◌, ◌++◌, ◌∷◌, [], IfOk, OnOk, length, slice_set};
ghost use Rattle.vx_model.specs.declared.limits.TheConstants.{LINK_PLACES, MOST_VOLUMES};

use std::alloc::Global;
use std::marker::Model;
use vx_model::limits::{LINK_PLACES, MOST_VOLUMES};
use vx_model::{Line, Link, Mark, Name, OutOfMemory, Role, SiteState};

/// What a volume is to the replicated volume group of its site.
#[derive(Clone, Copy, Debug, PartialEq, Eq)]
pub enum VolumeKind {
    /// One of its data volumes.
    Data,
    /// Its log.
    Srl,
    /// Its maps.
    Map,
    /// Nothing.
    Plain,
}

/// A volume. `blocks` are of 512 bytes.
#[derive(Clone, Copy)]
pub struct VolumeFacts {
    pub name: Name,
    pub blocks: u64,
    pub kind: VolumeKind,
    /// How many plexes it has, 0 where the site is no disk group.
    pub plexes: u32,
}

/// The replicated volume group of a site, or its log as a bunker.
#[derive(Clone, Copy)]
pub struct RvgFacts {
    pub role: Role,
    pub line: Line,
    pub parent: Line,
    pub mark: Mark,
    /// The lowest number that the log holds.
    pub low: u64,
    /// The last number that was logged or received.
    pub last: u64,
    /// The blocks of the log's ring.
    pub ring: u64,
    /// The disk on which a log, map or data write failed since the last recovery.
    pub halted: Option<u32>,
}

/// A link of a site, at the end that sends.
#[derive(Clone, Copy)]
pub struct LinkFacts {
    pub link: Link,
    /// The blocks of the log's ring that the numbers above the link's hold take, or 0 where the link needs nothing of the log.
    pub used: u64,
}

/// A site. Only an up site has volumes, a replicated volume group and links.
#[derive(Drop)]
pub struct SiteFacts {
    pub name: Name,
    pub state: SiteState,
    /// How many disks it has.
    pub disks: u32,
    /// How many blocks each of them has.
    pub blocks: u64,
    /// Whether they are a disk group.
    pub grouped: bool,
    pub volumes: VolumeTable,
    pub rvg: Option<RvgFacts>,
    pub links: LinkTable,
}

/// The volumes of a site. Contracts see their list.
#[derive(Drop)]
pub struct VolumeTable {
    volumes: Vec<VolumeFacts>,
}

impl Model for VolumeTable {
    ghost use Rattle.std.specs.Prelude.{List};
    ghost use Rattle.vx_order.specs.declared.facts.VolumeFacts.{VolumeFacts};

    ghost Value = { List VolumeFacts };

    ghost view = { λ v. v.volumes.items };
}

impl VolumeTable {
    /// No volumes.
    pub fn new(alloc: Global) -> VolumeTable
        ensures { result ≡ [] }
    {
        VolumeTable {
            volumes: Vec::new(alloc),
        }
    }

    /// Adds a volume after the others.
    pub fn push(&mut self, volume: VolumeFacts) -> Result<(), OutOfMemory>
        ensures { OnOk result (self.new ≡ self.old ++ volume ∷ []) }
    {
        self.volumes.push(volume)?;
        Ok(())
    }

    /// The volumes, in order.
    pub fn as_slice(&self) -> &[VolumeFacts]
        ensures { result.now ≡ self.now }
    {
        &self.volumes
    }
}

/// Room for the volumes of a disk group, taken before they are known. Contracts see those that are in it.
#[derive(Drop)]
pub struct VolumeRoom {
    volumes: Vec<VolumeFacts>,
}

impl Model for VolumeRoom {
    ghost use Rattle.std.specs.Prelude.{List, ◌≤◌};
    ghost use Rattle.std.specs.Vec.{vec_capacity};
    ghost use Rattle.vx_model.specs.declared.limits.TheConstants.{MOST_VOLUMES};
    ghost use Rattle.vx_order.specs.declared.facts.VolumeFacts.{VolumeFacts};

    ghost Value = { List VolumeFacts };

    ghost view = { λ r. r.volumes.items };

    ghost invariant = { λ r. MOST_VOLUMES ≤ vec_capacity r.volumes };
}

impl VolumeRoom {
    /// Room for as many volumes as a group may have.
    pub fn new(alloc: Global) -> Result<VolumeRoom, OutOfMemory>
        ensures { IfOk result (λ room. room ≡ []) }
    {
        Ok(VolumeRoom {
            volumes: Vec::with_capacity(alloc, MOST_VOLUMES)?,
        })
    }

    /// Adds a volume after the others.
    pub fn push(&mut self, volume: VolumeFacts)
        requires room { length self.old < MOST_VOLUMES }
        ensures { self.new ≡ self.old ++ volume ∷ [] }
    {
        match self.volumes.push(volume) {
            Ok(()) => {}
            Err(_) => unreachable!(),
        }
    }

    /// The volumes as a table.
    pub fn into_table(self) -> VolumeTable
        ensures { result ≡ self }
    {
        VolumeTable {
            volumes: self.volumes,
        }
    }
}

/// The links of a site in the order of their making. Contracts see their list.
#[derive(Drop)]
pub struct LinkTable {
    links: Vec<LinkFacts>,
}

impl Model for LinkTable {
    ghost use Rattle.std.specs.Prelude.{List};
    ghost use Rattle.vx_order.specs.declared.facts.LinkFacts.{LinkFacts};

    ghost Value = { List LinkFacts };

    ghost view = { λ l. l.links.items };
}

impl LinkTable {
    /// No links.
    pub fn new(alloc: Global) -> LinkTable
        ensures { result ≡ [] }
    {
        LinkTable {
            links: Vec::new(alloc),
        }
    }

    /// Adds a link after the others.
    pub fn push(&mut self, link: LinkFacts) -> Result<(), OutOfMemory>
        ensures { OnOk result (self.new ≡ self.old ++ link ∷ []) }
    {
        self.links.push(link)?;
        Ok(())
    }

    /// Puts a link in the place of another one.
    pub fn set(&mut self, place: usize, link: LinkFacts)
        requires place { place < length self.old }
        ensures { self.new ≡ slice_set self.old place link }
    {
        self.links[place] = link;
    }

    /// The links, in order.
    pub fn as_slice(&self) -> &[LinkFacts]
        ensures { result.now ≡ self.now }
    {
        &self.links
    }
}

/// Room for the links of a site, taken before they are known. Contracts see those that are in it.
#[derive(Drop)]
pub struct LinkRoom {
    links: Vec<LinkFacts>,
}

impl Model for LinkRoom {
    ghost use Rattle.std.specs.Prelude.{List, ◌≤◌};
    ghost use Rattle.std.specs.Vec.{vec_capacity};
    ghost use Rattle.vx_order.specs.declared.facts.LinkFacts.{LinkFacts};
    ghost use Rattle.vx_model.specs.declared.limits.TheConstants.{LINK_PLACES};

    ghost Value = { List LinkFacts };

    ghost view = { λ r. r.links.items };

    ghost invariant = { λ r. LINK_PLACES ≤ vec_capacity r.links };
}

impl LinkRoom {
    /// Room for as many links as the header of a log has places for.
    pub fn new(alloc: Global) -> Result<LinkRoom, OutOfMemory>
        ensures { IfOk result (λ room. room ≡ []) }
    {
        Ok(LinkRoom {
            links: Vec::with_capacity(alloc, LINK_PLACES)?,
        })
    }

    /// Adds a link after the others.
    pub fn push(&mut self, link: LinkFacts)
        requires room { length self.old < LINK_PLACES }
        ensures { self.new ≡ self.old ++ link ∷ [] }
    {
        match self.links.push(link) {
            Ok(()) => {}
            Err(_) => unreachable!(),
        }
    }

    /// The links as a table.
    pub fn into_table(self) -> LinkTable
        ensures { result ≡ self }
    {
        LinkTable { links: self.links }
    }
}
