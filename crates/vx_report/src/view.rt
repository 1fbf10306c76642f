// What a status is made from.
ghost use Rattle.std.specs.Prelude.{◌≡◌, ◌<◌, ◌++◌, ◌∷◌, [], IfOk, OnOk, length};
ghost use Rattle.vx_model.specs.declared.limits.TheConstants.{LINK_PLACES};

use std::alloc::Global;
use std::marker::Model;
use vx_model::limits::{LINK_PLACES, MOST_CALL_BLOCKS};
use vx_model::{Mark, Mode, Name, OutOfMemory, PlexState, Role, SiteName, SiteState};

/// The replicated volume group of a site, or its log as a bunker.
#[derive(Clone, Copy)]
pub struct RvgView {
    pub role: Role,
    pub generation: u64,
    /// The site that began the line.
    pub origin: SiteName,
    /// The last number that was logged or received.
    pub head: u64,
    pub mark: Mark,
    pub session: u64,
    /// The disk on which a log, map or data write failed since the last recovery.
    pub halted: Option<u32>,
}

/// A link, as its sending end has it.
#[derive(Clone, Copy)]
pub struct LinkView {
    pub name: SiteName,
    pub bunker: bool,
    pub attached: bool,
    pub connected: bool,
    pub paused: bool,
    pub mode: Mode,
    /// How many regions its change map marks.
    pub marked: u32,
    pub net: u64,
    pub stored: u64,
}

/// A volume of a group, with its plexes in order. `blocks` are of 512 bytes.
#[derive(Drop)]
pub struct VolumeView {
    pub name: Name,
    pub blocks: u64,
    /// Whether it has a dirty region log.
    pub drl: bool,
    /// Whether it keeps maps of what its detached plexes miss.
    pub fmr: bool,
    pub plexes: PlexViews,
}

/// A site. The lists of disks and volumes are a group's, and empty where the site is none.
#[derive(Drop)]
pub struct SiteView {
    pub name: Name,
    pub state: SiteState,
    pub disks: DiskViews,
    pub volumes: VolumeViews,
    pub rvg: Option<RvgView>,
    pub links: LinkViews,
}

/// The disks of a group in order, each true where it is ok. Contracts see their list.
#[derive(Drop)]
pub struct DiskViews {
    disks: Vec<bool>,
}

impl Model for DiskViews {
    ghost use Rattle.std.specs.Prelude.{List, Bool};

    ghost Value = { List Bool };

    ghost view = { λ d. d.disks.items };
}

impl DiskViews {
    /// These, in order.
    pub(crate) fn of(disks: Vec<bool>) -> DiskViews
        ensures { result ≡ disks.items }
    {
        DiskViews { disks }
    }

    /// No disks.
    pub fn new(alloc: Global) -> DiskViews
        ensures { result ≡ [] }
    {
        DiskViews {
            disks: Vec::new(alloc),
        }
    }

    /// Adds a disk after the others.
    pub fn push(&mut self, ok: bool) -> Result<(), OutOfMemory>
        ensures { OnOk result (self.new ≡ self.old ++ ok ∷ []) }
    {
        self.disks.push(ok)?;
        Ok(())
    }

    /// The disks, in order.
    pub fn as_slice(&self) -> &[bool]
        ensures { result.now ≡ self.now }
    {
        &self.disks
    }
}

/// The plexes of a volume in order. Contracts see their list.
#[derive(Drop)]
pub struct PlexViews {
    plexes: Vec<PlexState>,
}

impl Model for PlexViews {
    ghost use Rattle.std.specs.Prelude.{List};
    ghost use Rattle.vx_model.specs.declared.site.PlexState.{PlexState};

    ghost Value = { List PlexState };

    ghost view = { λ p. p.plexes.items };
}

impl PlexViews {
    /// These, in order.
    pub(crate) fn of(plexes: Vec<PlexState>) -> PlexViews
        ensures { result ≡ plexes.items }
    {
        PlexViews { plexes }
    }

    /// No plexes.
    pub fn new(alloc: Global) -> PlexViews
        ensures { result ≡ [] }
    {
        PlexViews {
            plexes: Vec::new(alloc),
        }
    }

    /// Adds a plex after the others.
    pub fn push(&mut self, state: PlexState) -> Result<(), OutOfMemory>
        ensures { OnOk result (self.new ≡ self.old ++ state ∷ []) }
    {
        self.plexes.push(state)?;
        Ok(())
    }

    /// The plexes, in order.
    pub fn as_slice(&self) -> &[PlexState]
        ensures { result.now ≡ self.now }
    {
        &self.plexes
    }
}

/// The volumes of a group in order. Contracts see their list.
#[derive(Drop)]
pub struct VolumeViews {
    volumes: Vec<VolumeView>,
}

impl Model for VolumeViews {
    ghost use Rattle.std.specs.Prelude.{List};
    ghost use Rattle.vx_report.specs.declared.view.VolumeView.{VolumeView};

    ghost Value = { List VolumeView };

    ghost view = { λ v. v.volumes.items };
}

impl VolumeViews {
    /// These, in order.
    pub(crate) fn of(volumes: Vec<VolumeView>) -> VolumeViews
        ensures { result ≡ volumes.items }
    {
        VolumeViews { volumes }
    }

    /// No volumes.
    pub fn new(alloc: Global) -> VolumeViews
        ensures { result ≡ [] }
    {
        VolumeViews {
            volumes: Vec::new(alloc),
        }
    }

    /// Adds a volume after the others.
    pub fn push(&mut self, volume: VolumeView) -> Result<(), OutOfMemory>
        ensures { OnOk result (self.new ≡ self.old ++ volume ∷ []) }
    {
        self.volumes.push(volume)?;
        Ok(())
    }

    /// The volumes, in order.
    pub fn as_slice(&self) -> &[VolumeView]
        ensures { result.now ≡ self.now }
    {
        &self.volumes
    }
}

/// What a recovery found of a write to a volume in which the fuse ran out.
#[derive(Clone, Copy)]
pub struct Kept {
    pub volume: Name,
    /// Its first block.
    pub block: u64,
    /// How many blocks it has, 1 to 16.
    pub count: u32,
    /// Of each of them whether it now has what was to be written.
    pub bits: [bool; MOST_CALL_BLOCKS as usize],
}

/// The links of a site in the order of their making. Contracts see their list.
#[derive(Drop)]
pub struct LinkViews {
    links: Vec<LinkView>,
}

impl Model for LinkViews {
    ghost use Rattle.std.specs.Prelude.{List};
    ghost use Rattle.vx_report.specs.declared.view.LinkView.{LinkView};

    ghost Value = { List LinkView };

    ghost view = { λ l. l.links.items };
}

impl LinkViews {
    /// No links.
    pub fn new(alloc: Global) -> LinkViews
        ensures { result ≡ [] }
    {
        LinkViews {
            links: Vec::new(alloc),
        }
    }

    /// Adds a link after the others.
    pub fn push(&mut self, link: LinkView) -> Result<(), OutOfMemory>
        ensures { OnOk result (self.new ≡ self.old ++ link ∷ []) }
    {
        // The name stands apart, since the checker loses its type inside the link.
        let name = link.name;
        self.links.push(LinkView { name, ..link })?;
        Ok(())
    }

    /// The links, in order.
    pub fn as_slice(&self) -> &[LinkView]
        ensures { result.now ≡ self.now }
    {
        &self.links
    }
}

/// Room for the links of a site, taken before they are known. Contracts see those that are in it.
#[derive(Drop)]
pub struct LinkViewRoom {
    links: Vec<LinkView>,
}

impl Model for LinkViewRoom {
    ghost use Rattle.std.specs.Prelude.{List, ◌≤◌};
    ghost use Rattle.std.specs.Vec.{vec_capacity};
    ghost use Rattle.vx_model.specs.declared.limits.TheConstants.{LINK_PLACES};
    ghost use Rattle.vx_report.specs.declared.view.LinkView.{LinkView};

    ghost Value = { List LinkView };

    ghost view = { λ r. r.links.items };

    ghost invariant = { λ r. LINK_PLACES ≤ vec_capacity r.links };
}

impl LinkViewRoom {
    /// Room for as many links as the header of a log has places for.
    pub fn new(alloc: Global) -> Result<LinkViewRoom, OutOfMemory>
        ensures { IfOk result (λ room. room ≡ []) }
    {
        Ok(LinkViewRoom {
            links: Vec::with_capacity(alloc, LINK_PLACES)?,
        })
    }

    /// Adds a link after the others.
    pub fn push(&mut self, link: LinkView)
        requires room { length self.old < LINK_PLACES }
        ensures { self.new ≡ self.old ++ link ∷ [] }
    {
        // The name stands apart, since the checker loses its type inside the link.
        let name = link.name;
        match self.links.push(LinkView { name, ..link }) {
            Ok(()) => {}
            Err(_) => unreachable!(),
        }
    }

    /// The links, to be shown.
    pub fn into_views(self) -> LinkViews
        ensures { result ≡ self }
    {
        LinkViews { links: self.links }
    }
}
