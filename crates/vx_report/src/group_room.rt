// Room for what a status shows of a disk group, taken before the group is known.
ghost use Rattle.std.specs.Prelude.{◌≡◌, ◌<◌, ◌≤◌, ◌++◌, ◌∷◌, [], IfOk, length};
ghost use Rattle.vx_model.specs.declared.limits.TheConstants.{MOST_DISKS, MOST_PLEXES, MOST_VOLUMES};
ghost use Rattle.vx_report.specs.GroupRoom.{volume_shown};

use crate::view::{DiskViews, PlexViews, VolumeView, VolumeViews};
use std::alloc::Global;
use std::marker::Model;
use vx_model::limits::{MOST_DISKS, MOST_PLEXES, MOST_VOLUMES};
use vx_model::{Name, OutOfMemory, PlexState};

/// A volume by itself. `blocks` are of 512 bytes.
#[derive(Clone, Copy)]
pub struct VolumeHead {
    pub name: Name,
    pub blocks: u64,
    /// Whether it has a dirty region log.
    pub drl: bool,
    /// Whether it keeps maps of what its detached plexes miss.
    pub fmr: bool,
}

/// Room for the plexes of a volume. Contracts see those that are in it.
#[derive(Drop)]
pub struct PlexRoom {
    plexes: Vec<PlexState>,
}

impl Model for PlexRoom {
    ghost use Rattle.std.specs.Prelude.{List, ◌≤◌};
    ghost use Rattle.std.specs.Vec.{vec_capacity};
    ghost use Rattle.vx_model.specs.declared.limits.TheConstants.{MOST_PLEXES};
    ghost use Rattle.vx_model.specs.declared.site.PlexState.{PlexState};

    ghost Value = { List PlexState };

    ghost view = { λ r. r.plexes.items };

    ghost invariant = { λ r. MOST_PLEXES ≤ vec_capacity r.plexes };
}

impl PlexRoom {
    fn new(alloc: Global) -> Result<PlexRoom, OutOfMemory>
        ensures { IfOk result (λ room. room ≡ []) }
    {
        Ok(PlexRoom {
            plexes: Vec::with_capacity(alloc, MOST_PLEXES)?,
        })
    }

    fn push(&mut self, state: PlexState)
        requires room { length self.old < MOST_PLEXES }
        ensures { self.new ≡ self.old ++ state ∷ [] }
    {
        match self.plexes.push(state) {
            Ok(()) => {}
            Err(_) => unreachable!(),
        }
    }

    fn into_views(self) -> PlexViews
        ensures { result ≡ self }
    {
        PlexViews::of(self.plexes)
    }
}

/// Room for the disks of a group. Contracts see those that are in it.
#[derive(Drop)]
pub struct DiskViewRoom {
    disks: Vec<bool>,
}

impl Model for DiskViewRoom {
    ghost use Rattle.std.specs.Prelude.{List, Bool, ◌≤◌};
    ghost use Rattle.std.specs.Vec.{vec_capacity};
    ghost use Rattle.vx_model.specs.declared.limits.TheConstants.{MOST_DISKS};

    ghost Value = { List Bool };

    ghost view = { λ r. r.disks.items };

    ghost invariant = { λ r. MOST_DISKS ≤ vec_capacity r.disks };
}

impl DiskViewRoom {
    /// Room for as many disks as a site may have.
    pub fn new(alloc: Global) -> Result<DiskViewRoom, OutOfMemory>
        ensures { IfOk result (λ room. room ≡ []) }
    {
        Ok(DiskViewRoom {
            disks: Vec::with_capacity(alloc, MOST_DISKS as usize)?,
        })
    }

    /// Adds a disk after the others.
    pub fn push(&mut self, ok: bool)
        requires room { length self.old < MOST_DISKS }
        ensures { self.new ≡ self.old ++ ok ∷ [] }
    {
        match self.disks.push(ok) {
            Ok(()) => {}
            Err(_) => unreachable!(),
        }
    }

    /// The disks, to be shown.
    pub fn into_views(self) -> DiskViews
        ensures { result ≡ self }
    {
        DiskViews::of(self.disks)
    }
}

// The plexes of a volume in a room for them.
fn filled(room: PlexRoom, states: &[PlexState]) -> PlexRoom
    requires empty { room ≡ [] }
    requires few { length states.now ≤ MOST_PLEXES }
    ensures { result ≡ states.now }
{
    let mut room = room;
    for state in states {
        room.push(*state);
    }
    room
}

/// Room for the volumes of a group, each with room for its plexes. Contracts see those that are in it.
#[derive(Drop)]
pub struct VolumeViewRoom {
    volumes: Vec<VolumeView>,
    // Empty, one for each further volume.
    rooms: Vec<PlexRoom>,
}

impl Model for VolumeViewRoom {
    ghost use Rattle.std.specs.Prelude.{List, [], All, ◌≡◌, ◌≤◌, ◌+◌, length};
    ghost use Rattle.std.specs.Vec.{vec_capacity};
    ghost use Rattle.vx_model.specs.declared.limits.TheConstants.{MOST_VOLUMES};
    ghost use Rattle.vx_report.specs.declared.view.VolumeView.{VolumeView};

    ghost Value = { List VolumeView };

    ghost view = { λ r. r.volumes.items };

    ghost invariant = { λ r. (MOST_VOLUMES ≤ vec_capacity r.volumes) × (MOST_VOLUMES ≤ length r.volumes.items + length r.rooms.items) × All (λ p. p ≡ []) r.rooms.items };
}

impl VolumeViewRoom {
    /// Room for as many volumes as a group may have.
    pub fn new(alloc: Global) -> Result<VolumeViewRoom, OutOfMemory>
        ensures { IfOk result (λ room. room ≡ []) }
    {
        let mut rooms = Vec::with_capacity(alloc, MOST_VOLUMES)?;
        for _volume in 0..MOST_VOLUMES {
            rooms.push(PlexRoom::new(alloc)?)?;
        }
        Ok(VolumeViewRoom {
            volumes: Vec::with_capacity(alloc, MOST_VOLUMES)?,
            rooms,
        })
    }

    /// Adds a volume with these plexes after the others.
    pub fn push(&mut self, head: VolumeHead, states: &[PlexState])
        requires room { length self.old < MOST_VOLUMES }
        requires few { length states.now ≤ MOST_PLEXES }
        ensures { self.new ≡ self.old ++ volume_shown head states.now ∷ [] }
    {
        let room = match self.rooms.pop() {
            Some(room) => room,
            None => unreachable!(),
        };
        let view = VolumeView {
            name: head.name,
            blocks: head.blocks,
            drl: head.drl,
            fmr: head.fmr,
            plexes: filled(room, states).into_views(),
        };
        match self.volumes.push(view) {
            Ok(()) => {}
            Err(_) => unreachable!(),
        }
    }

    /// The volumes, to be shown.
    pub fn into_views(self) -> VolumeViews
        ensures { result ≡ self }
    {
        VolumeViews::of(self.volumes)
    }
}
