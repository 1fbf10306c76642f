// The volumes of a group.
ghost use Rattle.std.specs.Prelude.{◌≡◌, ◌<◌, ◌≤◌, [], ◌∷◌, ◌++◌, length, option_to_list, IsSome, ◌↔◌, OnOk};
ghost use Rattle.vx_config.specs.Changes.{changed_at, lost_as as lost_is, with_lost, with_plex};
ghost use Rattle.vx_model.specs.declared.limits.TheConstants.{MOST_VOLUMES};

use crate::{LogEntry, VolumeEntry, VolumeLog};
use std::alloc::Global;
use std::marker::Model;
use vx_model::{OutOfMemory, PlexState};

// A log that is lost or not, where there is one.
fn lost_as(log: Option<LogEntry>, lost: bool) -> Option<LogEntry>
    ensures { result ≡ lost_is lost log }
{
    match log {
        None => None,
        Some(log) => Some(LogEntry {
            lost,
            disk: log.disk,
            start: log.start,
            blocks: log.blocks,
        }),
    }
}

/// Up to 32 volumes, in order. Contracts see their list.
#[derive(Drop)]
pub struct Volumes {
    volumes: Vec<VolumeEntry>,
}

impl Model for Volumes {
    ghost use Rattle.std.specs.Prelude.{List, ◌≤◌, length};
    ghost use Rattle.vx_config.specs.declared.entry.VolumeEntry.{VolumeEntry};
    ghost use Rattle.vx_model.specs.declared.limits.TheConstants.{MOST_VOLUMES};

    ghost Value = { List VolumeEntry };

    ghost view = { λ l. l.volumes.items };

    ghost invariant = { λ l. length l.volumes.items ≤ MOST_VOLUMES };
}

impl Volumes {
    /// No volumes.
    pub fn new(alloc: Global) -> Volumes
        ensures { result ≡ [] }
    {
        Volumes {
            volumes: Vec::new(alloc),
        }
    }

    /// Adds a volume after the others.
    pub fn push(&mut self, volume: VolumeEntry) -> Result<(), OutOfMemory>
        requires room { length self.old < MOST_VOLUMES }
        ensures { OnOk result (self.new ≡ self.old ++ volume ∷ []) }
    {
        self.volumes.push(volume)?;
        Ok(())
    }

    /// Takes the last volume off, where there is one. It takes no memory.
    pub fn pop(&mut self) -> Option<VolumeEntry>
        ensures volumes { self.old ≡ self.new ++ option_to_list result }
        ensures some { IsSome result ↔ (0 < length self.old) }
    {
        self.volumes.pop()
    }

    /// Puts a plex of a volume into a state, and says whether the next attach has to copy all of its regions. Nothing changes where there
    /// is no such plex. It takes no memory.
    pub fn set_state(&mut self, volume: usize, plex: usize, state: PlexState, whole: bool)
        ensures { self.new ≡ changed_at (with_plex plex state whole) volume self.old }
    {
        if volume < self.volumes.len() {
            self.volumes[volume].plexes.set_state(plex, state, whole);
        }
    }

    /// Says of a log of a volume whether it is lost. Nothing changes where there is no such log. It takes no memory.
    pub fn set_lost(&mut self, volume: usize, log: VolumeLog, lost: bool)
        ensures { self.new ≡ changed_at (with_lost log lost) volume self.old }
    {
        if volume < self.volumes.len() {
            let entry = &mut self.volumes[volume];
            match log {
                VolumeLog::Drl => entry.drl = lost_as(entry.drl, lost),
                VolumeLog::Fmr => entry.fmr = lost_as(entry.fmr, lost),
            }
        }
    }

    /// The volumes, in order.
    pub fn as_slice(&self) -> &[VolumeEntry]
        ensures volumes { result.now ≡ self.now }
        ensures few { length self.now ≤ MOST_VOLUMES }
    {
        &self.volumes
    }
}
