// The plexes of a volume.
ghost use Rattle.std.specs.Prelude.{◌≡◌, ◌<◌, ◌≤◌, [], ◌∷◌, ◌++◌, length, OnOk};
ghost use Rattle.vx_config.specs.Changes.{changed_at, with_state};

use crate::PlexEntry;
use std::alloc::Global;
use std::marker::Model;
use vx_model::{OutOfMemory, PlexState};

/// Up to 255 plexes, in order. Contracts see their list.
#[derive(Drop)]
pub struct Plexes {
    plexes: Vec<PlexEntry>,
}

impl Model for Plexes {
    ghost use Rattle.std.specs.Prelude.{List, ◌≤◌, length};
    ghost use Rattle.vx_config.specs.declared.entry.PlexEntry.{PlexEntry};

    ghost Value = { List PlexEntry };

    ghost view = { λ l. l.plexes.items };

    ghost invariant = { λ l. length l.plexes.items ≤ 255 };
}

impl Plexes {
    /// No plexes.
    pub fn new(alloc: Global) -> Plexes
        ensures { result ≡ [] }
    {
        Plexes {
            plexes: Vec::new(alloc),
        }
    }

    /// Adds a plex after the others.
    pub fn push(&mut self, plex: PlexEntry) -> Result<(), OutOfMemory>
        requires room { length self.old < 255 }
        ensures { OnOk result (self.new ≡ self.old ++ plex ∷ []) }
    {
        self.plexes.push(plex)?;
        Ok(())
    }

    /// Puts a plex into a state, and says whether the next attach has to copy all of its regions. Nothing changes where there is no such
    /// plex. It takes no memory.
    pub fn set_state(&mut self, plex: usize, state: PlexState, whole: bool)
        ensures { self.new ≡ changed_at (with_state state whole) plex self.old }
    {
        if plex < self.plexes.len() {
            let entry = &mut self.plexes[plex];
            entry.state = state;
            entry.whole = whole;
        }
    }

    /// The plexes, in order.
    pub fn as_slice(&self) -> &[PlexEntry]
        ensures plexes { result.now ≡ self.now }
        ensures few { length self.now ≤ 255 }
    {
        &self.plexes
    }
}
