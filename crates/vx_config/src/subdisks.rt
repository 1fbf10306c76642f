// The subdisks of a plex.
ghost use Rattle.std.specs.Prelude.{◌≡◌, ◌<◌, ◌≤◌, [], ◌∷◌, ◌++◌, length, OnOk};

use crate::Subdisk;
use std::alloc::Global;
use std::marker::Model;
use vx_model::OutOfMemory;

/// Up to 255 subdisks, in order. Contracts see their list.
#[derive(Drop)]
pub struct Subdisks {
    subdisks: Vec<Subdisk>,
}

impl Model for Subdisks {
    ghost use Rattle.std.specs.Prelude.{List, ◌≤◌, length};
    ghost use Rattle.vx_config.specs.declared.entry.Subdisk.{Subdisk};

    ghost Value = { List Subdisk };

    ghost view = { λ l. l.subdisks.items };

    ghost invariant = { λ l. length l.subdisks.items ≤ 255 };
}

impl Subdisks {
    /// No subdisks.
    pub fn new(alloc: Global) -> Subdisks
        ensures { result ≡ [] }
    {
        Subdisks {
            subdisks: Vec::new(alloc),
        }
    }

    /// Adds a subdisk after the others.
    pub fn push(&mut self, subdisk: Subdisk) -> Result<(), OutOfMemory>
        requires room { length self.old < 255 }
        ensures { OnOk result (self.new ≡ self.old ++ subdisk ∷ []) }
    {
        self.subdisks.push(subdisk)?;
        Ok(())
    }

    /// The subdisks, in order.
    pub fn as_slice(&self) -> &[Subdisk]
        ensures subdisks { result.now ≡ self.now }
        ensures few { length self.now ≤ 255 }
    {
        &self.subdisks
    }
}
