// A list of names.
ghost use Rattle.std.specs.Prelude.{◌≡◌, ◌++◌, ◌∷◌, [], OnOk};

use std::alloc::Global;
use std::marker::Model;
use vx_model::{Name, OutOfMemory};

/// Names in a row. Contracts see their list.
#[derive(Drop)]
pub struct Names {
    list: Vec<Name>,
}

impl Model for Names {
    ghost use Rattle.std.specs.Prelude.{List, ℕ};

    ghost Value = { List (List ℕ) };

    ghost view = { λ n. n.list.items };
}

impl Names {
    /// No names.
    pub fn new(alloc: Global) -> Names
        ensures { result ≡ [] }
    {
        Names {
            list: Vec::new(alloc),
        }
    }

    /// Adds a name after the others.
    pub fn push(&mut self, name: Name) -> Result<(), OutOfMemory>
        ensures { OnOk result (self.new ≡ self.old ++ name ∷ []) }
    {
        self.list.push(name)?;
        Ok(())
    }

    /// The names, in order.
    pub fn as_slice(&self) -> &[Name]
        ensures { result.now ≡ self.now }
    {
        &self.list
    }
}
