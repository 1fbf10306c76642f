// The updates that a receiver has in memory alone.
ghost use Rattle.std.specs.Prelude.{◌≡◌, ◌++◌, ◌∷◌, [], ◌<◌, ◌≤◌, length, drop, IfOk, slice_get, option_copied};
ghost use Rattle.vx_model.specs.declared.limits.TheConstants.{MOST_WAITING};

use circular_buffer::HeapCircularBuffer;
use std::alloc::Global;
use std::marker::Model;
use vx_model::limits::MOST_WAITING;
use vx_model::{OutOfMemory, Update};

/// Up to 16 updates, oldest first. Contracts see their list.
#[derive(Drop)]
pub struct Waiting {
    updates: HeapCircularBuffer<Update>,
}

impl Model for Waiting {
    ghost use Rattle.std.specs.Prelude.{List, ◌≡◌, ◌≤◌, length};
    ghost use Rattle.vx_model.specs.declared.call.Update.{Update};
    ghost use Rattle.vx_model.specs.declared.limits.TheConstants.{MOST_WAITING};

    ghost Value = { List Update };

    ghost view = { λ w. w.updates.items };

    ghost invariant = { λ w. (w.updates.capacity ≡ MOST_WAITING) × (length w.updates.items ≤ MOST_WAITING) };
}

impl Waiting {
    /// None, and room for 16.
    pub fn new(alloc: Global) -> Result<Waiting, OutOfMemory>
        ensures { IfOk result (λ w. w ≡ []) }
    {
        let updates = HeapCircularBuffer::with_capacity(alloc, MOST_WAITING as usize)?;
        Ok(Waiting { updates })
    }

    /// How many wait.
    pub fn len(&self) -> u32
        ensures is { result ≡ length self.now }
        ensures few { length self.now ≤ MOST_WAITING }
    {
        self.updates.len() as u32
    }

    /// The update behind so many others.
    pub fn get(&self, place: u32) -> Option<&Update>
        ensures { option_copied result ≡ slice_get self.now place }
    {
        self.updates.get(place as usize)
    }

    /// One more waits.
    pub(crate) fn push(&mut self, update: &Update)
        requires room { length self.old < MOST_WAITING }
        ensures { self.new ≡ self.old ++ update.now ∷ [] }
    {
        let _fits = self.updates.try_push_back(*update);
    }

    /// The oldest waits no longer.
    pub fn pop(&mut self)
        ensures { self.new ≡ drop 1 self.old }
    {
        let _oldest = self.updates.pop_front();
    }
    /// None waits any longer.
    pub fn clear(&mut self)
        ensures { self.new ≡ [] }
    {
        self.updates.clear();
    }
}
