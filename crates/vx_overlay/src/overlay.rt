// The blocks that wait, in the order in which they came.
ghost use Rattle.std.specs.Prelude.{◌≡◌, ◌-◌, ◌<◌, ◌≤◌, [], ◌∷◌, ◌++◌, length, take, drop, IfOk, MatchOption, true, false};
ghost use Rattle.vx_overlay.specs.Pending.{entry_of, newest};

use crate::Entry;
use crate::index::{bucket, find};
use std::alloc::Global;
use std::marker::Model;
use vx_model::OutOfMemory;
use vx_model::limits::BLOCK;

// The greatest number of an oldest entry.
const MOST: u64 = 0x4000_0000_0000_0000;

/// Blocks that wait to be written to their volumes, oldest first, and room for a fixed number of them.
///
/// The newest entry of a block is found by its bucket: the entries of one bucket are a chain, from the last one back.
#[derive(Drop)]
pub struct Overlay {
    entries: Vec<Entry>,
    // For each entry a number behind that of the one before it in its chain, and for each bucket one behind that of its last entry.
    earlier: Vec<u64>,
    last: Vec<u64>,
    // The number of the oldest entry. Behind 2^62 numbers the chains are given up, and each entry is looked at.
    base: u64,
    kept: bool,
}

impl Model for Overlay {
    ghost use Rattle.std.specs.Vec.{vec_capacity};
    ghost use Rattle.vx_overlay.specs.Indexes.{IsIndexKept};
    ghost use Rattle.vx_overlay.specs.Pending.{Pending};

    ghost Value = { Pending };

    ghost view = { λ o. record { capacity = vec_capacity o.entries; entries = o.entries.items } };

    ghost invariant = { λ o. IsIndexKept o.entries.items o.earlier.items o.last.items (vec_capacity o.entries) (vec_capacity o.earlier) o.base o.kept };
}

impl Overlay {
    /// No blocks, and room for so many.
    pub fn new(alloc: Global, capacity: u64) -> Result<Overlay, OutOfMemory>
        ensures none { IfOk result (λ o. o.entries ≡ []) }
        ensures room { IfOk result (λ o. o.capacity ≡ capacity) }
    {
        let entries = Vec::with_capacity(alloc, capacity as usize)?;
        let earlier = Vec::with_capacity(alloc, capacity as usize)?;
        let mut last = Vec::new(alloc);
        last.resize((capacity as usize).max(1), 0)?;
        Ok(Overlay {
            entries,
            earlier,
            last,
            base: 0,
            kept: true,
        })
    }

    /// How many blocks wait.
    pub fn len(&self) -> usize
        ensures { result ≡ length self.now.entries }
    {
        self.entries.len()
    }

    /// How many more blocks have room.
    pub fn spare(&self) -> u64
        ensures { result ≡ self.now.capacity - length self.now.entries }
    {
        (self.entries.capacity() - self.entries.len()) as u64
    }

    /// Adds a block, the newest from now on. It takes no memory.
    pub fn insert(&mut self, vol: u32, block: u64, bytes: &[u8; BLOCK])
        requires room { length self.old.entries < self.old.capacity }
        ensures entries { self.new.entries ≡ self.old.entries ++ entry_of vol block bytes.now ∷ [] }
        ensures capacity { self.new.capacity ≡ self.old.capacity }
    {
        let number = self.base + self.entries.len() as u64;
        let own = bucket(self.last.len(), vol, block);
        self.earlier.push_reserved(self.last[own]);
        self.last[own] = number + 1;
        self.entries.push_reserved(Entry {
            volume: vol,
            block,
            bytes: *bytes,
        });
    }

    /// Copies the newest bytes of a block, and answers whether there are any. Where there are none, `into` stays.
    pub fn get(&self, vol: u32, block: u64, into: &mut [u8; BLOCK]) -> bool
        ensures { MatchOption (newest self.now.entries vol block) ((result ≡ false) × (into.new ≡ into.old)) (λ bytes. (result ≡ true) × (into.new ≡ bytes)) }
    {
        match find(
            &self.entries,
            &self.earlier,
            &self.last,
            self.base,
            self.kept,
            vol,
            block,
        ) {
            Some(k) => {
                *into = self.entries[k].bytes;
                true
            }
            None => false,
        }
    }

    /// Gives up the oldest blocks, so many of them, and their room is free again.
    pub fn drop_oldest(&mut self, count: u64)
        requires held { count ≤ length self.old.entries }
        ensures entries { self.new.entries ≡ drop count self.old.entries }
        ensures capacity { self.new.capacity ≡ self.old.capacity }
    {
        drop(self.entries.drain(..count as usize));
        drop(self.earlier.drain(..count as usize));
        if self.base + count <= MOST {
            self.base += count;
        } else {
            self.kept = false;
        }
    }

    /// Gives up all but the oldest blocks, of which so many stay, and their room is free again.
    pub fn keep_oldest(&mut self, count: usize)
        requires held { count ≤ length self.old.entries }
        ensures entries { self.new.entries ≡ take count self.old.entries }
        ensures capacity { self.new.capacity ≡ self.old.capacity }
    {
        self.entries.truncate(count);
        self.earlier.truncate(count);
    }
}
