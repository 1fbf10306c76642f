// The disks of a group.
ghost use Rattle.std.specs.Prelude.{◌≡◌, ◌<◌, ◌≤◌, [], ◌∷◌, ◌++◌, length, slice_set};
ghost use Rattle.vx_model.specs.declared.limits.TheConstants.{MOST_DISKS};

use crate::DiskEntry;
use arrayvec::ArrayVec;
use std::marker::Model;
use vx_model::limits::DISK_PLACES;

/// Up to 8 disks, in order. Contracts see their list.
#[derive(Drop)]
pub struct Disks {
    disks: ArrayVec<DiskEntry, DISK_PLACES>,
}

impl Model for Disks {
    ghost use Rattle.std.specs.Prelude.{List, ◌≤◌, length};
    ghost use Rattle.vx_config.specs.declared.entry.DiskEntry.{DiskEntry};
    ghost use Rattle.vx_model.specs.declared.limits.TheConstants.{MOST_DISKS};

    ghost Value = { List DiskEntry };

    ghost view = { λ d. d.disks.items };

    ghost invariant = { λ d. length d.disks.items ≤ MOST_DISKS };
}

impl Disks {
    /// No disks.
    pub fn new() -> Disks
        ensures { result ≡ [] }
    {
        Disks {
            disks: ArrayVec::new(),
        }
    }

    /// Adds a disk after the others.
    pub fn push(&mut self, disk: DiskEntry)
        requires room { length self.old < MOST_DISKS }
        ensures { self.new ≡ self.old ++ disk ∷ [] }
    {
        self.disks.push(disk);
    }

    /// Puts a disk in the place of another.
    pub fn set(&mut self, place: usize, disk: DiskEntry)
        requires inside { place < length self.old }
        ensures { self.new ≡ slice_set self.old place disk }
    {
        self.disks[place] = disk;
    }

    /// The disks, in order.
    pub fn as_slice(&self) -> &[DiskEntry]
        ensures disks { result.now ≡ self.now }
        ensures few { length self.now ≤ MOST_DISKS }
    {
        &self.disks
    }

    /// The same disks once more.
    pub fn copy(&self) -> Disks
        ensures { result ≡ self.now }
    {
        let mut disks = Disks::new();
        for disk in self.as_slice() {
            disks.push(*disk);
        }
        disks
    }
}
