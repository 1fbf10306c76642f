// The search over all disks.
ghost use Rattle.std.specs.Prelude.{◌≡◌, ◌<◌, ℕ, ◌==◌, if◌then◌else◌, length, Some, IfOk, IsTrue};
ghost use Rattle.vx_copyfmt.specs.Imports.{first_of, later, on_disk};
ghost use Rattle.vx_copyio.specs.Labelling.{AreLarge};
ghost use Rattle.vx_copies.specs.Answers.{flag_at};
ghost use Rattle.vx_copies.specs.Looking.{CopyFits, FitsDisk, copy_view};
ghost use Rattle.vx_copies.specs.Searching.{FitsBest, Searched, best_view, seen_format, seen_readable, seen_view};
ghost use Rattle.vx_disk.specs.Causes.{OnDisks};
ghost use Rattle.vx_disk.specs.Disks.{Untouched};
ghost use Rattle.vx_disk.specs.Shelf.{Goes, Nothing};

use crate::look::look;
use crate::{CopySeen, DiskSeen};
use std::alloc::Global;
use vx_disk::Shelf;
use vx_model::OutOfMemory;
use vx_model::limits::{DISK_PLACES, MOST_CONFIG_BYTES, MOST_DISKS};

/// The greatest copy so far, with its disk.
#[derive(Drop)]
pub struct Best {
    pub disk: u32,
    pub copy: CopySeen,
}

/// What was found on the disks so far: which of the first 8 could be read, the first version of a label that is not known,
/// and the greatest copy.
#[derive(Drop)]
pub struct Search {
    pub readable: [bool; DISK_PLACES],
    pub format: Option<u32>,
    pub best: Option<Best>,
}

// The flags with that of a disk set.
fn flagged(flags: [bool; DISK_PLACES], disk: u32, on: bool) -> [bool; DISK_PLACES]
    ensures { (u : ℕ) → u < MOST_DISKS → flag_at result u ≡ (if u == disk then on else flag_at flags u) }
{
    let mut flags = flags;
    if disk < MOST_DISKS {
        flags[disk as usize] = on;
    }
    flags
}

// The first of the versions.
fn first(format: Option<u32>, version: u32) -> Option<u32>
    ensures { result ≡ first_of format (Some version) }
{
    match format {
        Some(format) => Some(format),
        None => Some(version),
    }
}

// The greater of the best copy and one of this disk: the best one where both have one serial.
fn later(best: Option<Best>, disk: u32, copy: Option<CopySeen>) -> Option<Best>
    ensures best { best_view result ≡ later (best_view best) (on_disk disk (copy_view copy)) }
    ensures fits { (units : ℕ) → FitsBest units best → CopyFits units copy → FitsBest units result }
{
    match (best, copy) {
        (best, None) => best,
        (None, Some(copy)) => Some(Best { disk, copy }),
        (Some(best), Some(copy)) => {
            if best.copy.serial < copy.serial {
                Some(Best { disk, copy })
            } else {
                Some(best)
            }
        }
    }
}

impl Search {
    // What was found with one disk more.
    fn with(self, disk: u32, seen: DiskSeen) -> Search
        ensures format { result.format ≡ first_of self.format (seen_format seen) }
        ensures best { best_view result.best ≡ later (best_view self.best) (seen_view disk seen) }
        ensures flags { (u : ℕ) → u < MOST_DISKS → flag_at result.readable u ≡ (if u == disk then seen_readable seen else flag_at self.readable u) }
        ensures fits { (units : ℕ) → FitsBest units self.best → FitsDisk units seen → FitsBest units result.best }
    {
        match seen {
            DiskSeen::Unreadable => Search {
                readable: flagged(self.readable, disk, false),
                format: self.format,
                best: self.best,
            },
            DiskSeen::Format { version } => Search {
                readable: flagged(self.readable, disk, true),
                format: first(self.format, version),
                best: self.best,
            },
            DiskSeen::Seen(copy) => Search {
                readable: flagged(self.readable, disk, true),
                format: self.format,
                best: later(self.best, disk, copy),
            },
        }
    }
}

/// Reads all disks.
pub fn search_all<S: Shelf>(
    alloc: Global,
    shelf: &mut S,
    room: &mut [u8],
) -> Result<Search, OutOfMemory>
    requires up { IsTrue (S.meaning shelf.old).down → ⊥ }
    requires large { AreLarge (S.meaning shelf.old) }
    requires room { length room.old ≡ MOST_CONFIG_BYTES }
    ensures searched { IfOk result (Searched (S.meaning shelf.old).units (S.meaning shelf.old) (S.meaning shelf.new)) }
    ensures goes { Goes Nothing (S.meaning shelf.old) (S.meaning shelf.new) }
    ensures down { (S.meaning shelf.new).down ≡ (S.meaning shelf.old).down }
    ensures disks { OnDisks (S.meaning shelf.old).disks (S.meaning shelf.new).disks Untouched }
{
    let mut found = Search {
        readable: [false; DISK_PLACES],
        format: None,
        best: None,
    };
    for disk in 0..shelf.units() {
        match look(alloc, shelf, disk, room) {
            Ok(seen) => found = found.with(disk, seen),
            Err(error) => return Err(error),
        }
    }
    Ok(found)
}
