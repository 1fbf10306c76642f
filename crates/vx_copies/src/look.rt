// What a disk shows.
ghost use Rattle.std.specs.Prelude.{◌≡◌, ◌<◌, ◌≤◌, ℕ, length, IfOk, IsTrue};
ghost use Rattle.vx_copyfmt.specs.Copies.{greater};
ghost use Rattle.vx_copies.specs.Looking.{CountsDisk, CopyFits, FitsDisk, SeesAreas, SeesDisk, copy_view};
ghost use Rattle.vx_disk.specs.Causes.{OnDisks};
ghost use Rattle.vx_disk.specs.Disks.{Untouched};
ghost use Rattle.vx_disk.specs.Shelf.{Goes, Nothing};

use crate::area::read_area;
use crate::{AreaSeen, CopySeen, DiskSeen};
use std::alloc::Global;
use vx_copyfmt::{LabelSeen, get_label};
use vx_copyio::{AREA_A, AREA_B};
use vx_disk::Shelf;
use vx_model::OutOfMemory;
use vx_model::limits::{BLOCK, MOST_CONFIG_BYTES};

// The greater of two copies: the first where both have one serial.
fn greater(first: Option<CopySeen>, second: Option<CopySeen>) -> Option<CopySeen>
    ensures copy { copy_view result ≡ greater (copy_view first) (copy_view second) }
    ensures fits { (units : ℕ) → CopyFits units first → CopyFits units second → CopyFits units result }
{
    match (first, second) {
        (None, second) => second,
        (Some(first), None) => Some(first),
        (Some(first), Some(second)) => {
            if first.serial < second.serial {
                Some(second)
            } else {
                Some(first)
            }
        }
    }
}

// Reads both areas of a disk.
fn look_areas<S: Shelf>(
    alloc: Global,
    shelf: &mut S,
    disk: u32,
    room: &mut [u8],
) -> Result<DiskSeen, OutOfMemory>
    requires there { disk < (S.meaning shelf.old).units }
    requires large { 257 ≤ (S.meaning shelf.old).size disk }
    requires up { IsTrue (S.meaning shelf.old).down → ⊥ }
    requires room { length room.old ≡ MOST_CONFIG_BYTES }
    ensures sees { IfOk result (SeesAreas disk (S.meaning shelf.old) (S.meaning shelf.new)) }
    ensures counts { IfOk result (CountsDisk disk (S.meaning shelf.old).faults (S.meaning shelf.new).faults) }
    ensures fits { IfOk result (FitsDisk (S.meaning shelf.old).units) }
    ensures room { length room.new ≡ MOST_CONFIG_BYTES }
    ensures goes { Goes Nothing (S.meaning shelf.old) (S.meaning shelf.new) }
    ensures down { (S.meaning shelf.new).down ≡ (S.meaning shelf.old).down }
    ensures disks { OnDisks (S.meaning shelf.old).disks (S.meaning shelf.new).disks Untouched }
{
    let first = match read_area(alloc, shelf, disk, AREA_A as u32, room) {
        Ok(AreaSeen::Seen(copy)) => copy,
        Ok(AreaSeen::Unreadable) => return Ok(DiskSeen::Unreadable),
        Err(error) => return Err(error),
    };
    match read_area(alloc, shelf, disk, AREA_B as u32, room) {
        Ok(AreaSeen::Seen(second)) => Ok(DiskSeen::Seen(greater(first, second))),
        Ok(AreaSeen::Unreadable) => Ok(DiskSeen::Unreadable),
        Err(error) => Err(error),
    }
}

// Reads the label of a disk and, where it has one, both areas.
pub fn look<S: Shelf>(
    alloc: Global,
    shelf: &mut S,
    disk: u32,
    room: &mut [u8],
) -> Result<DiskSeen, OutOfMemory>
    requires there { disk < (S.meaning shelf.old).units }
    requires large { 257 ≤ (S.meaning shelf.old).size disk }
    requires up { IsTrue (S.meaning shelf.old).down → ⊥ }
    requires room { length room.old ≡ MOST_CONFIG_BYTES }
    ensures sees { IfOk result (SeesDisk disk (S.meaning shelf.old) (S.meaning shelf.new)) }
    ensures counts { IfOk result (CountsDisk disk (S.meaning shelf.old).faults (S.meaning shelf.new).faults) }
    ensures fits { IfOk result (FitsDisk (S.meaning shelf.old).units) }
    ensures room { length room.new ≡ MOST_CONFIG_BYTES }
    ensures goes { Goes Nothing (S.meaning shelf.old) (S.meaning shelf.new) }
    ensures down { (S.meaning shelf.new).down ≡ (S.meaning shelf.old).down }
    ensures disks { OnDisks (S.meaning shelf.old).disks (S.meaning shelf.new).disks Untouched }
{
    let mut block = [0; BLOCK];
    match shelf.read(disk, 0, &mut block) {
        Ok(()) => match get_label(&block) {
            LabelSeen::Label(_) => look_areas(alloc, shelf, disk, room),
            LabelSeen::Format { version } => Ok(DiskSeen::Format { version }),
            LabelSeen::Other => Ok(DiskSeen::Seen(None)),
        },
        Err(_) => Ok(DiskSeen::Unreadable),
    }
}
