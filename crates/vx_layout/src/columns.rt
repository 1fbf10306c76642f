// Where one plex finds space.
ghost use Rattle.std.specs.Prelude.{◌≡◌, ◌<◌, ◌≤◌, OnOk, slice_index};
ghost use Rattle.vx_layout.specs.Space.{HasNone, IsShape, NoPlex, column_of, disk_room, room_sum};
ghost use Rattle.vx_layout.specs.Steps.{AddsColumn, AddsColumns, AddsPlex, AddsSpread, AddsWhole, AreRooms, ColumnShort, ColumnsShort, StepEnds, WholeShort};

use crate::rooms::{DISKS, end_of, greatest, lowest_with, rooms_of, total};
use crate::shape::Shape;
use crate::short::Short;
use crate::take::take_lowest;
use vx_config::{DiskEntry, Subdisk};
use vx_model::OutOfMemory;
use vx_model::limits::DISK_PLACES;

// Fills the disks with so many blocks, one disk after the other.
fn spread(
    used: &[Subdisk],
    disks: &[DiskEntry],
    rooms: &[u64; DISK_PLACES],
    wanted: u64,
    found: &mut Vec<Subdisk>,
) -> Result<(), OutOfMemory>
    requires rooms { AreRooms (disk_room used.now disks.now found.old.items) DISK_PLACES rooms.now }
    requires enough { wanted ≤ room_sum (disk_room used.now disks.now found.old.items) 0 DISK_PLACES }
    ensures { OnOk result (AddsSpread used.now disks.now (disk_room used.now disks.now found.old.items) wanted found.old.items found.new.items) }
{
    let mut left = wanted;
    for disk in 0..DISKS {
        let blocks = left.min(rooms[disk as usize]);
        take_lowest(used, disk, end_of(disks, disk), blocks, found)?;
        left -= blocks;
    }
    Ok(())
}

// A concatenated plex where no disk suffices: on several, as far as they have room together.
fn place_several(
    used: &[Subdisk],
    disks: &[DiskEntry],
    rooms: &[u64; DISK_PLACES],
    wanted: u64,
    found: &mut Vec<Subdisk>,
) -> Result<(), Short>
    requires rooms { AreRooms (disk_room used.now disks.now found.old.items) DISK_PLACES rooms.now }
    requires none { HasNone (disk_room used.now disks.now found.old.items) wanted }
    ensures { StepEnds (λ _. AddsWhole used.now disks.now wanted found.old.items found.new.items) (WholeShort used.now disks.now wanted found.old.items) result }
{
    let have = total(rooms);
    if have < u128::from(wanted) {
        return Err(Short::Space {
            need: wanted,
            have: have as u64,
        });
    }
    spread(used, disks, rooms, wanted, found)?;
    Ok(())
}

// A concatenated plex: on the lowest disk that suffices, or where there is none on several.
fn place_whole(
    used: &[Subdisk],
    disks: &[DiskEntry],
    wanted: u64,
    found: &mut Vec<Subdisk>,
) -> Result<(), Short>
    ensures { StepEnds (λ _. AddsWhole used.now disks.now wanted found.old.items found.new.items) (WholeShort used.now disks.now wanted found.old.items) result }
{
    let rooms = rooms_of(used, disks, found.as_slice());
    match lowest_with(&rooms, wanted) {
        Some(disk) => {
            take_lowest(used, disk, end_of(disks, disk), wanted, found)?;
            Ok(())
        }
        None => place_several(used, disks, &rooms, wanted, found),
    }
}

// A column of a striped plex: on the lowest disk that suffices.
fn place_column(
    used: &[Subdisk],
    disks: &[DiskEntry],
    wanted: u64,
    found: &mut Vec<Subdisk>,
) -> Result<(), Short>
    ensures { StepEnds (λ _. AddsColumn used.now disks.now wanted found.old.items found.new.items) (ColumnShort used.now disks.now wanted found.old.items) result }
{
    let rooms = rooms_of(used, disks, found.as_slice());
    match lowest_with(&rooms, wanted) {
        Some(disk) => {
            take_lowest(used, disk, end_of(disks, disk), wanted, found)?;
            Ok(())
        }
        None => Err(Short::Space {
            need: wanted,
            have: greatest(&rooms),
        }),
    }
}

fn place_columns(
    used: &[Subdisk],
    disks: &[DiskEntry],
    ncol: u32,
    wanted: u64,
    found: &mut Vec<Subdisk>,
) -> Result<(), Short>
    ensures { StepEnds (λ _. AddsColumns used.now disks.now ncol wanted found.old.items found.new.items) (ColumnsShort used.now disks.now ncol wanted found.old.items) result }
{
    for _column in 0..ncol {
        place_column(used, disks, wanted, found)?;
    }
    Ok(())
}

// The blocks of a column of a striped plex.
fn column_blocks(want: &Shape) -> u64
    requires shape { IsShape want.now }
    requires striped { 0 < want.now.width }
    ensures { result ≡ column_of want.now }
{
    let units = want
        .blocks
        .div_ceil(u64::from(want.ncol) * u64::from(want.width));
    units * u64::from(want.width)
}

/// Where the next plex of a shape lies, behind the runs that were found before.
pub fn place_plex(
    used: &[Subdisk],
    disks: &[DiskEntry],
    want: &Shape,
    found: &mut Vec<Subdisk>,
) -> Result<(), Short>
    requires { IsShape want.now }
    ensures { StepEnds (λ _. AddsPlex want.now used.now disks.now found.old.items found.new.items) (NoPlex want.now used.now disks.now found.old.items) result }
{
    if want.width == 0 {
        place_whole(used, disks, want.blocks, found)
    } else {
        place_columns(used, disks, want.ncol, column_blocks(want), found)
    }
}
