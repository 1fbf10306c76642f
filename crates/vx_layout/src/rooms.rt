// How much room the disks have for a plex or a column.
ghost use Rattle.std.specs.Prelude.{◌≡◌, ◌<◌, ◌≤◌, ℕ, slice_index, MatchOption};
ghost use Rattle.std.specs.List.{list_any};
ghost use Rattle.vx_layout.specs.Places.{disk_blocks, lies_on};
ghost use Rattle.vx_layout.specs.Space.{HasNone, IsFirst, IsGreatest, disk_room, room_sum};
ghost use Rattle.vx_layout.specs.Steps.{AreRooms};

use crate::gap::free_on;
use vx_config::{DiskEntry, Subdisk};
use vx_model::limits::DISK_PLACES;

/// The disks that a group can have.
pub const DISKS: u8 = DISK_PLACES as u8;

/// The blocks of a disk; none where there is no such disk.
pub fn end_of(disks: &[DiskEntry], disk: u8) -> u64
    ensures { result ≡ disk_blocks disks.now disk }
{
    match disks.get(disk as usize) {
        Some(entry) => entry.blocks,
        None => 0,
    }
}

fn is_used(found: &[Subdisk], disk: u8) -> bool
    ensures { result ≡ list_any (lies_on disk) found.now }
{
    found.iter().any(|run| run.disk == disk)
}

// The free blocks of a disk that no run found before lies on.
#[tactic(auto, unfolding(crate::specs::Space::disk_room, crate::specs::Free::free_blocks))]
fn room_of(used: &[Subdisk], disks: &[DiskEntry], found: &[Subdisk], disk: u8) -> u64
    ensures { result ≡ disk_room used.now disks.now found.now disk }
{
    if is_used(found, disk) {
        0
    } else {
        free_on(used, disk, end_of(disks, disk))
    }
}

/// The free blocks of each disk that no run found before lies on.
pub fn rooms_of(used: &[Subdisk], disks: &[DiskEntry], found: &[Subdisk]) -> [u64; DISK_PLACES]
    ensures { AreRooms (disk_room used.now disks.now found.now) DISK_PLACES result }
{
    let mut rooms = [0; DISK_PLACES];
    for disk in 0..DISKS {
        rooms[disk as usize] = room_of(used, disks, found, disk);
    }
    rooms
}

/// The lowest disk that has so much room.
pub fn lowest_with(rooms: &[u64; DISK_PLACES], wanted: u64) -> Option<u8>
    ensures { MatchOption result (HasNone (slice_index rooms.now) wanted) (IsFirst (slice_index rooms.now) wanted) }
{
    for disk in 0..DISKS {
        if wanted <= rooms[disk as usize] {
            return Some(disk);
        }
    }
    None
}

/// The room of all disks together.
pub fn total(rooms: &[u64; DISK_PLACES]) -> u128
    ensures { result ≡ room_sum (slice_index rooms.now) 0 DISK_PLACES }
{
    let mut sum = 0;
    for disk in 0..DISK_PLACES {
        sum += u128::from(rooms[disk]);
    }
    sum
}

/// The greatest room of a disk.
pub fn greatest(rooms: &[u64; DISK_PLACES]) -> u64
    ensures { IsGreatest (slice_index rooms.now) result }
{
    let mut most = rooms[0];
    for disk in 1..DISK_PLACES {
        most = most.max(rooms[disk]);
    }
    most
}
