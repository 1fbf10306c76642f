// Groups over a shelf in memory, and the calls of a write.
ghost use Rattle.std.specs.Prelude.{◌≡◌, ◌≤◌, [], ◌∷◌};
ghost use Rattle.vx_ringio.specs.Bodies.{IsBlocks};

use std::alloc::Global;
use vx_disk::{MemShelf, Rack, Shelf};
use vx_model::limits::{BLOCK, LEAST_BLOCKS, MOST_MEMORY_BLOCKS};
use vx_model::{State, Units, VolumeUnits};
use vx_rvg::Rvg;

// The log on disk 0, one volume on disk 1, and the maps on disk 2.
fn three_units() -> Units
    ensures { result ≡ record { srl = 0; maps = 2; vols = 1 ∷ [] } }
{
    let mut vols = VolumeUnits::new();
    vols.push(1);
    Units {
        srl: 0,
        maps: 2,
        vols,
    }
}

/// A new group over three disks of so many blocks, with a fuse of so many writes and flushes.
pub fn group(alloc: Global, disk: u64, fuse: u64) -> Option<Rvg<MemShelf>>
    requires some { LEAST_BLOCKS ≤ disk }
    requires few { disk ≤ MOST_MEMORY_BLOCKS }
{
    let Ok(mut shelf) = MemShelf::new(alloc, &[]) else {
        return None;
    };
    if shelf.fit(alloc, None, 0, 3, disk).is_err() {
        return None;
    }
    shelf.fuse(fuse, 0);
    if shelf.units() != 3 {
        return None;
    }
    match Rvg::create(alloc, shelf, &three_units(), &State::first(0)) {
        Ok(rvg) => Some(rvg),
        Err(_) => None,
    }
}

/// Logs a write. False where it is refused.
pub fn write(rvg: &mut Rvg<MemShelf>, start: u64, bytes: &[u8]) -> bool
    requires blocks { IsBlocks bytes.now }
{
    if rvg.volumes() == 0 || rvg.free() < (bytes.len() / BLOCK) as u64 + 1 {
        return false;
    }
    rvg.write(0, start, bytes, 0).is_ok()
}

/// Brings all writes into the volume, and gives their records up. False where it is refused.
pub fn make_room(rvg: &mut Rvg<MemShelf>) -> bool {
    let head = rvg.head();
    if rvg.apply(head).is_err() {
        return false;
    }
    let applied = rvg.applied();
    rvg.reclaim(applied).is_ok()
}

/// How many writes and flushes the first write of a group over disks of 64 blocks makes: for so many lengths of a fuse the group is
/// made, and the write is not.
pub fn calls_of(alloc: Global, bytes: &[u8]) -> u64
    requires blocks { IsBlocks bytes.now }
{
    let mut calls: u64 = 0;
    for fuse in 0..100 {
        if let Some(mut rvg) = group(alloc, 64, fuse) {
            if write(&mut rvg, 0, bytes) {
                return calls;
            }
            calls = calls.saturating_add(1);
        }
    }
    calls
}
