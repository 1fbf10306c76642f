// What no clause says: which bit of which block a region is, and that changes succeed on a shelf in memory.
ghost use Rattle.std.specs.Prelude.{◌<◌, IfOk};
ghost use Rattle.vx_bitmap.specs.Maps.{Loaded, regions_mapped};

use std::alloc::Global;
use std::test::*;
use vx_bitmap::Bitmap;
use vx_disk::{MemShelf, Rack, Shelf};
use vx_model::{No, OutOfMemory, Stop};

// A shelf in memory of two disks of 16 blocks.
fn fitted(alloc: Global) -> Result<MemShelf, OutOfMemory> {
    let mut shelf = MemShelf::new(alloc, &[])?;
    if shelf.fit(alloc, None, 0, 2, 16).is_err() {
        return Err(OutOfMemory);
    }
    Ok(shelf)
}

// A map of 8,192 regions in blocks 3 and 4 of disk 1.
fn loaded(alloc: Global, shelf: &mut MemShelf) -> Result<Bitmap, Stop>
    ensures { IfOk result (λ map. Loaded 1 3 8192 map) }
{
    if shelf.units() != 2 || shelf.size(1) != 16 || shelf.is_down() {
        return Err(Stop::No(No::Role));
    }
    Bitmap::load(alloc, shelf, 1, 3, 8192)
}

// Marks a run of regions, or takes the marks off.
fn mark(map: &mut Bitmap, shelf: &mut MemShelf, start: u64, end: u64, value: bool) -> Result<(), No>
    requires there { Loaded 1 3 8192 map.old }
    ensures there { Loaded 1 3 8192 map.new }
{
    if start > end || end >= 8192 || shelf.units() != 2 || shelf.size(1) != 16 {
        return Err(No::Range);
    }
    if value {
        map.set_run(shelf, start, end)
    } else {
        map.clear_run(shelf, start, end)
    }
}

// A byte of a block of disk 1.
fn byte_of(shelf: &mut MemShelf, block: u64, place: usize) -> u8 {
    let mut bytes = [0; 512];
    if shelf.units() != 2 || shelf.size(1) != 16 || block >= 16 || place >= 512 {
        return 255;
    }
    match shelf.read(1, block, &mut bytes) {
        Ok(()) => bytes[place],
        Err(_) => 255,
    }
}

// Bytes 511 of block 3, and 0 and 1 of block 4.
fn bytes_of(shelf: &mut MemShelf) -> [u8; 3] {
    [
        byte_of(shelf, 3, 511),
        byte_of(shelf, 4, 0),
        byte_of(shelf, 4, 1),
    ]
}

// Region r is bit r mod 8, from the lowest, of byte (r / 8) mod 512 of block r / 4096. What was marked is marked behind a crash, and what was taken
// off is off.
#[test]
fn a_region_is_its_bit(rt: HostRuntime) -> Result<(), Fail> {
    let alloc = rt.alloc();
    let mut shelf = fitted(alloc)?;
    match loaded(alloc, &mut shelf) {
        Ok(mut map) => {
            assert!(rt; mark(&mut map, &mut shelf, 70, 70, true) == Ok(()));
            assert!(rt; map.test(70) && !map.test(69) && !map.test(71));
            assert!(rt; byte_of(&mut shelf, 3, 8) == 0x40);
            assert!(rt; mark(&mut map, &mut shelf, 4090, 4105, true) == Ok(()));
            assert!(rt; bytes_of(&mut shelf) == [0xfc, 0xff, 0x03]);
            assert!(rt; mark(&mut map, &mut shelf, 4095, 4103, false) == Ok(()));
            assert!(rt; bytes_of(&mut shelf) == [0x7c, 0x00, 0x03]);
        }
        Err(_) => assert!(rt; false),
    }
    shelf.crash(0);
    if shelf.is_down() {
        shelf.revive();
    }
    match loaded(alloc, &mut shelf) {
        Ok(map) => {
            assert!(rt; map.test(4094) && !map.test(4095) && map.test(4104));
        }
        Err(_) => assert!(rt; false),
    }
    Ok(())
}

// A disk that fails is named by 7, by a load and by a change.
#[test]
fn a_failing_disk_is_named(rt: HostRuntime) -> Result<(), Fail> {
    let alloc = rt.alloc();
    let mut shelf = fitted(alloc)?;
    match loaded(alloc, &mut shelf) {
        Ok(mut map) => {
            if shelf.units() == 2 {
                shelf.fail(1, true);
            }
            assert!(rt; mark(&mut map, &mut shelf, 5, 5, true) == Err(No::Device { disk: 1 }));
            assert!(rt; !map.test(5));
        }
        Err(_) => {
            assert!(rt; false);
        }
    }
    assert!(rt; loaded(alloc, &mut shelf).err() == Some(Stop::No(No::Device { disk: 1 })));
    Ok(())
}
