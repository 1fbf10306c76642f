// What no clause says: in which bit of which block a region is, that marks succeed on a shelf in memory and are there behind a crash, and
// which disk a refusal names.
ghost use Rattle.std.specs.Prelude.{IfOk};
ghost use Rattle.vx_bitmap.specs.Maps.{Lies};

use std::alloc::Global;
use std::test::*;
use vx_dcm::{Dcm, maps_fit};
use vx_disk::{MemShelf, Rack, Shelf};
use vx_model::limits::LINK_PLACES;
use vx_model::{No, OutOfMemory, Stop, Units, VolumeUnits};

// A log on disk 0, two volumes on disks 1 and 2, and the maps on disk 3.
fn units() -> Units {
    let mut vols = VolumeUnits::new();
    vols.push(1);
    vols.push(2);
    Units {
        srl: 0,
        maps: 3,
        vols,
    }
}

// A shelf in memory of four disks of 200 blocks, of which the calls with these numbers fail. A volume has four regions, and the last
// of them has eight blocks.
fn fitted(alloc: Global, fails: &[u64]) -> Result<MemShelf, OutOfMemory> {
    let mut shelf = MemShelf::new(alloc, fails)?;
    if shelf.fit(alloc, None, 0, 4, 200).is_err() {
        return Err(OutOfMemory);
    }
    Ok(shelf)
}

fn loaded<S: Shelf>(alloc: Global, shelf: &mut S, units: &Units) -> Result<Dcm, Stop>
    ensures { IfOk result (λ dcm. Lies dcm.map (S.meaning shelf.new)) }
{
    if !maps_fit(units, shelf) || shelf.is_down() {
        return Err(Stop::No(No::Role));
    }
    Dcm::load(alloc, shelf, units)
}

#[derive(Clone, Copy, PartialEq, Eq)]
enum Told {
    Done,
    Device(u32),
    Other,
}

fn said(res: Result<(), No>) -> Told {
    match res {
        Ok(()) => Told::Done,
        Err(No::Device { disk }) => Told::Device(disk),
        Err(_) => Told::Other,
    }
}

// Reads the maps, and changes the mark of a region.
fn marked<S: Shelf>(
    alloc: Global,
    shelf: &mut S,
    slot: u32,
    vol: u32,
    region: u64,
    on: bool,
) -> Told {
    match loaded(alloc, shelf, &units()) {
        Ok(mut dcm) => {
            if !dcm.has_region(slot, vol, region) {
                return Told::Other;
            }
            said(dcm.mark(shelf, slot, vol, region, on))
        }
        Err(_) => Told::Other,
    }
}

// Whether a region is marked, where the maps can be read and there is such a region.
fn is_marked<S: Shelf>(
    alloc: Global,
    shelf: &mut S,
    slot: u32,
    vol: u32,
    region: u64,
) -> Option<bool> {
    match loaded(alloc, shelf, &units()) {
        Ok(dcm) => {
            if dcm.has_region(slot, vol, region) {
                Some(dcm.marked(slot, vol, region))
            } else {
                None
            }
        }
        Err(_) => None,
    }
}

// How many regions are marked for a place of a link.
fn left<S: Shelf>(alloc: Global, shelf: &mut S, slot: u32) -> Option<u32> {
    match loaded(alloc, shelf, &units()) {
        Ok(dcm) => {
            if (slot as usize) < LINK_PLACES {
                Some(dcm.left(slot))
            } else {
                None
            }
        }
        Err(_) => None,
    }
}

// A byte of a block of the map unit.
fn byte_of<S: Shelf>(shelf: &mut S, block: u64, place: usize) -> u8 {
    let mut bytes = [0; 512];
    if shelf.units() != 4 || shelf.size(3) != 200 || block >= 200 || place >= 512 {
        return 255;
    }
    match shelf.read(3, block, &mut bytes) {
        Ok(()) => bytes[place],
        Err(_) => 255,
    }
}

// Each map of these volumes is one block: that of the second volume for the last place of a link is block 15. Marks are there behind a
// crash.
#[test]
fn a_region_is_its_bit(rt: HostRuntime) -> Result<(), Fail> {
    let alloc = rt.alloc();
    let mut shelf = fitted(alloc, &[])?;
    for (slot, vol, region) in [(0, 0, 3), (0, 1, 1), (1, 0, 0), (7, 1, 2)] {
        assert!(rt; marked(alloc, &mut shelf, slot, vol, region, true) == Told::Done);
    }
    shelf.crash(0);
    if shelf.is_down() {
        shelf.revive();
    }
    for (block, wanted) in [(0, 0x08), (1, 0x02), (2, 0x01), (3, 0), (14, 0), (15, 0x04)] {
        assert!(rt; byte_of(&mut shelf, block, 0) == wanted);
    }
    for (slot, vol, region, wanted) in [
        (0, 0, 3, Some(true)),
        (0, 0, 2, Some(false)),
        (0, 1, 1, Some(true)),
        (1, 0, 0, Some(true)),
        (1, 1, 0, Some(false)),
        (7, 1, 2, Some(true)),
        (0, 0, 4, None),
        (0, 2, 0, None),
        (8, 0, 0, None),
    ] {
        assert!(rt; is_marked(alloc, &mut shelf, slot, vol, region) == wanted);
    }
    assert!(rt; marked(alloc, &mut shelf, 0, 1, 1, false) == Told::Done);
    assert!(rt; byte_of(&mut shelf, 1, 0) == 0);
    assert!(rt; byte_of(&mut shelf, 0, 0) == 0x08);
    Ok(())
}

// Regions are counted for one place of a link over all volumes, and none past the end of a volume.
#[test]
fn marks_are_counted(rt: HostRuntime) -> Result<(), Fail> {
    let alloc = rt.alloc();
    let mut shelf = fitted(alloc, &[])?;
    if shelf.units() == 4 && shelf.size(3) == 200 {
        assert!(rt; shelf.write(3, 2, &[0xff; 512]) == Ok(()));
    }
    for (slot, vol, region) in [(0, 0, 3), (0, 0, 3), (0, 1, 0), (0, 1, 3), (1, 1, 2)] {
        assert!(rt; marked(alloc, &mut shelf, slot, vol, region, true) == Told::Done);
    }
    for (slot, wanted) in [(0, Some(3)), (1, Some(5)), (2, Some(0)), (8, None)] {
        assert!(rt; left(alloc, &mut shelf, slot) == wanted);
    }
    Ok(())
}

// Changes the mark of a region twice.
fn marked_twice<S: Shelf>(alloc: Global, shelf: &mut S, first: bool, second: bool) -> Told {
    match loaded(alloc, shelf, &units()) {
        Ok(mut dcm) => {
            if !dcm.has_region(3, 0, 1) {
                return Told::Other;
            }
            let once = said(dcm.mark(shelf, 3, 0, 1, first));
            if once != Told::Done || !dcm.has_region(3, 0, 1) {
                return once;
            }
            said(dcm.mark(shelf, 3, 0, 1, second))
        }
        Err(_) => Told::Other,
    }
}

// The first three calls read the maps, write a mark and flush it: refusal 7 names the disk of the maps. So does a load. A mark that stands makes no
// call: each behind those would fail.
#[test]
fn a_failing_disk_is_named(rt: HostRuntime) -> Result<(), Fail> {
    let alloc = rt.alloc();
    for (call, wanted) in [
        (1, Told::Other),
        (2, Told::Device(3)),
        (3, Told::Device(3)),
        (4, Told::Done),
    ] {
        let mut shelf = fitted(alloc, &[call])?;
        assert!(rt;
            marked(alloc, &mut shelf, 2, 1, 0, true) == wanted,
            "{call}"
        );
    }
    let mut shelf = fitted(alloc, &[1])?;
    assert!(rt;
        loaded(alloc, &mut shelf, &units()).err() == Some(Stop::No(No::Device { disk: 3 }))
    );
    for (fails, first, second, wanted) in [
        ([4, 5, 6, 7], true, true, Told::Done),
        ([4, 5, 6, 7], true, false, Told::Device(3)),
        ([2, 3, 0, 0], false, false, Told::Done),
    ] {
        let mut shelf = fitted(alloc, &fails)?;
        let told = marked_twice(alloc, &mut shelf, first, second);
        assert!(rt; told == wanted, "{first}, {second}");
    }
    Ok(())
}

// A map unit with room for 200 blocks has maps of 25 volumes of one map block each, and not of 26; a unit that is not there does not fit. A
// group without volumes has no maps, which fit.
#[test]
fn what_fits(rt: HostRuntime) -> Result<(), Fail> {
    let alloc = rt.alloc();
    let shelf = fitted(alloc, &[])?;
    for (count, last, maps, wanted) in [
        (24, 1, 3, true),
        (25, 1, 3, false),
        (1, 3, 3, true),
        (1, 4, 3, false),
        (1, 1, 4, false),
    ] {
        let mut vols = VolumeUnits::new();
        for _unit in 0..count {
            if vols.as_slice().len() < 29 {
                vols.push(1);
            }
        }
        if vols.as_slice().len() < 30 {
            vols.push(last);
        }
        let units = Units { srl: 0, maps, vols };
        assert!(rt; maps_fit(&units, &shelf) == wanted);
    }
    let none = Units {
        srl: 0,
        maps: 3,
        vols: VolumeUnits::new(),
    };
    assert!(rt; maps_fit(&none, &shelf));
    Ok(())
}

// Reads the maps, and joins the regions that a byte has to one of them.
fn joined<S: Shelf>(alloc: Global, shelf: &mut S, slot: u32, vol: u32, bytes: &[u8]) -> Told {
    match loaded(alloc, shelf, &units()) {
        Ok(mut dcm) => {
            if !dcm.takes(slot, vol, bytes.len()) {
                return Told::Other;
            }
            said(dcm.join(shelf, slot, vol, bytes))
        }
        Err(_) => Told::Other,
    }
}

// A byte has all regions of a volume, and its further bits count for nothing. Marks that were there stay.
#[test]
fn regions_of_bytes_are_joined(rt: HostRuntime) -> Result<(), Fail> {
    let alloc = rt.alloc();
    let mut shelf = fitted(alloc, &[])?;
    assert!(rt; marked(alloc, &mut shelf, 2, 1, 1, true) == Told::Done);
    assert!(rt; joined(alloc, &mut shelf, 2, 1, &[0xd9]) == Told::Done);
    assert!(rt; byte_of(&mut shelf, 5, 0) == 0x0b);
    assert!(rt; joined(alloc, &mut shelf, 2, 1, &[0x01, 0x00]) == Told::Other);
    assert!(rt; joined(alloc, &mut shelf, 8, 1, &[0x01]) == Told::Other);
    assert!(rt; joined(alloc, &mut shelf, 2, 2, &[0x01]) == Told::Other);
    assert!(rt; left(alloc, &mut shelf, 2) == Some(3));
    Ok(())
}
