// What no clause says: that changes and stores succeed on a shelf in memory, and what a start finds behind them.
ghost use Rattle.std.specs.Prelude.{◌≡◌, [], ◌∷◌};

use std::alloc::Global;
use std::test::*;
use vx_disk::{MemShelf, Rack, Shelf};
use vx_model::limits::{LEAST_BLOCKS, LINK_PLACES};
use vx_model::{No, OutOfMemory, State, Stop, Units, VolumeUnits};
use vx_rvg::{Rvg, Staging};

// The log on disk 0, one volume on disk 1, and the maps on disk 2.
fn three_units() -> Units
    ensures { result ≡ record { srl = 0; maps = 2; vols = 1 ∷ [] } }
{
    let mut vols = VolumeUnits::new();
    vols.push(1);
    Units {
        srl: 0,
        maps: 2,
        vols,
    }
}

// A shelf in memory of three disks of 16 blocks, with a new group on it. So many writes and flushes pass, and the next is a crash that
// keeps no loose block.
fn made(alloc: Global, calls: u64) -> Result<Rvg<MemShelf>, OutOfMemory> {
    made_with(alloc, calls, 0)
}

// The same with a crash that keeps what a number picks.
fn made_with(alloc: Global, calls: u64, pick: u64) -> Result<Rvg<MemShelf>, OutOfMemory> {
    let mut shelf = MemShelf::new(alloc, &[])?;
    if shelf.fit(alloc, None, 0, 3, 16).is_err() {
        return Err(OutOfMemory);
    }
    shelf.fuse(calls, pick);
    if shelf.units() != 3 {
        return Err(OutOfMemory);
    }
    match Rvg::create(alloc, shelf, &three_units(), &State::first(0)) {
        Ok(rvg) => Ok(rvg),
        Err(_) => Err(OutOfMemory),
    }
}

// The group behind a crash that keeps no loose block, and a start.
fn again(alloc: Global, rvg: Rvg<MemShelf>) -> Result<Rvg<MemShelf>, OutOfMemory> {
    let mut shelf = rvg.into_shelf();
    shelf.crash(0);
    if shelf.is_down() {
        shelf.revive();
    }
    if shelf.units() != 3
        || shelf.size(0) < LEAST_BLOCKS
        || shelf.size(1) != 16
        || shelf.size(2) != 16
    {
        return Err(OutOfMemory);
    }
    match Rvg::start(alloc, shelf, &three_units()) {
        Ok(rvg) => Ok(rvg),
        Err(_) => Err(OutOfMemory),
    }
}

// Logs one block of these bytes.
fn write(rvg: &mut Rvg<MemShelf>, start: u64, value: u8) -> Result<u64, No> {
    if rvg.volumes() == 0 || rvg.free() < 2 {
        return Ok(99);
    }
    rvg.write(0, start, &[value; 512], 0)
}

// Puts two blocks of these bytes.
fn store(rvg: &mut Rvg<MemShelf>, start: u64, value: u8) -> Result<(), No> {
    if rvg.volumes() == 0 || rvg.applied() != rvg.head() {
        return Err(No::Role);
    }
    rvg.store(0, start, &[value; 1024])
}

// The first byte of a block.
fn first_byte(rvg: &mut Rvg<MemShelf>, block: u64) -> Result<u8, No> {
    if rvg.volumes() == 0 {
        return Ok(99);
    }
    let mut bytes = [0; 512];
    match rvg.read(0, block, &mut bytes) {
        Ok(()) => Ok(bytes[0]),
        Err(no) => Err(no),
    }
}

// Changes to the line that another site begins, with a log that is empty behind number 7.
fn change(rvg: &mut Rvg<MemShelf>) -> Result<(), No> {
    rvg.change(&State::first(1), Some(7))
}

// The state of the site that a line begins at, and behind it a log that is empty behind number 7. The content is as it was.
#[test]
fn a_change_of_line_keeps_the_content(rt: HostRuntime) -> Result<(), Fail> {
    let alloc = rt.alloc();
    let mut rvg = made(alloc, 1000)?;
    assert!(rt; write(&mut rvg, 3, 0x11) == Ok(1));
    assert!(rt; write(&mut rvg, 4, 0x22) == Ok(2));
    assert!(rt; change(&mut rvg) == Ok(()));
    assert!(rt; (rvg.low(), rvg.head(), rvg.applied()) == (8, 7, 7));
    assert!(rt; first_byte(&mut rvg, 3) == Ok(0x11));
    let mut rvg = again(alloc, rvg)?;
    assert!(rt; (rvg.low(), rvg.head(), rvg.session()) == (8, 7, 2));
    assert!(rt; rvg.state().line.origin == 1);
    assert!(rt; first_byte(&mut rvg, 3) == Ok(0x11));
    assert!(rt; first_byte(&mut rvg, 4) == Ok(0x22));
    assert!(rt; write(&mut rvg, 5, 0x33) == Ok(8));
    Ok(())
}

// Blocks can be put once the logged writes are applied. They are there behind a crash, also where an applied write had put others, and
// the log goes on from its number.
#[test]
fn what_is_stored_is_durable(rt: HostRuntime) -> Result<(), Fail> {
    let alloc = rt.alloc();
    let mut rvg = made(alloc, 1000)?;
    assert!(rt; write(&mut rvg, 3, 0x11) == Ok(1));
    assert!(rt; store(&mut rvg, 5, 0x44) == Err(No::Role));
    assert!(rt; write(&mut rvg, 2, 0x22) == Ok(2));
    assert!(rt; rvg.apply(2) == Ok(2));
    assert!(rt; (rvg.low(), rvg.head()) == (1, 2));
    assert!(rt; store(&mut rvg, 3, 0x33) == Ok(()));
    assert!(rt; (rvg.low(), rvg.head()) == (3, 2));
    assert!(rt; store(&mut rvg, 5, 0x44) == Ok(()));
    assert!(rt; store(&mut rvg, 15, 0x44) == Err(No::Range));
    let mut rvg = again(alloc, rvg)?;
    assert!(rt; (rvg.low(), rvg.head()) == (3, 2));
    assert!(rt; first_byte(&mut rvg, 2) == Ok(0x22));
    assert!(rt; first_byte(&mut rvg, 3) == Ok(0x33));
    assert!(rt; first_byte(&mut rvg, 4) == Ok(0x33));
    assert!(rt; first_byte(&mut rvg, 5) == Ok(0x44));
    assert!(rt; first_byte(&mut rvg, 6) == Ok(0x44));
    assert!(rt; first_byte(&mut rvg, 7) == Ok(0));
    Ok(())
}

// A new group is 6 calls, a write of one block is 4, its coming into the volume is 2, and the header is 2, of which the last is a crash
// that keeps nothing of it: a start finds the old log, with its write.
#[test]
fn a_change_that_is_cut_off_leaves_the_log(rt: HostRuntime) -> Result<(), Fail> {
    let alloc = rt.alloc();
    let mut rvg = made(alloc, 6 + 4 + 2 + 1)?;
    assert!(rt; write(&mut rvg, 3, 0x11) == Ok(1));
    assert!(rt; change(&mut rvg) == Err(No::Down));
    let mut rvg = again(alloc, rvg)?;
    assert!(rt; (rvg.low(), rvg.head(), rvg.session()) == (1, 1, 2));
    assert!(rt; rvg.state().line.origin == 0);
    assert!(rt; first_byte(&mut rvg, 3) == Ok(0x11));
    Ok(())
}

// With one call more the header is durable.
#[test]
fn a_change_is_one_header(rt: HostRuntime) -> Result<(), Fail> {
    let alloc = rt.alloc();
    let mut rvg = made(alloc, 6 + 4 + 2 + 2)?;
    assert!(rt; write(&mut rvg, 3, 0x11) == Ok(1));
    assert!(rt; change(&mut rvg) == Ok(()));
    assert!(rt; write(&mut rvg, 4, 0x22) == Err(No::Down));
    let mut rvg = again(alloc, rvg)?;
    assert!(rt; (rvg.low(), rvg.head(), rvg.session()) == (8, 7, 2));
    assert!(rt; first_byte(&mut rvg, 3) == Ok(0x11));
    assert!(rt; first_byte(&mut rvg, 4) == Ok(0));
    Ok(())
}

// Begins a group commit on a group that is up.
fn begin(rvg: Rvg<MemShelf>) -> Result<Staging<MemShelf>, OutOfMemory> {
    if rvg.halted().is_some() || rvg.shelf.is_down() {
        return Err(OutOfMemory);
    }
    Ok(rvg.begin())
}

// Stages one block of these bytes.
fn stage(staging: &mut Staging<MemShelf>, start: u64, value: u8) -> Result<u64, No> {
    if staging.core.volumes() == 0 || staging.free() < 2 {
        return Ok(99);
    }
    staging.stage(0, start, &[value; 512], 0)
}

// The first byte of a block, with what is staged.
fn staged_byte(staging: &mut Staging<MemShelf>, block: u64) -> Result<u8, No> {
    if staging.core.volumes() == 0 {
        return Ok(99);
    }
    let mut bytes = [0; 512];
    match staging.read(0, block, &mut bytes) {
        Ok(()) => Ok(bytes[0]),
        Err(no) => Err(no),
    }
}

// Seals what is staged, and ends the group commit: the number, or 0 where the shelf fell.
fn sealed(staging: Staging<MemShelf>) -> Result<(u64, Rvg<MemShelf>), OutOfMemory> {
    let mut staging = staging;
    match staging.seal() {
        Ok(number) => Ok((number, staging.end())),
        Err(_) => {
            if !staging.shelf.is_down() {
                return Err(OutOfMemory);
            }
            Ok((0, staging.end()))
        }
    }
}

// Two writes are staged under numbers 1 and 2, and are read. The head counts them once they are sealed: then a crash that keeps nothing
// more leaves both.
#[test]
fn a_group_commit_is_durable_once_it_is_sealed(rt: HostRuntime) -> Result<(), Fail> {
    let alloc = rt.alloc();
    let mut staging = begin(made(alloc, 6 + 6)?)?;
    assert!(rt; stage(&mut staging, 3, 0x11) == Ok(1));
    assert!(rt; stage(&mut staging, 3, 0x22) == Ok(2));
    assert!(rt; staged_byte(&mut staging, 3) == Ok(0x22));
    assert!(rt; staging.head() == 0);
    let (number, rvg) = sealed(staging)?;
    assert!(rt; (number, rvg.head()) == (2, 2));
    let mut rvg = again(alloc, rvg)?;
    assert!(rt; rvg.head() == 2);
    assert!(rt; first_byte(&mut rvg, 3) == Ok(0x22));
    Ok(())
}

// With one call less the seal is stopped at its last flush, by a crash that keeps the header of the second record alone: a start finds
// nothing of it.
#[test]
fn a_group_commit_that_is_cut_off_leaves_its_first_part(rt: HostRuntime) -> Result<(), Fail> {
    let alloc = rt.alloc();
    let mut staging = begin(made_with(alloc, 6 + 5, 2)?)?;
    assert!(rt; stage(&mut staging, 3, 0x11) == Ok(1));
    assert!(rt; stage(&mut staging, 4, 0x22) == Ok(2));
    let (number, rvg) = sealed(staging)?;
    assert!(rt; (number, rvg.head()) == (0, 0));
    let mut rvg = again(alloc, rvg)?;
    assert!(rt; rvg.head() == 0);
    assert!(rt; first_byte(&mut rvg, 3) == Ok(0));
    Ok(())
}

// Logs one block of these bytes, with its region marked for place 1 of a link.
fn write_marked(rvg: &mut Rvg<MemShelf>, start: u64, value: u8) -> Result<u64, No> {
    if rvg.volumes() == 0 || rvg.free() < 2 {
        return Ok(99);
    }
    rvg.write(0, start, &[value; 512], 2)
}

// Whether the first region of the volume is marked for a place of a link.
fn marked(rvg: &Rvg<MemShelf>, slot: u32) -> Option<bool> {
    if !rvg.has_region(slot, 0, 0) {
        return None;
    }
    Some(rvg.marked(slot, 0, 0))
}

// Takes its mark off.
fn unmark(rvg: &mut Rvg<MemShelf>, slot: u32) -> Result<(), No> {
    if !rvg.has_region(slot, 0, 0) {
        return Err(No::Role);
    }
    rvg.mark(slot, 0, 0, false)
}

// The region of a write is marked for the place that is named, and for no other. A start finds the mark, and finds it off once it was
// taken off.
#[test]
fn a_write_marks_its_region(rt: HostRuntime) -> Result<(), Fail> {
    let alloc = rt.alloc();
    let mut rvg = made(alloc, 1000)?;
    assert!(rt; marked(&rvg, 1) == Some(false));
    assert!(rt; write_marked(&mut rvg, 3, 0x11) == Ok(1));
    assert!(rt; marked(&rvg, 1) == Some(true));
    assert!(rt; marked(&rvg, 0) == Some(false));
    assert!(rt; (rvg.left(0), rvg.left(1)) == (0, 1));
    let mut rvg = again(alloc, rvg)?;
    assert!(rt; marked(&rvg, 1) == Some(true));
    assert!(rt; first_byte(&mut rvg, 3) == Ok(0x11));
    assert!(rt; unmark(&mut rvg, 1) == Ok(()));
    let rvg = again(alloc, rvg)?;
    assert!(rt; marked(&rvg, 1) == Some(false));
    Ok(())
}

// A new group is 6 calls, and a mark is 2: the write that comes behind it is cut off, and its region is marked.
#[test]
fn a_region_is_marked_before_its_write(rt: HostRuntime) -> Result<(), Fail> {
    let alloc = rt.alloc();
    let mut rvg = made(alloc, 6 + 2)?;
    assert!(rt; write_marked(&mut rvg, 3, 0x11) == Err(No::Down));
    let mut rvg = again(alloc, rvg)?;
    assert!(rt; (rvg.low(), rvg.head()) == (1, 0));
    assert!(rt; marked(&rvg, 1) == Some(true));
    assert!(rt; first_byte(&mut rvg, 3) == Ok(0));
    Ok(())
}

// A second write of the region is four calls, as one whose region is marked in no map.
#[test]
fn a_marked_region_costs_no_call(rt: HostRuntime) -> Result<(), Fail> {
    let alloc = rt.alloc();
    let mut rvg = made(alloc, 6 + 2 + 4 + 4)?;
    assert!(rt; write_marked(&mut rvg, 3, 0x11) == Ok(1));
    assert!(rt; write_marked(&mut rvg, 4, 0x22) == Ok(2));
    assert!(rt; write_marked(&mut rvg, 5, 0x33) == Err(No::Down));
    let mut rvg = again(alloc, rvg)?;
    assert!(rt; first_byte(&mut rvg, 4) == Ok(0x22));
    Ok(())
}

// Stages one block of these bytes, with its region marked for place 1 of a link.
fn stage_marked(staging: &mut Staging<MemShelf>, start: u64, value: u8) -> Result<u64, No> {
    if staging.core.volumes() == 0 || staging.free() < 2 {
        return Ok(99);
    }
    staging.stage(0, start, &[value; 512], 2)
}

// A new group is 6 calls, the mark of a region 2, and a stage 1: the seal of two writes is cut off at its first call. A start finds none of
// them, and their region marked for the place that is named alone.
#[test]
fn a_group_commit_marks_before_it_is_sealed(rt: HostRuntime) -> Result<(), Fail> {
    let alloc = rt.alloc();
    let mut staging = begin(made(alloc, 6 + 2 + 2)?)?;
    assert!(rt; stage_marked(&mut staging, 3, 0x11) == Ok(1));
    assert!(rt; stage_marked(&mut staging, 4, 0x22) == Ok(2));
    let (number, rvg) = sealed(staging)?;
    assert!(rt; (number, rvg.head()) == (0, 0));
    let rvg = again(alloc, rvg)?;
    assert!(rt; rvg.head() == 0);
    assert!(rt; marked(&rvg, 1) == Some(true));
    assert!(rt; marked(&rvg, 0) == Some(false));
    Ok(())
}

// Marks the regions of all writes above a number for a place of a link, where the log holds them.
fn mark_above(rvg: &mut Rvg<MemShelf>, slot: u32, above: u64) -> Result<(), No> {
    if slot as usize >= LINK_PLACES || rvg.low() == 0 || rvg.low() - 1 > above {
        return Err(No::Role);
    }
    rvg.mark_above(slot, above)
}

// A write that waits is marked for the place that is named, and for no other. Behind the last number there is nothing to mark.
#[test]
fn writes_that_wait_are_marked(rt: HostRuntime) -> Result<(), Fail> {
    let alloc = rt.alloc();
    let mut rvg = made(alloc, 1000)?;
    assert!(rt; write(&mut rvg, 3, 0x11) == Ok(1));
    assert!(rt; mark_above(&mut rvg, 5, 1) == Ok(()));
    assert!(rt; marked(&rvg, 5) == Some(false));
    assert!(rt; mark_above(&mut rvg, 5, 0) == Ok(()));
    assert!(rt; marked(&rvg, 5) == Some(true));
    assert!(rt; marked(&rvg, 1) == Some(false));
    let rvg = again(alloc, rvg)?;
    assert!(rt; marked(&rvg, 5) == Some(true));
    Ok(())
}
