// What no clause says: what files keep, what is answered where there is no folder, and that each call succeeds.
use std::alloc::Global;
use std::fs;
use std::test::Fail;
use vx_disk::{Rack, Shelf, ShelfError};
use vx_filedisk::HostRack;
use vx_model::limits::LEAST_BLOCKS;
use vx_model::{No, OutOfMemory, Stop};

fn fit(rack: &mut HostRack, alloc: Global, dir: Option<&str>, blocks: u64) -> Result<(), Stop> {
    if rack.units() != 0 || rack.is_down() || blocks < LEAST_BLOCKS {
        return Err(Stop::OutOfMemory);
    }
    rack.fit(alloc, dir, 901, 2, blocks)
}

// Two disks of so many blocks.
fn fitted(
    rt: HostRuntime,
    alloc: Global,
    dir: Option<&str>,
    blocks: u64,
) -> Result<HostRack, OutOfMemory> {
    let mut rack = HostRack::new(rt, alloc)?;
    match fit(&mut rack, alloc, dir, blocks) {
        Ok(()) => Ok(rack),
        Err(_) => Err(OutOfMemory),
    }
}

// The last byte of a block, or what the read was answered.
fn last_byte(rack: &mut HostRack, unit: u32, block: u64) -> Result<u8, ShelfError> {
    let mut into = [9u8; 512];
    if rack.units() <= unit || rack.size(unit) <= block {
        return Ok(255);
    }
    rack.read(unit, block, &mut into)?;
    Ok(into[511])
}

fn write(rack: &mut HostRack, unit: u32, block: u64, value: u8) -> Result<(), ShelfError> {
    if rack.units() <= unit || rack.size(unit) <= block {
        return Ok(());
    }
    rack.write(unit, block, &[value; 512])
}

fn flush(rack: &mut HostRack, unit: u32) -> Result<(), ShelfError> {
    if rack.units() <= unit {
        return Ok(());
    }
    rack.flush(unit)
}

fn faults(rack: &HostRack, unit: u32) -> u64 {
    if rack.units() <= unit {
        return 255;
    }
    rack.faults(unit)
}

fn make_fail(rack: &mut HostRack, disk: u32, on: bool) {
    if disk < rack.units() {
        rack.fail(disk, on);
    }
}

fn crash(rack: &mut HostRack) {
    rack.crash(0);
    if rack.is_down() {
        rack.revive();
    }
}

fn remove(rt: &HostRuntime) {
    let _ = fs::remove_file(rt, "./901-0.vxd");
    let _ = fs::remove_file(rt, "./901-1.vxd");
}

#[test]
fn files_keep_what_was_written(rt: HostRuntime) -> Result<(), Fail> {
    remove(&rt);
    let mut first = fitted(rt, rt.alloc(), Some("."), 8)?;
    write(&mut first, 1, 3, 7)?;
    flush(&mut first, 1)?;
    drop(first);
    let mut second = fitted(rt, rt.alloc(), Some("."), 8)?;
    for (unit, block, want) in [(1, 3, 7), (1, 2, 0), (0, 3, 0)] {
        assert!(rt; last_byte(&mut second, unit, block) == Ok(want));
    }
    write(&mut second, 0, 7, 5)?;
    crash(&mut second);
    assert!(rt; last_byte(&mut second, 0, 7) == Ok(5));
    drop(second);
    let mut longer = fitted(rt, rt.alloc(), Some("."), 9)?;
    assert!(rt; last_byte(&mut longer, 1, 3) == Ok(0));
    // Another cuts the file short under it.
    assert!(rt; fs::write(&rt, "./901-1.vxd", "").is_ok());
    assert!(rt; last_byte(&mut longer, 1, 3) == Err(ShelfError::Fault { disk: 1 }));
    assert!(rt; last_byte(&mut longer, 0, 3) == Ok(0));
    assert!(rt; faults(&longer, 1) == 1);
    assert!(rt; faults(&longer, 0) == 0);
    remove(&rt);
    Ok(())
}

#[test]
fn faults_of_files_are_counted(rt: HostRuntime) -> Result<(), Fail> {
    let mut rack = HostRack::new(rt, rt.alloc())?;
    let answer = fit(&mut rack, rt.alloc(), Some("no/such/folder"), 8);
    assert!(rt; answer == Err(Stop::No(No::Device { disk: 0 })));
    assert!(rt; fit(&mut rack, rt.alloc(), None, 8) == Ok(()));
    assert!(rt; faults(&rack, 0) == 1);
    assert!(rt; faults(&rack, 1) == 0);
    make_fail(&mut rack, 1, true);
    assert!(rt; last_byte(&mut rack, 1, 0) == Err(ShelfError::Fault { disk: 1 }));
    assert!(rt; faults(&rack, 1) == 1);
    Ok(())
}

#[test]
fn memory_forgets_what_was_not_flushed(rt: HostRuntime) -> Result<(), Fail> {
    let mut rack = fitted(rt, rt.alloc(), None, 8)?;
    write(&mut rack, 0, 2, 4)?;
    flush(&mut rack, 0)?;
    write(&mut rack, 0, 2, 6)?;
    assert!(rt; last_byte(&mut rack, 0, 2) == Ok(6));
    crash(&mut rack);
    assert!(rt; last_byte(&mut rack, 0, 2) == Ok(4));
    Ok(())
}
