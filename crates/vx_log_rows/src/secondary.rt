// What no clause says: that updates of another site are taken, shown and applied on a shelf in memory, and what stands behind a crash.
ghost use Rattle.std.specs.Prelude.{◌≡◌, [], ◌∷◌, ◌<◌, ◌≤◌};

use std::alloc::Global;
use std::test::*;
use vx_disk::{MemShelf, Rack, Shelf};
use vx_model::limits::LEAST_BLOCKS;
use vx_model::{Blocks, Line, No, OutOfMemory, State, Units, Update, VolumeUnits};
use vx_rvg::Rvg;
use vx_secondary::{RAction, Secondary};

// The log on disk 0, one volume on disk 1, and the maps on disk 2.
fn three_units() -> Units
    ensures { result ≡ record { srl = 0; maps = 2; vols = 1 ∷ [] } }
{
    let mut vols = VolumeUnits::new();
    vols.push(1);
    Units {
        srl: 0,
        maps: 2,
        vols,
    }
}

// A receiver on a shelf in memory of three disks of 18 blocks. So many writes and flushes pass, and the next is a crash that keeps no
// loose block.
fn made(alloc: Global, calls: u64) -> Result<Secondary<MemShelf>, OutOfMemory> {
    let mut shelf = MemShelf::new(alloc, &[])?;
    if shelf.fit(alloc, None, 0, 3, 18).is_err() {
        return Err(OutOfMemory);
    }
    shelf.fuse(calls, 0);
    if shelf.units() != 3 {
        return Err(OutOfMemory);
    }
    let rvg = match Rvg::create(alloc, shelf, &three_units(), &State::first(0)) {
        Ok(rvg) => rvg,
        Err(_) => return Err(OutOfMemory),
    };
    match Secondary::new(alloc, rvg) {
        Ok(secondary) => Ok(secondary),
        Err(_) => Err(OutOfMemory),
    }
}

// The receiver behind a crash that keeps no loose block, and a start.
fn again(
    alloc: Global,
    secondary: Secondary<MemShelf>,
) -> Result<Secondary<MemShelf>, OutOfMemory> {
    let mut shelf = secondary.into_rvg().into_shelf();
    shelf.crash(0);
    if shelf.is_down() {
        shelf.revive();
    }
    if shelf.units() != 3
        || shelf.size(0) < LEAST_BLOCKS
        || shelf.size(1) != 18
        || shelf.size(2) != 18
    {
        return Err(OutOfMemory);
    }
    let rvg = match Rvg::start(alloc, shelf, &three_units()) {
        Ok(rvg) => rvg,
        Err(_) => return Err(OutOfMemory),
    };
    match Secondary::new(alloc, rvg) {
        Ok(secondary) => Ok(secondary),
        Err(_) => Err(OutOfMemory),
    }
}

// One block of these bytes, as an update of the line that this site began.
fn update(number: u64, block: u64, value: u8) -> Update {
    Update {
        line: Line {
            generation: 1,
            origin: 0,
        },
        number,
        vol: 0,
        block,
        bytes: Blocks::filled(1, value),
    }
}

// Hands the site an update of one block of these bytes.
fn take(site: &mut Secondary<MemShelf>, number: u64, block: u64, value: u8) -> Result<RAction, No> {
    site.take(&update(number, block, value))
}

// Applies so many of the updates that wait.
fn apply(site: &mut Secondary<MemShelf>, count: u64) -> Result<RAction, No> {
    site.apply(count)
}

// The first byte of a block.
fn shown(secondary: &mut Secondary<MemShelf>, block: u64) -> Result<u8, No> {
    if secondary.rvg.volumes() == 0 {
        return Ok(99);
    }
    let mut bytes = [0; 512];
    match secondary.show(0, block, &mut bytes) {
        Ok(()) => Ok(bytes[0]),
        Err(no) => Err(no),
    }
}

// The next number is taken and waits, an earlier one is acknowledged again, and a gap and another line are ignored. What waits is shown.
#[test]
fn updates_are_taken_in_their_order(rt: HostRuntime) -> Result<(), Fail> {
    let alloc = rt.alloc();
    let mut site = made(alloc, 1000)?;
    assert!(rt; take(&mut site, 2, 3, 0x22) == Ok(RAction::Ignored));
    assert!(rt; take(&mut site, 1, 3, 0x11) == Ok(RAction::Take { ack: 1 }));
    assert!(rt; take(&mut site, 1, 3, 0x33) == Ok(RAction::IgnoredAck { number: 1 }));
    assert!(rt; take(&mut site, 2, 18, 0x22) == Err(No::Range));
    let other = Update {
        line: Line {
            generation: 1,
            origin: 1,
        },
        number: 2,
        vol: 0,
        block: 3,
        bytes: Blocks::filled(1, 0x44),
    };
    assert!(rt; site.take(&other) == Ok(RAction::Ignored));
    assert!(rt; take(&mut site, 2, 3, 0x22) == Ok(RAction::Take { ack: 2 }));
    assert!(rt; shown(&mut site, 3) == Ok(0x22));
    assert!(rt; (site.rvg.head(), site.waiting.len()) == (0, 2));
    Ok(())
}

// What waits is lost in a crash; what was applied is not.
#[test]
fn what_was_applied_is_there_behind_a_crash(rt: HostRuntime) -> Result<(), Fail> {
    let alloc = rt.alloc();
    let mut site = made(alloc, 1000)?;
    for number in 1..3 {
        assert!(rt;
            take(&mut site, number, 3, 0x11 * number as u8) == Ok(RAction::Take { ack: number })
        );
    }
    assert!(rt; apply(&mut site, 1) == Ok(RAction::DataAck { number: 1 }));
    assert!(rt; (site.rvg.head(), site.rvg.applied(), site.waiting.len()) == (1, 1, 1));
    assert!(rt; shown(&mut site, 3) == Ok(0x22));
    let mut site = again(alloc, site)?;
    assert!(rt; (site.rvg.head(), site.waiting.len()) == (1, 0));
    assert!(rt; shown(&mut site, 3) == Ok(0x11));
    assert!(rt; apply(&mut site, 16) == Ok(RAction::Nothing));
    Ok(())
}

// Sixteen updates wait at most. All of them are applied in one call, though the log's ring holds eight.
#[test]
fn sixteen_updates_wait(rt: HostRuntime) -> Result<(), Fail> {
    let alloc = rt.alloc();
    let mut site = made(alloc, 1000)?;
    for k in 0..16 {
        assert!(rt; take(&mut site, k + 1, k, k as u8) == Ok(RAction::Take { ack: k + 1 }));
    }
    assert!(rt; take(&mut site, 17, 0, 0x77) == Ok(RAction::Ignored));
    assert!(rt; apply(&mut site, 100) == Ok(RAction::DataAck { number: 16 }));
    assert!(rt; (site.rvg.head(), site.rvg.applied(), site.waiting.len()) == (16, 16, 0));
    assert!(rt; take(&mut site, 17, 0, 0x77) == Ok(RAction::Take { ack: 17 }));
    assert!(rt; shown(&mut site, 0) == Ok(0x77));
    assert!(rt; shown(&mut site, 15) == Ok(15));
    Ok(())
}

// Wherever a crash cuts the making of a receiver or an apply of three updates, a start finds a first part of them, and all where the
// apply was answered.
#[test]
fn a_cut_apply_leaves_a_first_part(rt: HostRuntime) -> Result<(), Fail> {
    let alloc = rt.alloc();
    for calls in 0..60 {
        if let Ok(mut site) = made(alloc, calls) {
            for k in 0..3 {
                assert!(rt;
                    take(&mut site, k + 1, 4, k as u8 + 1) == Ok(RAction::Take { ack: k + 1 })
                );
            }
            let done = apply(&mut site, 3);
            let waits = u64::from(site.waiting.len());
            let mut site = again(alloc, site)?;
            let head = site.rvg.head();
            match done {
                Ok(action) => {
                    assert!(rt; action == RAction::DataAck { number: 3 });
                    assert!(rt; (head, waits) == (3, 0));
                }
                Err(no) => {
                    assert!(rt; no == No::Down);
                    assert!(rt; (head <= 3, 3 <= waits + head) == (true, true));
                }
            }
            assert!(rt; shown(&mut site, 4) == Ok(head.min(3) as u8));
        }
    }
    Ok(())
}
