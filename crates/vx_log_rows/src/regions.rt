// What no clause says: that a replay is taken on a shelf in memory, and what a start finds of it.
ghost use Rattle.std.specs.Prelude.{◌≡◌, [], ◌∷◌, ◌<◌, ◌≤◌};

use std::alloc::Global;
use std::test::*;
use vx_disk::{MemShelf, Rack, Shelf};
use vx_model::limits::{LEAST_BLOCKS, MOST_NUMBER};
use vx_model::{Blocks, Line, Mark, No, OutOfMemory, SPhase, State, Units, Update, VolumeUnits};
use vx_regions::{QAction, begin_replay, close_replay, settle_mark, store_region};
use vx_rvg::Rvg;
use vx_secondary::{RAction, Secondary};

// The log on disk 0, one volume on disk 1, and the maps on disk 2.
fn three_units() -> Units
    ensures { result ≡ record { srl = 0; maps = 2; vols = 1 ∷ [] } }
{
    let mut vols = VolumeUnits::new();
    vols.push(1);
    Units {
        srl: 0,
        maps: 2,
        vols,
    }
}

// A receiver on a shelf in memory of three disks of 70 blocks, in this phase of its first replay.
fn made(alloc: Global, phase: SPhase) -> Result<Secondary<MemShelf>, OutOfMemory> {
    let mut shelf = MemShelf::new(alloc, &[])?;
    if shelf.fit(alloc, None, 0, 3, 70).is_err() {
        return Err(OutOfMemory);
    }
    if shelf.units() != 3 {
        return Err(OutOfMemory);
    }
    let mut state = State::first(0);
    state.mark = Mark::Inconsistent;
    state.phase = phase;
    state.replay = 1;
    let rvg = match Rvg::create(alloc, shelf, &three_units(), &state) {
        Ok(rvg) => rvg,
        Err(_) => return Err(OutOfMemory),
    };
    match Secondary::new(alloc, rvg) {
        Ok(secondary) => Ok(secondary),
        Err(_) => Err(OutOfMemory),
    }
}

// The first byte of a block.
fn shown(secondary: &mut Secondary<MemShelf>, block: u64) -> Result<u8, No> {
    if secondary.rvg.volumes() == 0 {
        return Ok(99);
    }
    let mut bytes = [0; 512];
    match secondary.show(0, block, &mut bytes) {
        Ok(()) => Ok(bytes[0]),
        Err(no) => Err(no),
    }
}

// The line of the group.
fn line() -> Line {
    Line {
        generation: 1,
        origin: 0,
    }
}

// Region 1 of a volume, which ends behind six blocks if it is volume 0.
fn handed(
    secondary: &mut Secondary<MemShelf>,
    id: u64,
    vol: u32,
) -> Result<Result<QAction, No>, OutOfMemory> {
    if secondary.rvg.volumes() != 1 || secondary.rvg.size(0) != 70 {
        return Err(OutOfMemory);
    }
    Ok(store_region(secondary, &line(), id, vol, 1, &[0x55; 3072]))
}

// A quiet receiver ignores a region, and one that stores regions that of another replay. The blocks before the region stay, and a volume
// that is not there is refused.
#[test]
fn a_region_is_stored(rt: HostRuntime) -> Result<(), Fail> {
    let alloc = rt.alloc();
    let mut quiet = made(alloc, SPhase::Quiet)?;
    assert!(rt; handed(&mut quiet, 1, 0)? == Ok(QAction::Ignored));
    assert!(rt; shown(&mut quiet, 64) == Ok(0));
    let mut site = made(alloc, SPhase::Regions)?;
    assert!(rt; handed(&mut site, 2, 0)? == Ok(QAction::Ignored));
    assert!(rt; shown(&mut site, 64) == Ok(0));
    assert!(rt; handed(&mut site, 1, 1)? == Err(No::Range));
    assert!(rt; handed(&mut site, 1, 0)? == Ok(QAction::Store));
    assert!(rt; shown(&mut site, 63) == Ok(0));
    assert!(rt; shown(&mut site, 64) == Ok(0x55));
    assert!(rt; shown(&mut site, 69) == Ok(0x55));
    Ok(())
}

// The receiver behind a crash that keeps no loose block, and a start.
fn again(
    alloc: Global,
    secondary: Secondary<MemShelf>,
) -> Result<Secondary<MemShelf>, OutOfMemory> {
    let mut shelf = secondary.into_rvg().into_shelf();
    shelf.crash(0);
    if shelf.is_down() {
        shelf.revive();
    }
    if shelf.units() != 3
        || shelf.size(0) < LEAST_BLOCKS
        || shelf.size(1) != 70
        || shelf.size(2) != 70
    {
        return Err(OutOfMemory);
    }
    let rvg = match Rvg::start(alloc, shelf, &three_units()) {
        Ok(rvg) => rvg,
        Err(_) => return Err(OutOfMemory),
    };
    match Secondary::new(alloc, rvg) {
        Ok(secondary) => Ok(secondary),
        Err(_) => Err(OutOfMemory),
    }
}

// Hands the site an update of one block of these bytes.
fn take(site: &mut Secondary<MemShelf>, number: u64, block: u64, value: u8) -> Result<RAction, No> {
    let update = Update {
        line: line(),
        number,
        vol: 0,
        block,
        bytes: Blocks::filled(1, value),
    };
    site.take(&update)
}

// Whether the site takes an update of one block of these bytes, and acknowledges it.
fn is_taken(site: &mut Secondary<MemShelf>, number: u64, block: u64, value: u8) -> bool {
    take(site, number, block, value) == Ok(RAction::Take { ack: number })
}

// Whether the site answers so to the begin of this replay.
fn is_begun(site: &mut Secondary<MemShelf>, id: u64, start: u64, action: QAction) -> bool {
    if MOST_NUMBER < id {
        return false;
    }
    begin_replay(site, &line(), id, start) == Ok(action)
}

// Whether the site answers so to the end of this replay, from number 4 to number 5.
fn is_closed(site: &mut Secondary<MemShelf>, id: u64, action: QAction) -> bool {
    if MOST_NUMBER < id {
        return false;
    }
    close_replay(site, &line(), id, 4, 5) == Ok(action)
}

// Whether the site's mark is brought up to what its log holds.
fn is_settled(site: &mut Secondary<MemShelf>) -> bool {
    settle_mark(site) == Ok(())
}

// Whether the update of this number, the next of those that wait, is applied.
fn is_applied(site: &mut Secondary<MemShelf>, number: u64) -> bool {
    site.apply(1) == Ok(RAction::DataAck { number })
}

// Whether the site answers so to region 1 of its volume, in this replay.
fn is_handed(site: &mut Secondary<MemShelf>, id: u64, action: QAction) -> bool {
    if site.rvg.volumes() != 1 || site.rvg.size(0) != 70 {
        return false;
    }
    store_region(site, &line(), id, 0, 1, &[0x55; 3072]) == Ok(action)
}

// Whether a block begins with this byte.
fn shows(site: &mut Secondary<MemShelf>, block: u64, value: u8) -> bool {
    shown(site, block) == Ok(value)
}

// Whether the log of the site keeps this of a replay.
fn keeps(site: &Secondary<MemShelf>, mark: Mark, phase: SPhase, replay: u64, end: u64) -> bool {
    let state = site.rvg.state();
    state.mark == mark && state.phase == phase && state.replay == replay && state.end == end
}

// What waits is logged before the replay begins. A start finds the site in it. An earlier replay, and one that begins below the site's last
// number, are ignored.
#[test]
fn a_replay_begins_behind_what_waits(rt: HostRuntime) -> Result<(), Fail> {
    let alloc = rt.alloc();
    let mut site = made(alloc, SPhase::Quiet)?;
    assert!(rt; is_taken(&mut site, 1, 3, 0x11));
    assert!(rt; is_begun(&mut site, 1, 1, QAction::Ignored));
    assert!(rt; is_begun(&mut site, 2, 0, QAction::Ignored));
    assert!(rt; is_begun(&mut site, 2, 1, QAction::Begin));
    assert!(rt; is_begun(&mut site, 2, 1, QAction::Again));
    assert!(rt; site.waiting.len() == 0);
    let mut site = again(alloc, site)?;
    assert!(rt; keeps(&site, Mark::Inconsistent, SPhase::Regions, 2, 0));
    assert!(rt; site.rvg.head() == 1);
    assert!(rt; shows(&mut site, 3, 0x11));
    assert!(rt; is_handed(&mut site, 1, QAction::Ignored));
    assert!(rt; is_handed(&mut site, 2, QAction::Store));
    Ok(())
}

// Behind the last region the log is empty at the replay's start. The site is consistent once it has all up to the replay's end, and a start
// finds it so.
#[test]
fn a_replay_ends_at_its_end(rt: HostRuntime) -> Result<(), Fail> {
    let alloc = rt.alloc();
    let mut site = made(alloc, SPhase::Regions)?;
    assert!(rt; is_closed(&mut site, 2, QAction::Ignored));
    assert!(rt; is_closed(&mut site, 1, QAction::Close));
    assert!(rt; is_closed(&mut site, 1, QAction::Again));
    assert!(rt; is_settled(&mut site));
    assert!(rt; keeps(&site, Mark::Inconsistent, SPhase::Log, 1, 5));
    assert!(rt; is_handed(&mut site, 1, QAction::Ignored));
    assert!(rt; is_taken(&mut site, 5, 3, 0x22));
    assert!(rt; is_settled(&mut site));
    assert!(rt; keeps(&site, Mark::Inconsistent, SPhase::Log, 1, 5));
    assert!(rt; is_applied(&mut site, 5));
    assert!(rt; is_settled(&mut site));
    let mut site = again(alloc, site)?;
    assert!(rt; keeps(&site, Mark::Consistent, SPhase::Log, 1, 5));
    assert!(rt; (site.rvg.low(), site.rvg.head()) == (5, 5));
    assert!(rt; shows(&mut site, 3, 0x22));
    Ok(())
}
