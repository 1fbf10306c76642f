// What no clause says: which calls fail, what is lost then, and which regions stand behind a crash.
ghost use Rattle.std.specs.Prelude.{◌≡◌, ◌<◌, IfSome, IsFalse, IsTrue, length};
ghost use Rattle.vx_config.specs.Checks.{blocks_of as blocks_of_is, is_sound};
ghost use Rattle.vx_logs.specs.Held.{LogsFit};
ghost use Rattle.vx_volume.specs.Plexes.{DisksFit};

use crate::mirrors::{fitted, has_missed, is_ready, log, mirror};
use std::alloc::Global;
use std::test::*;
use vx_config::Config;
use vx_disk::{Rack, Shelf};
use vx_groupmaps::{begin_map, fill_maps, flush_mapped, load_maps, mark_maps, ready_maps};
use vx_logs::Logs;
use vx_model::{No, OutOfMemory, PlexState};
use vx_volume::plex_count;

// The group with its log of missed regions, on a disk that has failed or not, and with its second plex in this state.
fn mapping(alloc: Global, failed: bool, state: PlexState) -> Result<Config, OutOfMemory> {
    mirror(alloc, state, failed, None, Some(log(900, 2)))
}

#[derive(Drop)]
struct TakenUp {
    logs: Logs,
    gone: bool,
}

fn taken<S: Shelf>(alloc: Global, shelf: &mut S, config: &Config) -> Option<TakenUp>
    ensures { IfSome result (λ x. LogsFit config.now 0 x.logs) }
{
    if !is_ready(config, shelf, 0) {
        return None;
    }
    match load_maps(alloc, shelf, config, 0) {
        Ok(loaded) => {
            let gone = loaded.gone;
            let logs = Logs {
                drl: None,
                fmr: loaded.fmr,
            };
            Some(TakenUp { logs, gone })
        }
        Err(_) => None,
    }
}

#[derive(Clone, Copy, PartialEq, Eq)]
enum Told {
    Kept,
    Lost,
    Other,
}

fn said(res: Result<bool, No>) -> Told {
    match res {
        Ok(lost) => { if lost { Told::Lost } else { Told::Kept } }
        Err(_) => Told::Other,
    }
}

fn marked<S: Shelf>(logs: &mut Logs, shelf: &mut S, config: &Config, block: u64) -> Told
    requires fits { LogsFit config.now 0 logs.old }
    ensures fits { LogsFit config.now 0 logs.new }
{
    if !is_ready(config, shelf, block) {
        return Told::Other;
    }
    match mark_maps(logs, config, 0, shelf, block, 1) {
        Ok(lost) => { if lost.fmr { Told::Lost } else { Told::Kept } }
        Err(_) => Told::Other,
    }
}

fn begun<S: Shelf>(logs: &mut Logs, shelf: &mut S, config: &Config, plex: u32) -> Told
    requires fits { LogsFit config.now 0 logs.old }
    ensures fits { LogsFit config.now 0 logs.new }
{
    if !is_ready(config, shelf, 0) || plex >= plex_count(config, 0) {
        return Told::Other;
    }
    said(begin_map(logs, config, 0, shelf, plex))
}

fn readied<S: Shelf>(logs: &mut Logs, shelf: &mut S, config: &Config) -> Told
    requires fits { LogsFit config.now 0 logs.old }
    ensures fits { LogsFit config.now 0 logs.new }
{
    if !is_ready(config, shelf, 0) {
        return Told::Other;
    }
    said(ready_maps(logs, config, 0, shelf))
}

// Two marks of region 1 for plex 1, which is STALE, and then its map begins anew.
fn three_calls<S: Shelf>(alloc: Global, shelf: &mut S, config: &Config) -> [Told; 4] {
    match taken(alloc, shelf, config) {
        Some(mut taken) => {
            let first = if taken.gone { Told::Lost } else { Told::Kept };
            let second = marked(&mut taken.logs, shelf, config, 70);
            let third = marked(&mut taken.logs, shelf, config, 71);
            let fourth = begun(&mut taken.logs, shelf, config, 1);
            [first, second, third, fourth]
        }
        None => [Told::Other; 4],
    }
}

const KEPT: [Told; 4] = [Told::Kept, Told::Kept, Told::Kept, Told::Kept];

const LOST_FIRST: [Told; 4] = [Told::Lost, Told::Kept, Told::Kept, Told::Kept];

const LOST_SECOND: [Told; 4] = [Told::Kept, Told::Lost, Told::Kept, Told::Kept];

const LOST_LAST: [Told; 4] = [Told::Kept, Told::Kept, Told::Kept, Told::Lost];

// The log is read in one call and a region is noted by a write and a flush, once; a map is emptied by a write and a flush too. A log whose disk
// fails in one of these calls is lost, and no call is made on it from then on. A log on a failed disk is lost too.
#[test]
fn a_log_of_maps_is_lost_at_each_call(rt: HostRuntime) -> Result<(), Fail> {
    let alloc = rt.alloc();
    let good = mapping(alloc, false, PlexState::Stale)?;
    let failed = mapping(alloc, true, PlexState::Stale)?;
    for (name, config, fails, told) in [
        ("no call fails", &good, [6, 7], KEPT),
        ("the reading", &good, [1, 2], LOST_FIRST),
        ("the write of a note", &good, [2, 4], LOST_SECOND),
        ("the flush of a note", &good, [3, 4], LOST_SECOND),
        ("the write of an empty map", &good, [4, 6], LOST_LAST),
        ("the flush of an empty map", &good, [5, 6], LOST_LAST),
        ("a failed disk", &failed, [1, 0], LOST_FIRST),
    ] {
        let mut shelf = fitted(alloc, &fails)?;
        assert!(rt; three_calls(alloc, &mut shelf, config) == told, "{name}");
    }
    Ok(())
}

// Which regions plex 1 has missed where the log is read again.
fn regions<S: Shelf>(alloc: Global, shelf: &mut S, config: &Config) -> [bool; 4] {
    match taken(alloc, shelf, config) {
        Some(taken) => [
            has_missed(&taken.logs, config, 1, 0),
            has_missed(&taken.logs, config, 1, 1),
            has_missed(&taken.logs, config, 1, 2),
            has_missed(&taken.logs, config, 1, 3),
        ],
        None => [true; 4],
    }
}

fn mark_once<S: Shelf>(alloc: Global, shelf: &mut S, config: &Config) -> Told {
    match taken(alloc, shelf, config) {
        Some(mut taken) => marked(&mut taken.logs, shelf, config, 70),
        None => Told::Other,
    }
}

fn ready_once<S: Shelf>(alloc: Global, shelf: &mut S, config: &Config) -> Told {
    match taken(alloc, shelf, config) {
        Some(mut taken) => readied(&mut taken.logs, shelf, config),
        None => Told::Other,
    }
}

// A region that was missed stands behind a crash, and while its plex is STALE; once the plex is ACTIVE its map is emptied.
#[test]
fn a_missed_region_is_there_behind_a_crash(rt: HostRuntime) -> Result<(), Fail> {
    let alloc = rt.alloc();
    let stale = mapping(alloc, false, PlexState::Stale)?;
    let active = mapping(alloc, false, PlexState::Active)?;
    let mut shelf = fitted(alloc, &[])?;
    assert!(rt; mark_once(alloc, &mut shelf, &active) == Told::Kept);
    assert!(rt; regions(alloc, &mut shelf, &stale) == [false; 4]);
    assert!(rt; mark_once(alloc, &mut shelf, &stale) == Told::Kept);
    shelf.crash(0);
    if shelf.is_down() {
        shelf.revive();
    }
    assert!(rt; regions(alloc, &mut shelf, &stale) == [false, true, false, false]);
    assert!(rt; ready_once(alloc, &mut shelf, &stale) == Told::Kept);
    assert!(rt; regions(alloc, &mut shelf, &stale) == [false, true, false, false]);
    assert!(rt; ready_once(alloc, &mut shelf, &active) == Told::Kept);
    assert!(rt; regions(alloc, &mut shelf, &stale) == [false; 4]);
    Ok(())
}

fn filled<S: Shelf>(alloc: Global, shelf: &mut S, config: &Config, set: u8) -> Told {
    match taken(alloc, shelf, config) {
        Some(mut taken) => {
            if !is_ready(config, shelf, 0) {
                return Told::Other;
            }
            said(fill_maps(&mut taken.logs, config, 0, shelf, set))
        }
        None => Told::Other,
    }
}

fn unflushed<S: Shelf>(shelf: &mut S, config: &Config) -> Option<u8> {
    if !is_ready(config, shelf, 0) {
        return None;
    }
    match flush_mapped(config, 0, shelf) {
        Ok(set) => Some(set),
        Err(_) => None,
    }
}

// A plex that cannot be made durable is told, and once its map is filled it has missed all regions.
#[test]
fn a_plex_that_fails_is_to_be_copied_whole(rt: HostRuntime) -> Result<(), Fail> {
    let alloc = rt.alloc();
    let stale = mapping(alloc, false, PlexState::Stale)?;
    let mut shelf = fitted(alloc, &[1])?;
    assert!(rt; unflushed(&mut shelf, &stale) == Some(2));
    assert!(rt; unflushed(&mut shelf, &stale) == Some(0));
    assert!(rt; filled(alloc, &mut shelf, &stale, 1) == Told::Kept);
    assert!(rt; regions(alloc, &mut shelf, &stale) == [false; 4]);
    assert!(rt; filled(alloc, &mut shelf, &stale, 2) == Told::Kept);
    assert!(rt; regions(alloc, &mut shelf, &stale) == [true; 4]);
    Ok(())
}
