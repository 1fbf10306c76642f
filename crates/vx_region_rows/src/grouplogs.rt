// What no clause says: which calls fail, what is lost then, and which marks stand behind a crash.
ghost use Rattle.std.specs.Prelude.{◌≡◌, ◌<◌, IfSome, IsFalse, IsTrue, length};
ghost use Rattle.vx_config.specs.Checks.{blocks_of as blocks_of_is, is_sound};
ghost use Rattle.vx_logs.specs.Held.{LogsFit};
ghost use Rattle.vx_volume.specs.Plexes.{DisksFit};

use crate::mirrors::{fitted, is_dirty, is_ready, log, mirror};
use std::alloc::Global;
use std::test::*;
use vx_config::{Config, VolumeEntry, VolumeLog};
use vx_disk::{Rack, Shelf};
use vx_grouplogs::{clear_marks, load_marks, mark_run};
use vx_logs::{Logs, Lost};
use vx_model::{No, OutOfMemory, PlexState};

// The group with its dirty region log, on a disk that has failed or not.
fn marking(alloc: Global, failed: bool) -> Result<Config, OutOfMemory> {
    mirror(alloc, PlexState::Active, failed, Some(log(900, 1)), None)
}

#[derive(Drop)]
struct TakenUp {
    logs: Logs,
    gone: bool,
}

fn taken<S: Shelf>(alloc: Global, shelf: &mut S, config: &Config) -> Option<TakenUp>
    ensures { IfSome result (λ x. LogsFit config.now 0 x.logs) }
{
    if !is_ready(config, shelf, 0) {
        return None;
    }
    match load_marks(alloc, shelf, config, 0) {
        Ok(loaded) => {
            let gone = loaded.gone;
            let logs = Logs {
                drl: loaded.drl,
                fmr: None,
            };
            Some(TakenUp { logs, gone })
        }
        Err(_) => None,
    }
}

#[derive(Clone, Copy, PartialEq, Eq)]
enum Told {
    Kept,
    Lost,
    Other,
}

fn said(res: Result<Lost, No>) -> Told {
    match res {
        Ok(lost) => { if lost.drl { Told::Lost } else { Told::Kept } }
        Err(_) => Told::Other,
    }
}

fn marked<S: Shelf>(logs: &mut Logs, shelf: &mut S, config: &Config, block: u64) -> Told
    requires fits { LogsFit config.now 0 logs.old }
    ensures fits { LogsFit config.now 0 logs.new }
{
    if !is_ready(config, shelf, block) {
        return Told::Other;
    }
    said(mark_run(logs, config, 0, shelf, block, 1))
}

fn cleared<S: Shelf>(logs: &mut Logs, shelf: &mut S, config: &Config) -> Told
    requires fits { LogsFit config.now 0 logs.old }
    ensures fits { LogsFit config.now 0 logs.new }
{
    if !is_ready(config, shelf, 0) {
        return Told::Other;
    }
    said(clear_marks(logs, config, 0, shelf))
}

// Two marks of block 70, and then all are taken off.
fn three_calls<S: Shelf>(alloc: Global, shelf: &mut S, config: &Config) -> [Told; 4] {
    match taken(alloc, shelf, config) {
        Some(mut taken) => {
            let first = if taken.gone { Told::Lost } else { Told::Kept };
            let second = marked(&mut taken.logs, shelf, config, 70);
            let third = marked(&mut taken.logs, shelf, config, 71);
            let fourth = cleared(&mut taken.logs, shelf, config);
            [first, second, third, fourth]
        }
        None => [Told::Other; 4],
    }
}

fn is_lost(volumes: &[VolumeEntry]) -> bool {
    match volumes.first() {
        Some(volume) => match volume.drl {
            Some(entry) => entry.lost,
            None => false,
        },
        None => false,
    }
}

const KEPT: [Told; 4] = [Told::Kept, Told::Kept, Told::Kept, Told::Kept];

const LOST_FIRST: [Told; 4] = [Told::Lost, Told::Kept, Told::Kept, Told::Kept];

const LOST_SECOND: [Told; 4] = [Told::Kept, Told::Lost, Told::Kept, Told::Kept];

const LOST_LAST: [Told; 4] = [Told::Kept, Told::Kept, Told::Kept, Told::Lost];

// The log is read in one call and a region is marked by a write and a flush, once; the marks go by a write and a flush too. A log whose disk
// fails in one of these calls is lost, and no call is made on it from then on. A log on a failed disk is lost too, and one that is lost is read no more.
#[test]
fn a_log_is_lost_at_each_call(rt: HostRuntime) -> Result<(), Fail> {
    let alloc = rt.alloc();
    let good = marking(alloc, false)?;
    let failed = marking(alloc, true)?;
    let mut was_lost = marking(alloc, false)?;
    was_lost.set_lost(0, VolumeLog::Drl, true);
    assert!(rt; is_lost(was_lost.volumes.as_slice()));
    for (name, config, fails, told) in [
        ("no call fails", &good, [6, 7], KEPT),
        ("the reading", &good, [1, 2], LOST_FIRST),
        ("the write of a mark", &good, [2, 4], LOST_SECOND),
        ("the flush of a mark", &good, [3, 4], LOST_SECOND),
        ("the write without marks", &good, [4, 6], LOST_LAST),
        ("the flush without marks", &good, [5, 6], LOST_LAST),
        ("a failed disk", &failed, [1, 0], LOST_FIRST),
        ("a lost log", &was_lost, [1, 0], KEPT),
    ] {
        let mut shelf = fitted(alloc, &fails)?;
        assert!(rt; three_calls(alloc, &mut shelf, config) == told, "{name}");
    }
    Ok(())
}

// Which regions are marked where the log is read again.
fn marks<S: Shelf>(alloc: Global, shelf: &mut S, config: &Config) -> [bool; 4] {
    match taken(alloc, shelf, config) {
        Some(taken) => [
            is_dirty(&taken.logs, config, 0),
            is_dirty(&taken.logs, config, 1),
            is_dirty(&taken.logs, config, 2),
            is_dirty(&taken.logs, config, 3),
        ],
        None => [true; 4],
    }
}

fn mark_once<S: Shelf>(alloc: Global, shelf: &mut S, config: &Config) -> Told {
    match taken(alloc, shelf, config) {
        Some(mut taken) => marked(&mut taken.logs, shelf, config, 70),
        None => Told::Other,
    }
}

#[test]
fn a_mark_is_there_behind_a_crash(rt: HostRuntime) -> Result<(), Fail> {
    let alloc = rt.alloc();
    let config = marking(alloc, false)?;
    let mut shelf = fitted(alloc, &[])?;
    assert!(rt; mark_once(alloc, &mut shelf, &config) == Told::Kept);
    shelf.crash(0);
    if shelf.is_down() {
        shelf.revive();
    }
    assert!(rt; marks(alloc, &mut shelf, &config) == [false, true, false, false]);
    assert!(rt; three_calls(alloc, &mut shelf, &config) == [Told::Kept; 4]);
    assert!(rt; marks(alloc, &mut shelf, &config) == [false; 4]);
    Ok(())
}
