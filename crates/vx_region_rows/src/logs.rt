// What no clause says: which calls a write makes, which log is lost where one of them fails, and that marks are there behind a crash.
ghost use Rattle.std.specs.Prelude.{◌≡◌, ◌<◌, IfSome, IsFalse, IsTrue, length};
ghost use Rattle.vx_config.specs.Checks.{blocks_of as blocks_of_is, is_sound};
ghost use Rattle.vx_logs.specs.Held.{LogsFit};
ghost use Rattle.vx_volume.specs.Plexes.{DisksFit, active as active_is};

use crate::mirrors::{fitted, has_missed, is_dirty, is_ready, log, mirror};
use std::alloc::Global;
use std::test::*;
use vx_config::Config;
use vx_disk::{Rack, Shelf};
use vx_logs::{Logs, Written, load_drl, load_fmr, write};
use vx_model::{No, OutOfMemory, PlexState};
use vx_volume::is_active;

// The group with both logs, and with its second plex in this state.
fn both(alloc: Global, state: PlexState) -> Result<Config, OutOfMemory> {
    mirror(alloc, state, false, Some(log(900, 1)), Some(log(910, 2)))
}

// Whether the first plex can be written, at least this block of it.
fn is_writable<S: Shelf>(config: &Config, shelf: &S, block: u64) -> bool
    ensures sound { IsTrue result → IsTrue (is_sound config.now) }
    ensures volume { IsTrue result → 0 < length config.now.volumes }
    ensures inside { IsTrue result → block < blocks_of_is config.now.volumes 0 }
    ensures first { IsTrue result → IsTrue (active_is config.now 0 0) }
    ensures disks { IsTrue result → DisksFit config.now.disks (S.meaning shelf.now) }
    ensures up { IsTrue result → IsFalse (S.meaning shelf.now).down }
{
    !config.volumes.as_slice().is_empty()
        && is_active(config, 0, 0)
        && is_ready(config, shelf, block)
}

// Reads the logs in two calls.
fn logged<S: Shelf>(alloc: Global, shelf: &mut S, config: &Config) -> Option<Logs>
    ensures { IfSome result (λ logs. LogsFit config.now 0 logs) }
{
    if !is_writable(config, shelf, 0) {
        return None;
    }
    match load_drl(alloc, shelf, config, 0) {
        Ok(drl) => {
            if !is_writable(config, shelf, 0) {
                return None;
            }
            match load_fmr(alloc, shelf, config, 0) {
                Ok(fmr) => Some(Logs { drl, fmr }),
                Err(_) => None,
            }
        }
        Err(_) => None,
    }
}

#[derive(Clone, Copy, PartialEq, Eq)]
enum Told {
    Stored(u8, bool),
    Lost(bool, bool),
    Device(u32),
    Other,
}

fn said(res: Result<Written, No>) -> Told {
    match res {
        Ok(Written::Stored(stored)) => Told::Stored(stored.failed.set, stored.lost),
        Ok(Written::Lost(lost)) => Told::Lost(lost.drl, lost.fmr),
        Err(No::Device { disk }) => Told::Device(disk),
        Err(_) => Told::Other,
    }
}

fn written<S: Shelf>(logs: &mut Logs, shelf: &mut S, config: &Config, block: u64) -> Told
    requires fits { LogsFit config.now 0 logs.old }
    ensures fits { LogsFit config.now 0 logs.new }
{
    if !is_writable(config, shelf, block) {
        return Told::Other;
    }
    said(write(logs, config, 0, shelf, block, &[7; 512]))
}

// Two writes to block 70 behind a read of the logs.
fn written_twice<S: Shelf>(alloc: Global, shelf: &mut S, config: &Config) -> (Told, Told) {
    match logged(alloc, shelf, config) {
        Some(mut logs) => {
            let first = written(&mut logs, shelf, config, 70);
            let second = written(&mut logs, shelf, config, 70);
            (first, second)
        }
        None => (Told::Other, Told::Other),
    }
}

// The first write marks its region by a write and a flush, the third and the fourth call, and writes two plexes; the second one writes the
// plexes alone. Where a plex fails, its map gets the region in two calls more. With a plex that is STALE the region is noted too, in the fifth and
// the sixth call.
#[test]
fn a_region_is_marked_and_noted_once(rt: HostRuntime) -> Result<(), Fail> {
    let alloc = rt.alloc();
    let active = both(alloc, PlexState::Active)?;
    let stale = both(alloc, PlexState::Stale)?;
    let done = Told::Stored(0, false);
    for (config, fails, first, second) in [
        (&active, [0, 0], done, done),
        (&active, [9, 10], done, done),
        (&active, [3, 0], Told::Lost(true, false), done),
        (&active, [4, 0], Told::Lost(true, false), done),
        (&active, [5, 0], Told::Stored(1, false), done),
        (&active, [6, 0], Told::Stored(2, false), done),
        (&active, [5, 7], Told::Stored(1, true), done),
        (&active, [5, 8], Told::Stored(1, true), done),
        (&active, [5, 6], Told::Device(1), done),
        (&active, [7, 0], done, Told::Stored(1, false)),
        (&stale, [9, 10], done, done),
        (&stale, [3, 0], Told::Lost(true, false), done),
        (&stale, [5, 0], Told::Lost(false, true), done),
        (&stale, [6, 0], Told::Lost(false, true), done),
        (&stale, [3, 4], Told::Lost(true, true), done),
        (&stale, [7, 0], Told::Device(0), done),
    ] {
        let mut shelf = fitted(alloc, &fails)?;
        assert!(rt;
            written_twice(alloc, &mut shelf, config) == (first, second),
            "{fails:?}"
        );
    }
    Ok(())
}

// Which regions are marked, and which the second plex has missed.
fn marks<S: Shelf>(alloc: Global, shelf: &mut S, config: &Config) -> [(bool, bool); 4] {
    [
        mark_of(alloc, shelf, config, 0),
        mark_of(alloc, shelf, config, 1),
        mark_of(alloc, shelf, config, 2),
        mark_of(alloc, shelf, config, 3),
    ]
}

fn mark_of<S: Shelf>(alloc: Global, shelf: &mut S, config: &Config, region: u64) -> (bool, bool) {
    match logged(alloc, shelf, config) {
        Some(logs) => (
            is_dirty(&logs, config, region),
            has_missed(&logs, config, 1, region),
        ),
        None => (false, false),
    }
}

#[test]
fn marks_are_there_behind_a_crash(rt: HostRuntime) -> Result<(), Fail> {
    let alloc = rt.alloc();
    for (state, missed) in [(PlexState::Active, false), (PlexState::Stale, true)] {
        let config = both(alloc, state)?;
        let mut shelf = fitted(alloc, &[])?;
        assert!(rt;
            written_twice(alloc, &mut shelf, &config)
                == (Told::Stored(0, false), Told::Stored(0, false))
        );
        shelf.crash(0);
        if shelf.is_down() {
            shelf.revive();
        }
        assert!(rt;
            marks(alloc, &mut shelf, &config)
                == [
                    (false, false),
                    (true, missed),
                    (false, false),
                    (false, false)
                ]
        );
    }
    Ok(())
}
