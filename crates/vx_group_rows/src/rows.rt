// Cases of a group over disks in memory, each a list of calls and of what they are answered.
use crate::attaches::{self, att};
use crate::imports::{self, Disks, brought, crashed, disks_of, fail, failed_disk, group_on};
use crate::regains::{self, failing};
use crate::rvgs::{self, named, set};
use crate::volumes::{self, STRIPED, Told, det, flush, get, make, plain, put, state, told_of};
use crate::{cuts, fails, fallen, helds};
use std::alloc::Global;
use std::test::*;
use vx_config::PlexState;
use vx_disk::{Rack, Shelf};
use vx_group::Group;
use vx_model::OutOfMemory;
use vx_untold::Untold;

/// A call of a group, or a look at it. A new volume has a name, so many blocks, and so many plexes.
#[derive(Clone, Copy)]
pub enum Call {
    Make(&'static [u8], u64, u32),
    Striped(&'static [u8]),
    Put(u32, u64, u8),
    Get(u32, u64),
    Flush(u32),
    Det(u32, u32),
    Att(u32, u32),
    State(usize, usize),
    /// The first disk that is held as failed.
    Failed,
    /// Whether imports agree.
    Agreed,
    /// The volumes of the replicated volume group: the log, the maps, and one data volume.
    Set(u32, u32, u32),
    Named,
    /// A disk fails, or works again.
    Fail(u32, bool),
    /// A crash and an import, which is made again where it is refused.
    Crash(u64),
    /// The same without this disk in the first import.
    Without(u32, u64),
    /// A crash, and an import that is cut behind so many writes and flushes.
    Cut(u64, u64, u64),
    /// A deport and an import, where the deport is done.
    Deport,
}

pub type Row = (Call, Told);

/// What becomes of the disks in a case, which is tried with each of these.
#[derive(Clone, Copy)]
pub enum Trouble {
    /// The calls of the disks with these numbers fail.
    Fails(&'static [&'static [u64]]),
    /// They fall behind so many writes and flushes and then this many, and keep what the next number picks; and this call fails.
    Cut(u64, &'static [u64], u64, u64),
}

/// No call fails.
pub const NONE: Trouble = Trouble::Fails(&[&[]]);

/// What it shows, how many disks of 1,024 blocks there are, what becomes of them, the rows in parts, and blocks that disks have then.
pub type Case = (
    &'static str,
    u32,
    Trouble,
    &'static [&'static [Row]],
    &'static [(u32, u64, u8)],
);

pub const ON: Told = Told::Is(Some(PlexState::Active));

pub const OFF: Told = Told::Is(Some(PlexState::Stale));

fn tell(alloc: Global, group: &mut Group<Disks>, call: Call) -> Told {
    match call {
        Call::Make(name, blocks, mirrors) => make(alloc, group, name, &plain(blocks, mirrors)),
        Call::Striped(name) => make(alloc, group, name, &STRIPED),
        Call::Put(volume, block, byte) => put(group, volume, block, byte),
        Call::Get(volume, block) => get(group, volume, block),
        Call::Flush(volume) => flush(group, volume),
        Call::Det(volume, plex) => det(group, volume, plex),
        Call::Att(volume, plex) => att(group, volume, plex),
        Call::State(volume, plex) => Told::Is(state(group.config(), volume, plex)),
        Call::Failed => Told::Failed(failed_disk(group.config())),
        Call::Agreed => Told::Agreed(group.is_agreed()),
        Call::Set(srl, maps, data) => set(group, srl, maps, data),
        Call::Named => Told::Named(named(group.config())),
        _ => Told::Other,
    }
}

// The group behind a call, where there is one, and what the call is answered.
fn called(alloc: Global, group: Group<Disks>, call: Call) -> (Option<Group<Disks>>, Told) {
    match call {
        Call::Fail(disk, on) => (Some(failing(group, disk, on)), Told::Done),
        Call::Crash(pick) => brought(alloc, crashed(group, pick), 0),
        Call::Without(disk, pick) => brought(alloc, fail(crashed(group, pick), disk, true), disk),
        Call::Cut(pick, calls, kept) => brought(alloc, fused(crashed(group, pick), calls, kept), 0),
        Call::Deport => match group.deport() {
            Ok(disks) => brought(alloc, disks, 0),
            Err((group, stop)) => (Some(group), told_of(stop)),
        },
        _ => {
            let mut group = group;
            let told = tell(alloc, &mut group, call);
            (Some(group), told)
        }
    }
}

/// The group behind the calls of these rows, where each is answered as it says.
pub fn went(alloc: Global, group: Group<Disks>, rows: &[Row]) -> Option<Group<Disks>> {
    let mut group = group;
    for at in 0..rows.len() {
        let (call, wanted) = rows[at];
        let (next, told) = called(alloc, group, call);
        if told != wanted {
            return None;
        }
        group = next?;
    }
    Some(group)
}

// The disks, which fall behind so many writes and flushes.
fn fused(shelf: Disks, calls: u64, pick: u64) -> Disks {
    let mut disks = shelf.shelf;
    disks.fuse(calls, pick);
    Untold { shelf: disks }
}

// Whether the rows of a case hold, where these calls of its disks fail, and where they fall so.
fn holds(
    alloc: Global,
    case: &Case,
    fails: &[u64],
    fuse: Option<(u64, u64)>,
) -> Result<bool, OutOfMemory> {
    let (_, disks, _, parts, blocks) = case;
    let mut shelf = disks_of(alloc, fails, *disks, 1024)?;
    if let Some((calls, pick)) = fuse {
        shelf = fused(shelf, calls, pick);
    }
    let mut group = group_on(alloc, shelf)?;
    for at in 0..parts.len() {
        group = match went(alloc, group, parts[at]) {
            Some(group) => group,
            None => return Ok(false),
        };
    }
    let (mut shelf, _core) = group.apart();
    for at in 0..blocks.len() {
        let (disk, block, byte) = blocks[at];
        if get(&mut shelf, disk, block) != Told::Block(byte) {
            return Ok(false);
        }
    }
    Ok(true)
}

// The number of the first of these sets of failing calls with which the rows of a case do not hold.
fn first_wrong(alloc: Global, case: &Case, sets: &[&[u64]]) -> Result<Option<usize>, OutOfMemory> {
    for at in 0..sets.len() {
        if !holds(alloc, case, sets[at], None)? {
            return Ok(Some(at));
        }
    }
    Ok(None)
}

// The same of the calls after which the disks fall.
fn first_wrong_cut(
    alloc: Global,
    case: &Case,
    before: u64,
    cuts: &[u64],
    pick: u64,
    fail: u64,
) -> Result<Option<usize>, OutOfMemory> {
    for at in 0..cuts.len() {
        let fuse = Some((before.saturating_add(cuts[at]), pick));
        if !holds(alloc, case, &[fail], fuse)? {
            return Ok(Some(at));
        }
    }
    Ok(None)
}

#[test]
fn calls_are_answered_as_their_rows_say(rt: HostRuntime) -> Result<(), Fail> {
    let alloc = rt.alloc();
    for cases in [
        volumes::CASES,
        attaches::CASES,
        cuts::CASES,
        fails::CASES,
        fallen::CASES,
        helds::CASES,
        imports::CASES,
        regains::CASES,
        rvgs::CASES,
    ] {
        for case in cases {
            let name = case.0;
            match case.2 {
                Trouble::Fails(sets) => {
                    let wrong = first_wrong(alloc, case, sets)?;
                    assert!(rt; wrong == None, "{name}: {wrong:?}");
                }
                Trouble::Cut(before, cuts, pick, fail) => {
                    let wrong = first_wrong_cut(alloc, case, before, cuts, pick, fail)?;
                    assert!(rt; wrong == None, "{name}: {wrong:?}");
                }
            }
        }
    }
    Ok(())
}
