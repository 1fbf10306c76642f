// What a plex of a volume misses while it is detached, and what an attach of it copies.
use crate::cases::{CASES, SEARCHES};
use std::alloc::Global;
use std::test::*;
use vx_config::{Config, PlexState};
use vx_disk::{MemShelf, Rack, Shelf};
use vx_group_rows::Untold;
use vx_layout::Shape;
use vx_loggroup::LoggedGroup;
use vx_model::limits::MOST_DISKS;
use vx_model::{Name, OutOfMemory};

pub type Disks = Untold<MemShelf>;

// 256 blocks on two plexes, with maps of missed regions, and without.
pub const MAPPED: Shape = Shape {
    blocks: 256,
    mirrors: 2,
    ncol: 1,
    width: 0,
    drl: false,
    fmr: true,
    prefer: None,
};

pub const PLAIN: Shape = Shape {
    blocks: 256,
    mirrors: 2,
    ncol: 1,
    width: 0,
    drl: false,
    fmr: false,
    prefer: None,
};

// The same on three plexes, with both logs.
pub const LOGGED: Shape = Shape {
    blocks: 256,
    mirrors: 3,
    ncol: 1,
    width: 0,
    drl: true,
    fmr: true,
    prefer: None,
};

// A group on three disks, of which these calls fail, with such a volume.
pub fn group_of(
    alloc: Global,
    fails: &[u64],
    want: &Shape,
) -> Result<LoggedGroup<Disks>, OutOfMemory> {
    if want.prefer.is_some() {
        return Err(OutOfMemory);
    }
    let mut shelf = match MemShelf::new(alloc, fails) {
        Ok(shelf) => shelf,
        Err(_) => return Err(OutOfMemory),
    };
    if shelf.fit(alloc, None, 7, 3, 1024).is_err() {
        return Err(OutOfMemory);
    }
    let shelf = Untold { shelf };
    if shelf.units() == 0 || shelf.units() > MOST_DISKS {
        return Err(OutOfMemory);
    }
    match LoggedGroup::create(alloc, shelf, 7) {
        Ok(group) => {
            let mut group = group;
            match group.make_volume(alloc, &Name::new(b"v"), want) {
                Ok(_) => Ok(group),
                Err(_) => Err(OutOfMemory),
            }
        }
        Err(_) => Err(OutOfMemory),
    }
}

// Writes one block of these bytes, and answers whether that is done.
pub fn put(group: &mut LoggedGroup<Disks>, block: u64, byte: u8) -> bool {
    if group.units() == 0 || block >= group.size(0) {
        return false;
    }
    group.write(0, block, &[byte; 512]).is_ok()
}

// The first byte of a block of the volume.
fn read(group: &mut LoggedGroup<Disks>, block: u64) -> Option<u8> {
    if group.units() == 0 || block >= group.size(0) {
        return None;
    }
    let mut bytes = [0; 512];
    match group.read(0, block, &mut bytes) {
        Ok(()) => Some(bytes[0]),
        Err(_) => None,
    }
}

// Detaches a plex, and answers whether that is done.
pub fn det(group: &mut LoggedGroup<Disks>, plex: u32) -> bool {
    group.det(0, plex).is_ok()
}

// How many regions an attach of a plex copies.
pub fn att(group: &mut LoggedGroup<Disks>, plex: u32) -> Option<u64> {
    match group.att(0, plex) {
        Ok(copied) => Some(copied),
        Err(_) => None,
    }
}

// Whether a plex of the volume is ACTIVE.
pub fn is_active(config: &Config, plex: usize) -> bool {
    match config.volumes.as_slice().get(0) {
        Some(volume) => match volume.plexes.as_slice().get(plex) {
            Some(entry) => entry.state == PlexState::Active,
            None => false,
        },
        None => false,
    }
}

// Whether the maps of the volume are held as lost.
pub fn is_lost(config: &Config) -> Option<bool> {
    match config.volumes.as_slice().get(0) {
        Some(volume) => match volume.fmr {
            Some(entry) => Some(entry.lost),
            None => None,
        },
        None => None,
    }
}

// Flushes behind a write of one block, and answers whether that is done.
fn settle(group: &mut LoggedGroup<Disks>, block: u64) -> bool {
    if group.units() == 0 || block >= group.size(0) {
        return false;
    }
    group.flush_run(0, block, 1).is_ok()
}

/// A call of a group with one volume, or a look at it: whether a plex is ACTIVE, and whether the maps are held as lost.
#[derive(Clone, Copy)]
pub enum Call {
    Put(u64, u8),
    Get(u64),
    Flush(u64),
    Det(u32),
    Att(u32),
    Active(usize),
    Lost,
}

#[derive(Clone, Copy, PartialEq, Eq)]
pub enum Told {
    Done,
    Byte(u8),
    Copied(u64),
    Is(bool),
    Refused,
}

pub type Row = (Call, Told);

fn done(is: bool) -> Told {
    if is { Told::Done } else { Told::Refused }
}

fn tell(group: &mut LoggedGroup<Disks>, call: Call) -> Told {
    match call {
        Call::Put(block, byte) => done(put(group, block, byte)),
        Call::Get(block) => match read(group, block) {
            Some(byte) => Told::Byte(byte),
            None => Told::Refused,
        },
        Call::Flush(block) => done(settle(group, block)),
        Call::Det(plex) => done(det(group, plex)),
        Call::Att(plex) => match att(group, plex) {
            Some(copied) => Told::Copied(copied),
            None => Told::Refused,
        },
        Call::Active(plex) => Told::Is(is_active(group.config(), plex)),
        Call::Lost => match is_lost(group.config()) {
            Some(lost) => Told::Is(lost),
            None => Told::Refused,
        },
    }
}

/// How many rows from the first one on are answered as they say, up to one that is not.
pub fn held(group: &mut LoggedGroup<Disks>, rows: &[Row]) -> usize {
    for at in 0..rows.len() {
        let (call, wanted) = rows[at];
        if tell(group, call) != wanted {
            return at;
        }
    }
    rows.len()
}

#[test]
fn calls_are_answered_as_their_rows_say(rt: HostRuntime) -> Result<(), Fail> {
    let alloc = rt.alloc();
    for (name, want, rows) in CASES {
        let mut group = group_of(alloc, &[], want)?;
        assert!(rt; held(&mut group, rows) == rows.len(), "{name}");
    }
    for (name, from, to, both, rows, least, wanted) in SEARCHES {
        let mut seen: u64 = 0;
        for call in *from..*to {
            let next = if *both { call.wrapping_add(1) } else { 0 };
            let mut group = group_of(alloc, &[call, next], &MAPPED)?;
            let count = held(&mut group, rows);
            if count >= *least {
                seen = seen.wrapping_add(1);
                assert!(rt; count == rows.len(), "{name}: {call}");
            }
        }
        assert!(rt; seen == *wanted, "{name}");
    }
    Ok(())
}

// Writes a block while the third plex is detached, as this call fails, and attaches the plex then. Answers how many regions were copied; none,
// where the detach or the attach is refused.
fn failing(alloc: Global, call: u64) -> Result<Option<u64>, OutOfMemory> {
    let mut group = group_of(alloc, &[call], &LOGGED)?;
    if !det(&mut group, 2) {
        return Ok(None);
    }
    if !put(&mut group, 70, 0xbb) || read(&mut group, 70) != Some(0xbb) {
        return Ok(Some(99));
    }
    let copied = att(&mut group, 2);
    if copied.is_some() {
        let other = det(&mut group, 0) && det(&mut group, 1);
        if other && read(&mut group, 70) != Some(0xbb) {
            return Ok(Some(99));
        }
    }
    Ok(copied)
}

#[test]
fn a_write_is_done_whichever_of_its_calls_fails(rt: HostRuntime) -> Result<(), Fail> {
    let alloc = rt.alloc();
    // The calls of the write: a mark in each log and the flush behind it, and the two plexes that are ACTIVE.
    for call in 165..171 {
        // Where the log of missed regions is lost all regions are copied.
        let is_lost = call == 167 || call == 168;
        let wanted = if is_lost { Some(4) } else { Some(1) };
        assert!(rt; failing(alloc, call)? == wanted, "{call}");
    }
    // The read, and the calls of the attach.
    for call in 171..193 {
        match failing(alloc, call)? {
            Some(copied) => assert!(rt; copied == 1, "{call}"),
            None => {}
        }
    }
    Ok(())
}

// The group behind a deport and an import.
fn moved(alloc: Global, group: LoggedGroup<Disks>) -> Option<LoggedGroup<Disks>> {
    match group.deport() {
        Ok((shelf, rested)) => match rested {
            Some(rested) => match LoggedGroup::import(alloc, shelf, &rested) {
                Ok(group) => Some(group),
                Err(_) => None,
            },
            None => None,
        },
        Err(_) => None,
    }
}

#[test]
fn an_attach_behind_a_deport_goes_by_the_map(rt: HostRuntime) -> Result<(), Fail> {
    let alloc = rt.alloc();
    let mut group = group_of(alloc, &[], &MAPPED)?;
    let rows = [
        (Call::Put(10, 0xaa), Told::Done),
        (Call::Det(1), Told::Done),
        (Call::Put(70, 0xbb), Told::Done),
    ];
    assert!(rt; held(&mut group, &rows) == 3);
    let rows = [
        (Call::Get(70), Told::Byte(0xbb)),
        (Call::Det(0), Told::Refused),
        (Call::Att(1), Told::Copied(1)),
        (Call::Det(0), Told::Done),
        (Call::Get(10), Told::Byte(0xaa)),
        (Call::Get(70), Told::Byte(0xbb)),
    ];
    match moved(alloc, group) {
        Some(group) => {
            let mut group = group;
            assert!(rt; held(&mut group, &rows) == 6);
        }
        None => assert!(rt; false),
    }
    Ok(())
}
