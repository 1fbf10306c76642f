// What no clause says: worked imports over a shelf in memory, and that each call succeeds.
ghost use Rattle.std.specs.Prelude.{◌≡◌, ◌≤◌, take};
ghost use Rattle.vx_config.specs.Configs.{CanSpell, subdisk_count};

use crate::steps::STEPS;
use std::alloc::Global;
use std::test::*;
use vx_config::{Config, DiskEntry, Disks, Volumes};
use vx_copies::{Room, commit, commit_in, import, is_wanted, label};
use vx_copyfmt::AreaHeader;
use vx_copyio::{are_large, put_copy};
use vx_disk::{MemShelf, Rack, Shelf, put};
use vx_model::limits::MOST_NUMBER;
use vx_model::{Counted, No, OutOfMemory, Stop};
use vx_wire::{digest, get_bytes, put_bytes, seal};

// Two good disks of 1,024 blocks, and no volume, with serial 1.
const BODY: [u8; 37] = [
    // version, serial, site
    0, 0, 0, 1, 0, 0, 0, 0, 0, 0, 0, 1, 0, 0, 0, 7, // two disks
    2, 0, 0, 0, 0, 0, 0, 4, 0, 0, 0, 0, 0, 0, 0, 0, 4, 0, 0, // no volume, no replicated volume group
    0, 0,
];

// The places of the last byte of the serial, and of the states of the disks.
pub const SERIAL: usize = 11;

pub const FIRST: usize = 25;

pub const SECOND: usize = 34;

// A shelf in memory of two labelled disks.
pub fn labelled(alloc: Global) -> Result<MemShelf, OutOfMemory> {
    let mut shelf = MemShelf::new(alloc, &[])?;
    if shelf.fit(alloc, None, 7, 2, 1024).is_err() || label(&mut shelf, 7).is_err() {
        return Err(OutOfMemory);
    }
    Ok(shelf)
}

// A block that begins with these bytes.
fn block_of(bytes: &[u8; 37]) -> [u8; 512] {
    let mut block = [0; 512];
    block[..37].copy_from_slice(bytes);
    block
}

// The first 37 bytes of a block.
fn front(block: &[u8; 512]) -> [u8; 37]
    ensures { result ≡ take 37 block.now }
{
    get_bytes(block, 0)
}

// Writes a copy of these 37 bytes to a disk.
fn copy<S: Shelf>(shelf: &mut S, disk: u32, serial: u64, bytes: &[u8; 37]) -> bool {
    if disk >= shelf.units() || shelf.size(disk) < 257 || serial > 100 {
        return false;
    }
    let block = block_of(bytes);
    let header = AreaHeader {
        serial,
        length: 37,
        digest: digest(&front(&block)),
    };
    put_copy(shelf, disk, &header, &block).is_ok()
}

fn write<S: Shelf>(shelf: &mut S, disk: u32, at: u64, block: &[u8; 512]) -> bool {
    disk < shelf.units() && at < shelf.size(disk) && put(shelf, disk, at, block).is_ok()
}

pub fn fail<R: Rack>(rack: &mut R, disk: u32, on: bool) {
    if disk < rack.units() {
        rack.fail(disk, on);
    }
}

// The serial that an import finds, the disks that the configuration held as good, and whether it now holds both so.
pub fn found<S: Shelf>(alloc: Global, shelf: &mut S) -> Result<(u64, u8, bool), Stop> {
    if shelf.is_down() || !are_large(shelf) {
        return Err(Stop::OutOfMemory);
    }
    match import(alloc, shelf) {
        Ok((config, good)) => Ok((config.serial, good, both_good(&config))),
        Err(stop) => Err(stop),
    }
}

// Whether of two disks the second one alone is held as good.
fn second_good(config: &Config) -> bool {
    match config.disks.as_slice() {
        [first, second] => first.failed && !second.failed,
        _ => false,
    }
}

fn both_good(config: &Config) -> bool {
    config.disks.as_slice().iter().all(|disk| !disk.failed)
}

// What is done to a shelf of two labelled disks, or what an import finds there.
pub enum Step {
    // A copy of the body on a disk, with this serial in its header, and with bytes of its own at places.
    Copy(u32, u64, &'static [(usize, u8)]),
    // The same of the body with a volume, on the first disk.
    CopyVolume(u64, &'static [(usize, u8)]),
    Fails(u32),
    Works(u32),
    // Zeros over a block of the first disk.
    Zeros(u64),
    // The serial, the disks that were held as good, and whether both are now.
    Finds(u64, u8, bool),
    FindsNone,
    Misses(u32),
}

// A body with these bytes at places.
fn edited<const N: usize>(body: [u8; N], edits: &[(usize, u8)]) -> [u8; N] {
    let mut bytes = body;
    for (place, byte) in edits {
        if *place < N {
            bytes[*place] = *byte;
        }
    }
    bytes
}

// Whether a step is done, or finds what it says.
fn goes<S: Rack>(alloc: Global, shelf: &mut S, step: &Step) -> bool {
    let wanted = match step {
        Step::Copy(disk, serial, edits) => {
            return copy(shelf, *disk, *serial, &edited(BODY, edits));
        }
        Step::CopyVolume(serial, edits) => {
            return copy_volume(shelf, *serial, &edited(VOLUME, edits));
        }
        Step::Fails(disk) => {
            fail(shelf, *disk, true);
            return true;
        }
        Step::Works(disk) => {
            fail(shelf, *disk, false);
            return true;
        }
        Step::Zeros(at) => return write(shelf, 0, *at, &[0; 512]),
        Step::Finds(serial, good, both) => Ok((*serial, *good, *both)),
        Step::FindsNone => Err(Stop::No(No::NoConfig)),
        Step::Misses(disk) => Err(Stop::No(No::Missing { disk: *disk })),
    };
    found(alloc, shelf) == wanted
}

#[test]
fn imports_find_copies(rt: HostRuntime) -> Result<(), Fail> {
    let alloc = rt.alloc();
    for (shows, steps) in STEPS {
        let mut shelf = labelled(alloc)?;
        for (at, step) in steps.iter().enumerate() {
            assert!(rt; goes(alloc, &mut shelf, step), "{shows}: step {at}");
        }
    }
    Ok(())
}

// Two good disks of 1,024 blocks, and no volume, with serial 0.
pub fn two_disks(alloc: Global) -> Config
    ensures can { CanSpell result }
    ensures short { subdisk_count result ≤ 1024 }
{
    let mut disks = Disks::new();
    let disk = DiskEntry {
        blocks: 1024,
        failed: false,
    };
    disks.push(disk);
    disks.push(disk);
    Config {
        serial: 0,
        site: 7,
        disks,
        volumes: Volumes::new(alloc),
        rvg: None,
    }
}

// A commit, in a room that is made for it or not. Gives the serial, and whether each disk is held as good.
pub fn committed<S: Shelf>(
    alloc: Global,
    shelf: &mut S,
    config: &mut Config,
    good: u8,
    in_room: bool,
) -> Result<(u64, bool), Stop>
    requires can { CanSpell config.old }
    requires short { subdisk_count config.old ≤ 1024 }
    ensures can { CanSpell config.new }
    ensures short { subdisk_count config.new ≤ 1024 }
{
    if !are_large(shelf) || !is_wanted(shelf, config) {
        return Err(Stop::OutOfMemory);
    }
    if in_room {
        let mut room = Room::new(alloc, config)?;
        commit_in(shelf, config, good, &mut room)?;
    } else {
        commit(alloc, shelf, config, good)?;
    }
    Ok((config.serial, both_good(config)))
}

#[test]
fn a_commit_outlives_its_disks(rt: HostRuntime) {
    let alloc = rt.alloc();
    for in_room in [false, true] {
        let mut shelf = labelled(alloc).expect(&rt, "there is memory");
        let mut config = two_disks(alloc);
        assert!(rt; committed(alloc, &mut shelf, &mut config, 3, in_room) == Ok((1, true)));
        assert!(rt; found(alloc, &mut shelf) == Ok((1, 3, true)));
        // Serial 2 is begun, and stops at the first disk.
        fail(&mut shelf, 0, true);
        assert!(rt; committed(alloc, &mut shelf, &mut config, 3, in_room) == Ok((3, false)));
        assert!(rt; second_good(&config));
        fail(&mut shelf, 1, true);
        let refused = Err(Stop::No(No::Device { disk: 1 }));
        assert!(rt; committed(alloc, &mut shelf, &mut config, 2, in_room) == refused);
        assert!(rt; config.serial == 4 && second_good(&config));
        assert!(rt; found(alloc, &mut shelf) == Err(Stop::No(No::NoConfig)));
        fail(&mut shelf, 0, false);
        assert!(rt; found(alloc, &mut shelf) == Err(Stop::No(No::Missing { disk: 1 })));
        fail(&mut shelf, 1, false);
        assert!(rt; found(alloc, &mut shelf) == Ok((3, 2, true)));
    }
}

#[test]
fn a_commit_is_refused(rt: HostRuntime) {
    let alloc = rt.alloc();
    let mut shelf = labelled(alloc).expect(&rt, "there is memory");
    let mut config = two_disks(alloc);
    // Both disks of the set fail, one after the other.
    fail(&mut shelf, 0, true);
    fail(&mut shelf, 1, true);
    let refused = Err(Stop::No(No::Device { disk: 1 }));
    assert!(rt; committed(alloc, &mut shelf, &mut config, 3, true) == refused);
    assert!(rt; config.serial == 2 && both_good(&config));
    // The other disk is no member of the set.
    fail(&mut shelf, 1, false);
    let refused = Err(Stop::No(No::Device { disk: 0 }));
    assert!(rt; committed(alloc, &mut shelf, &mut config, 1, true) == refused);
    assert!(rt; config.serial == 3 && both_good(&config));
    // No serial is left.
    config.serial = MOST_NUMBER;
    let refused = Err(Stop::No(No::Limit {
        what: Counted::Number,
        most: MOST_NUMBER,
    }));
    assert!(rt; committed(alloc, &mut shelf, &mut config, 3, true) == refused);
    config.serial = MOST_NUMBER - 1;
    let refused = Err(Stop::No(No::Device { disk: 0 }));
    assert!(rt; committed(alloc, &mut shelf, &mut config, 3, true) == refused);
    assert!(rt; config.serial == MOST_NUMBER && both_good(&config));
}

#[test]
fn a_commit_behind_a_refused_one_is_found(rt: HostRuntime) {
    let alloc = rt.alloc();
    let mut shelf = labelled(alloc).expect(&rt, "there is memory");
    let mut config = two_disks(alloc);
    assert!(rt; committed(alloc, &mut shelf, &mut config, 3, true) == Ok((1, true)));
    fail(&mut shelf, 0, true);
    fail(&mut shelf, 1, true);
    let refused = Err(Stop::No(No::Device { disk: 1 }));
    assert!(rt; committed(alloc, &mut shelf, &mut config, 3, true) == refused);
    assert!(rt; config.serial == 3 && both_good(&config));
    fail(&mut shelf, 0, false);
    fail(&mut shelf, 1, false);
    assert!(rt; found(alloc, &mut shelf) == Ok((1, 3, true)));
    assert!(rt; committed(alloc, &mut shelf, &mut config, 3, true) == Ok((4, true)));
    assert!(rt; found(alloc, &mut shelf) == Ok((4, 3, true)));
    // One disk alone has it too, and misses the other.
    fail(&mut shelf, 0, true);
    assert!(rt; found(alloc, &mut shelf) == Err(Stop::No(No::Missing { disk: 0 })));
    fail(&mut shelf, 0, false);
    fail(&mut shelf, 1, true);
    assert!(rt; found(alloc, &mut shelf) == Err(Stop::No(No::Missing { disk: 1 })));
}

pub fn revive<R: Rack>(rack: &mut R) {
    if rack.is_down() {
        rack.revive();
    }
}

#[test]
fn a_commit_is_cut(rt: HostRuntime) {
    let alloc = rt.alloc();
    for calls in 0..9u64 {
        let mut shelf = labelled(alloc).expect(&rt, "there is memory");
        let mut config = two_disks(alloc);
        assert!(rt; committed(alloc, &mut shelf, &mut config, 3, true) == Ok((1, true)));
        // Four writes and flushes on each disk; none of a write that was not flushed is kept.
        shelf.fuse(calls, 0);
        let cut = committed(alloc, &mut shelf, &mut config, 3, true);
        if calls < 8 {
            assert!(rt; cut == Err(Stop::No(No::Down)));
        } else {
            assert!(rt; cut == Ok((2, true)));
        }
        assert!(rt; config.serial == 2 && both_good(&config));
        revive(&mut shelf);
        let serial = if calls < 4 { 1 } else { 2 };
        assert!(rt; found(alloc, &mut shelf) == Ok((serial, 3, true)));
    }
}

#[test]
fn a_damaged_body_is_told(rt: HostRuntime) {
    let alloc = rt.alloc();
    let mut shelf = labelled(alloc).expect(&rt, "there is memory");
    assert!(rt; copy(&mut shelf, 1, 1, &BODY));
    let mut block = block_of(&BODY);
    block[36] = 1;
    assert!(rt; write(&mut shelf, 1, 2, &block));
    let wanted = No::Damaged {
        unit: 1,
        block: 2,
        stored: digest(&BODY),
        computed: digest(&front(&block)),
    };
    assert!(rt; found(alloc, &mut shelf) == Err(Stop::No(wanted)));
}

#[test]
fn a_label_of_another_version_is_told(rt: HostRuntime) {
    let alloc = rt.alloc();
    let mut shelf = labelled(alloc).expect(&rt, "there is memory");
    assert!(rt; copy(&mut shelf, 0, 1, &BODY));
    let mut block = [0; 512];
    block[..12].copy_from_slice(b"VXLABEL1\x00\x00\x00\x09");
    seal(&mut block);
    assert!(rt; write(&mut shelf, 1, 0, &block));
    assert!(rt; found(alloc, &mut shelf) == Err(Stop::No(No::Format { version: 9 })));
    fail(&mut shelf, 1, true);
    assert!(rt; found(alloc, &mut shelf) == Err(Stop::No(No::Missing { disk: 1 })));
}

// A volume of 128 blocks with one plex of two subdisks on the first disk, from blocks 512 and 576 on.
const VOLUME: [u8; 96] = [
    // version, serial, site
    0, 0, 0, 1, 0, 0, 0, 0, 0, 0, 0, 1, 0, 0, 0, 7, // two disks
    2, 0, 0, 0, 0, 0, 0, 4, 0, 0, 0, 0, 0, 0, 0, 0, 4, 0, 0, // one volume: name, blocks, ncol, width
    1, 1, b'v', 0, 0, 0, 0, 0, 0, 0, 128, 1, 0, 0, 0, 0,
    // no drl, no fmr, round, no preferred plex, no logs
    0, 0, 0, 0, 0, 0, // one plex: active, not whole, two subdisks
    1, 0, 0, 2, 0, 0, 0, 0, 0, 0, 0, 2, 0, 0, 0, 0, 0, 0, 0, 0, 64, // the second one
    0, 0, 0, 0, 0, 0, 0, 2, 64, 0, 0, 0, 0, 0, 0, 0, 64, // no replicated volume group
    0,
];

// The place of the last byte of the second subdisk's start.
pub const START: usize = 86;

// Writes a copy of a body with a volume to the first disk.
fn copy_volume<S: Shelf>(shelf: &mut S, serial: u64, bytes: &[u8; 96]) -> bool {
    if shelf.units() == 0 || shelf.size(0) < 257 || serial > 100 {
        return false;
    }
    let mut block = [0; 512];
    put_bytes(&mut block, 0, bytes);
    let front: [u8; 96] = get_bytes(&block, 0);
    let header = AreaHeader {
        serial,
        length: 96,
        digest: digest(&front),
    };
    put_copy(shelf, 0, &header, &block).is_ok()
}
