// Groups over disks in memory that crash and are imported again.
use crate::rows::{Call, Case, Trouble};
use crate::volumes::{Told, flush, get, make, plain, put};
use crate::{crash_and_import, crash_and_import_again, cut_and_import};
use std::alloc::Global;
use std::test::*;
use vx_disk::{MemShelf, Rack, Shelf};
use vx_group::Group;
use vx_model::OutOfMemory;
use vx_model::limits::MOST_DISKS;

pub const CASES: &[Case] = &[
    // A volume of two plexes is made with call 38. A detach is refused, as both disks fail in its first calls on them; it is so once more, behind
    // ten calls that write headers back; and then it is done.
    (
        "imports agree again",
        2,
        Trouble::Fails(&[&[39, 40, 51, 52]]),
        &[&[
            (Call::Make(b"v", 16, 2), Told::Volume(0)),
            (Call::Det(0, 1), Told::Device(1)),
            (Call::Agreed, Told::Agreed(true)),
            (Call::Det(0, 1), Told::Device(1)),
            (Call::Agreed, Told::Agreed(false)),
            (Call::Det(0, 1), Told::Done),
            (Call::Agreed, Told::Agreed(true)),
        ]],
        &[],
    ),
];

// A group of two disks of 1,024 blocks, of which these calls fail.
fn group_of(alloc: Global, fails: &[u64]) -> Result<Group<MemShelf>, OutOfMemory> {
    let mut shelf = match MemShelf::new(alloc, fails) {
        Ok(shelf) => shelf,
        Err(_) => return Err(OutOfMemory),
    };
    if shelf.fit(alloc, None, 7, 2, 1024).is_err() {
        return Err(OutOfMemory);
    }
    if shelf.units() == 0 || shelf.units() > MOST_DISKS {
        return Err(OutOfMemory);
    }
    match Group::create(alloc, shelf, 7) {
        Ok(group) => Ok(group),
        Err(_) => Err(OutOfMemory),
    }
}

#[test]
fn a_group_crashes_again_and_again(rt: HostRuntime) -> Result<(), Fail> {
    let alloc = rt.alloc();
    let mut group = group_of(alloc, &[])?;
    assert!(rt; make(alloc, &mut group, b"v", &plain(16, 2)) == Told::Volume(0));
    for turn in 0..3 {
        let first = put(&mut group, 0, turn, 0x11);
        let kept = flush(&mut group, 0);
        let lost = put(&mut group, 0, turn, 0x22);
        assert!(rt; [first, kept, lost] == [Told::Done; 3], "{turn}");
        group = match crash_and_import(alloc, group, 0) {
            Some(group) => group,
            None => {
                assert!(rt; false);
                return Ok(());
            }
        };
        let blocks = [get(&mut group, 0, turn), get(&mut group, 0, turn)];
        assert!(rt; blocks == [Told::Block(0x11); 2], "{turn}");
    }
    Ok(())
}

// A group whose volume of two plexes has a block written and flushed. These calls of the disks fail.
fn written(alloc: Global, fails: &[u64]) -> Result<Group<MemShelf>, OutOfMemory> {
    let mut group = group_of(alloc, fails)?;
    if make(alloc, &mut group, b"v", &plain(16, 2)) != Told::Volume(0)
        || put(&mut group, 0, 3, 0x11) != Told::Done
        || flush(&mut group, 0) != Told::Done
    {
        return Err(OutOfMemory);
    }
    Ok(group)
}

// The block of the group, where it was imported.
fn block_of(back: Option<Group<MemShelf>>) -> Told {
    match back {
        Some(group) => {
            let mut group = group;
            get(&mut group, 0, 3)
        }
        None => Told::Other,
    }
}

#[test]
fn a_refused_import_is_tried_again(rt: HostRuntime) -> Result<(), Fail> {
    let alloc = rt.alloc();
    // A volume of two plexes is made with call 38, and a block of it written and flushed with call 42.
    for second in [44, 0] {
        let group = written(alloc, &[43, second])?;
        assert!(rt;
            block_of(crash_and_import(alloc, group, 0)) == Told::Other,
            "{second}"
        );
        let group = written(alloc, &[43, second])?;
        let block = block_of(crash_and_import_again(alloc, group, 0));
        assert!(rt; block == Told::Block(0x11), "{second}");
    }
    Ok(())
}

#[test]
fn an_import_that_is_cut_is_done_by_the_next(rt: HostRuntime) -> Result<(), Fail> {
    let alloc = rt.alloc();
    for calls in 0..36 {
        for pick in [0, u64::MAX] {
            let group = written(alloc, &[])?;
            let back = cut_and_import(alloc, group, calls, pick);
            assert!(rt; block_of(back) == Told::Block(0x11), "{calls}, {pick}");
        }
    }
    Ok(())
}
