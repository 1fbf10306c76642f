// What no clause says: a group that is made over a shelf in memory, with each of its device calls failing in turn.
use crate::imports::disks_of;
use std::alloc::Global;
use std::test::*;
use vx_copies::import;
use vx_copyio::are_large;
use vx_disk::{MemShelf, Shelf};
use vx_group::Group;
use vx_model::limits::MOST_DISKS;
use vx_model::{No, Stop};

#[derive(Clone, Copy, PartialEq, Eq)]
enum Told {
    /// The serial, and the set of the disks that are held as good.
    Made(u64, u8),
    Device(u32),
    Small,
    Other,
}

// What an import over the shelf of a new group finds.
fn found<S: Shelf>(alloc: Global, shelf: &mut S) -> Told {
    if shelf.is_down() || !are_large(shelf) {
        return Told::Other;
    }
    match import(alloc, shelf) {
        Ok((config, good)) => Told::Made(config.serial, good),
        Err(_) => Told::Other,
    }
}

// Makes a group, and tells what an import finds behind it.
fn made(alloc: Global, shelf: MemShelf) -> Told {
    if shelf.units() == 0 || shelf.units() > MOST_DISKS {
        return Told::Other;
    }
    match Group::create(alloc, shelf, 7) {
        Ok(group) => {
            let (mut shelf, _core) = group.apart();
            found(alloc, &mut shelf)
        }
        Err((_, Stop::No(No::Device { disk }))) => Told::Device(disk),
        Err((_, Stop::No(No::Size))) => Told::Small,
        Err(_) => Told::Other,
    }
}

#[test]
fn each_call_of_a_new_group_fails(rt: HostRuntime) -> Result<(), Fail> {
    let alloc = rt.alloc();
    // Three calls clear the headers of a disk, two write its label, and six commit to it, of which two are reads. Where no call fails, disks of
    // 1,023 blocks are refused.
    for (call, blocks, wanted) in [
        (0, 1024, Told::Made(1, 3)),
        (1, 1024, Told::Device(0)),
        (3, 1024, Told::Device(0)),
        (4, 1024, Told::Device(1)),
        (6, 1024, Told::Device(1)),
        (7, 1024, Told::Device(0)),
        (8, 1024, Told::Device(0)),
        (9, 1024, Told::Device(1)),
        (10, 1024, Told::Device(1)),
        (11, 1024, Told::Made(2, 2)),
        (16, 1024, Told::Made(2, 2)),
        (17, 1024, Told::Made(2, 1)),
        (22, 1024, Told::Made(2, 1)),
        (23, 1024, Told::Other),
        (0, 1023, Told::Small),
    ] {
        let disks = disks_of(alloc, &[call], 2, blocks)?;
        assert!(rt;
            made(alloc, disks.shelf) == wanted,
            "call {call}, {blocks} blocks"
        );
    }
    Ok(())
}
