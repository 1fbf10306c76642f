// What no clause says: headers that are settled or cleared, over a shelf in memory.
use crate::copies::{committed, fail, found, labelled, revive, two_disks};
use std::test::*;
use vx_copies::{commit, label};
use vx_copyio::{are_large, clear, settle};
use vx_disk::{MemShelf, Rack, Shelf};
use vx_model::{No, Stop};

fn settled<S: Shelf>(shelf: &mut S, disk: u32) -> bool {
    disk < shelf.units() && shelf.size(disk) >= 257 && settle(shelf, disk).is_ok()
}

fn cleared<S: Shelf>(shelf: &mut S) -> bool {
    are_large(shelf) && clear(shelf).is_ok()
}

#[test]
fn a_header_of_two_values_is_settled(rt: HostRuntime) {
    let alloc = rt.alloc();
    for back in [false, true] {
        // Four calls for the labels and twelve for each commit; then the flush of the header of the third one fails on the second disk.
        let mut shelf = MemShelf::new(alloc, &[34]).expect(&rt, "there is memory");
        assert!(rt; shelf.fit(alloc, None, 7, 2, 1024).is_ok());
        assert!(rt; label(&mut shelf, 7).is_ok());
        let mut config = two_disks(alloc);
        assert!(rt; committed(alloc, &mut shelf, &mut config, 2, true) == Ok((1, true)));
        assert!(rt; committed(alloc, &mut shelf, &mut config, 2, true) == Ok((2, true)));
        // The second disk is written first, and no other one is a member of the set.
        let refused = Err(Stop::No(No::Device { disk: 1 }));
        assert!(rt; committed(alloc, &mut shelf, &mut config, 2, true) == refused);
        assert!(rt; config.serial == 3);
        if back {
            assert!(rt; settled(&mut shelf, 0) && settled(&mut shelf, 1));
        }
        // The next commit is cut in its first body. Of what is not flushed the header stays as it was, and a block of the body is kept.
        shelf.fuse(1, if back { 1 } else { 2 });
        assert!(rt; committed(alloc, &mut shelf, &mut config, 2, true) == Err(Stop::No(No::Down)));
        revive(&mut shelf);
        fail(&mut shelf, 0, true);
        match found(alloc, &mut shelf) {
            Err(Stop::No(No::Missing { disk })) => assert!(rt; back && disk == 0),
            Err(Stop::No(No::Damaged { unit, .. })) => assert!(rt; !back && unit == 1),
            _ => assert!(rt; false),
        }
        fail(&mut shelf, 0, false);
        assert!(rt; found(alloc, &mut shelf) == Ok((if back { 3 } else { 2 }, 3, true)));
    }
}

#[test]
fn a_cleared_disk_has_no_copy(rt: HostRuntime) {
    let alloc = rt.alloc();
    let mut shelf = labelled(alloc).expect(&rt, "there is memory");
    let mut config = two_disks(alloc);
    assert!(rt; committed(alloc, &mut shelf, &mut config, 3, true) == Ok((1, true)));
    assert!(rt; committed(alloc, &mut shelf, &mut config, 3, true) == Ok((2, true)));
    assert!(rt; cleared(&mut shelf));
    assert!(rt; found(alloc, &mut shelf) == Err(Stop::No(No::NoConfig)));
    // A crash keeps nothing of before, and a group of serial 1 is the newest.
    shelf.crash(0);
    revive(&mut shelf);
    let mut other = two_disks(alloc);
    assert!(rt; committed(alloc, &mut shelf, &mut other, 3, true) == Ok((1, true)));
    assert!(rt; found(alloc, &mut shelf) == Ok((1, 3, true)));
}
