// What no clause says: worked lives of a few blocks, and that each call succeeds.
use std::test::Fail;
use vx_overlay::Overlay;

// The first and the last byte that a block has, 99 where it has none.
fn ends(overlay: &Overlay, vol: u32, block: u64) -> (bool, u8, u8) {
    let mut into = [99; 512];
    let there = overlay.get(vol, block, &mut into);
    (there, into[0], into[511])
}

#[test]
fn the_newest_is_read_until_it_is_dropped(rt: HostRuntime) -> Result<(), Fail> {
    let mut overlay = Overlay::new(rt.alloc(), 3)?;
    overlay.insert(1, 5, &[7; 512]);
    overlay.insert(1, 5, &[8; 512]);
    assert!(rt; ends(&overlay, 1, 5) == (true, 8, 8));
    assert!(rt; ends(&overlay, 5, 1) == (false, 99, 99));
    overlay.drop_oldest(1);
    assert!(rt; ends(&overlay, 1, 5) == (true, 8, 8));
    overlay.drop_oldest(1);
    assert!(rt; ends(&overlay, 1, 5) == (false, 99, 99));
    Ok(())
}

#[test]
fn room_comes_back(rt: HostRuntime) -> Result<(), Fail> {
    let mut overlay = Overlay::new(rt.alloc(), 2)?;
    overlay.insert(0, 4, &[1; 512]);
    overlay.insert(2, 4, &[2; 512]);
    assert!(rt; overlay.spare() == 0);
    overlay.drop_oldest(1);
    assert!(rt; overlay.spare() == 1);
    overlay.insert(0, 9, &[3; 512]);
    assert!(rt; ends(&overlay, 0, 4) == (false, 99, 99));
    assert!(rt; ends(&overlay, 2, 4) == (true, 2, 2));
    assert!(rt; ends(&overlay, 0, 9) == (true, 3, 3));
    overlay.drop_oldest(2);
    assert!(rt; overlay.spare() == 2);
    Ok(())
}

// Blocks 1, 4 and 7 of one volume have the same of three buckets.
#[test]
fn blocks_of_one_bucket_are_told_apart(rt: HostRuntime) -> Result<(), Fail> {
    let mut overlay = Overlay::new(rt.alloc(), 3)?;
    overlay.insert(0, 1, &[1; 512]);
    overlay.insert(0, 4, &[2; 512]);
    overlay.insert(0, 1, &[3; 512]);
    assert!(rt; ends(&overlay, 0, 1) == (true, 3, 3));
    assert!(rt; ends(&overlay, 0, 4) == (true, 2, 2));
    assert!(rt; ends(&overlay, 0, 7) == (false, 99, 99));
    overlay.drop_oldest(2);
    overlay.insert(0, 7, &[4; 512]);
    assert!(rt; ends(&overlay, 0, 1) == (true, 3, 3));
    assert!(rt; ends(&overlay, 0, 4) == (false, 99, 99));
    assert!(rt; ends(&overlay, 0, 7) == (true, 4, 4));
    Ok(())
}
