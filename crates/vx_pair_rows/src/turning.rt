// Worked runs of two sites whose link goes by a map, or is detached.
use crate::world::{PUMP, Row, filling, first_wrong, put, read, recover, two_sites};
use std::test::Fail;
use vx_history::Event;
use vx_model::{Blocks, Prot, SyncMode};
use vx_world::World;

// How the link of a is set.
fn set(prot: Prot) -> Row {
    let event = Event::Set {
        site: 0,
        to: 1,
        sync: SyncMode::Off,
        prot,
    };
    (event, "done", 0, None)
}

const DETACH: Event = Event::Detach { site: 0, to: 1 };

const ATTACH: Event = Event::Attach { site: 0, to: 1 };

#[test]
fn a_full_log_turns_a_link_to_a_map(rt: HostRuntime) -> Result<(), Fail> {
    let mut world = World::new(rt.alloc())?;
    assert!(rt; first_wrong(&mut world, &two_sites(10, SyncMode::Off))? == None);
    assert!(rt; first_wrong(&mut world, &[set(Prot::Autodcm)])? == None);
    assert!(rt; first_wrong(&mut world, &filling())? == None);
    let rows = [
        (put(4, Blocks::filled(1, 4)), "done", 4, None),
        (PUMP, "done", 0, None),
        (put(5, Blocks::filled(2, 5)), "done", 5, None),
        (Event::Crash { site: 0, kept: 5 }, "done", 0, None),
        (recover(0), "recovered", 5, None),
        (read(0, 6), "got", 5, None),
    ];
    assert!(rt; first_wrong(&mut world, &rows)? == None);
    Ok(())
}

#[test]
fn a_link_that_is_detached_holds_no_log(rt: HostRuntime) -> Result<(), Fail> {
    let mut world = World::new(rt.alloc())?;
    assert!(rt; first_wrong(&mut world, &two_sites(10, SyncMode::Off))? == None);
    assert!(rt; first_wrong(&mut world, &filling())? == None);
    let rows = [
        (put(4, Blocks::filled(1, 4)), "stalled", 1, None),
        (DETACH, "done", 0, None),
        (put(4, Blocks::filled(1, 4)), "done", 4, None),
        (ATTACH, "done", 0, None),
        (PUMP, "done", 0, None),
        (put(5, Blocks::filled(1, 5)), "done", 5, None),
    ];
    assert!(rt; first_wrong(&mut world, &rows)? == None);
    Ok(())
}
