// Worked runs of two sites, event by event: what is said, and which packets are sent.
use std::test::Fail;
use vx_history::{DataVolume, DataVolumes, Event, LinkPart, Said};
use vx_model::{Blocks, Counted, Name, Named, No, OutOfMemory, Prot, SiteName, SyncMode};
use vx_world::{World, step};

// An event, what is said of it with its number, and the packets that it sends.
pub(crate) type Row = (Event, &'static str, u64, Option<(u64, u64)>);

// What is said, and the number in it: of a site, a packet or a write, or the first byte of blocks.
fn say(said: &Said) -> (&'static str, u64) {
    match said {
        Said::Done => ("done", 0),
        Said::DoneAt(number) => ("done", *number),
        Said::Logged(number) => ("logged", *number),
        Said::Pending(number) => ("pending", *number),
        Said::Got(blocks) => ("got", first_byte(blocks)),
        Said::Taken => ("taken", 0),
        Said::Ignored => ("ignored", 0),
        Said::Recovered(number) => ("recovered", *number),
        Said::Refused(no) => refusal(no),
    }
}

fn first_byte(blocks: &Blocks) -> u64 {
    match blocks.as_bytes() {
        [first, ..] => u64::from(*first),
        [] => 256,
    }
}

fn refusal(no: &No) -> (&'static str, u64) {
    match no {
        No::Unknown {
            what: Named::Number(number),
        } => ("unknown", *number),
        No::LinkDown {
            link: SiteName::Number(site),
        } => ("linkdown", u64::from(*site)),
        No::LogFull {
            link: SiteName::Number(site),
        } => ("logfull", u64::from(*site)),
        No::Stalled {
            link: SiteName::Number(site),
        } => ("stalled", u64::from(*site)),
        No::Unconfirmed { number } => ("unconfirmed", *number),
        No::Limit {
            what: Counted::Links,
            most,
        } => ("limit links", *most),
        No::Role => ("role", 0),
        _ => ("no", 0),
    }
}

// Whether the event of the row is answered as it says.
fn is_answered(world: &mut World, row: &Row) -> Result<bool, OutOfMemory> {
    let (event, text, number, sent) = row;
    match step(world, event) {
        Ok(answer) => Ok(say(&answer.said) == (*text, *number) && answer.sent == *sent),
        Err(_) => Err(OutOfMemory),
    }
}

// The place of the first row that is answered otherwise.
pub(crate) fn first_wrong(world: &mut World, rows: &[Row]) -> Result<Option<usize>, OutOfMemory> {
    for at in 0..rows.len() {
        if !is_answered(world, &rows[at])? {
            return Ok(Some(at));
        }
    }
    Ok(None)
}

fn site(name: &'static [u8; 1], blocks: u64) -> Row {
    let event = Event::Site {
        name: Name::new(name),
        disks: 3,
        blocks,
    };
    (event, "done", 0, None)
}

fn raw(site: u32) -> Row {
    (Event::Raw { site }, "done", 0, None)
}

fn link(to: u32, sync: SyncMode, part: LinkPart) -> Row {
    let event = Event::Link {
        site: 0,
        to,
        sync,
        prot: Prot::Fail,
        part,
    };
    (event, "done", 0, None)
}

// Sites a and b, with a link from a to b that is connected.
pub(crate) fn two_sites(blocks: u64, sync: SyncMode) -> [Row; 9] {
    [
        site(b"a", blocks),
        raw(0),
        site(b"b", blocks),
        raw(1),
        link(1, sync, LinkPart::Joins),
        link(1, sync, LinkPart::Made),
        link(1, sync, LinkPart::Marked),
        link(1, sync, LinkPart::Opened),
        (Event::Connect { site: 0, to: 1 }, "done", 0, Some((1, 1))),
    ]
}

pub(crate) fn put(start: u64, bytes: Blocks) -> Event {
    Event::Write {
        site: 0,
        vol: 0,
        start,
        bytes,
        fails: None,
    }
}

pub(crate) fn read(site: u32, start: u64) -> Event {
    Event::Read {
        site,
        vol: 0,
        start,
        count: 1,
    }
}

fn wait(number: u64) -> Event {
    Event::Wait { site: 0, number }
}

pub(crate) fn recover(site: u32) -> Event {
    Event::Recover { site, fails: None }
}

fn deliver(packet: u64) -> Event {
    Event::Deliver { packet }
}

const APPLY: Event = Event::Apply {
    site: 1,
    count: 3,
    reached: 0,
};

pub(crate) const PUMP: Event = Event::Pump { site: 0, to: 1 };

const TICK: Event = Event::Tick { site: 0, to: 1 };

const CUT: Event = Event::Cut { site: 0, to: 1 };

const CONNECT: Event = Event::Connect { site: 0, to: 1 };

#[test]
fn a_write_fails_where_its_link_is_cut(rt: HostRuntime) -> Result<(), Fail> {
    let mut world = World::new(rt.alloc())?;
    assert!(rt; first_wrong(&mut world, &two_sites(64, SyncMode::Fail))? == None);
    let rows = [
        (put(0, Blocks::filled(1, 0x11)), "logged", 1, None),
        (wait(1), "pending", 1, None),
        (PUMP, "done", 0, Some((2, 2))),
        (deliver(2), "taken", 0, Some((3, 3))),
        (deliver(3), "taken", 0, None),
        (wait(1), "done", 1, None),
        (put(1, Blocks::filled(1, 0x22)), "logged", 2, None),
        (CUT, "done", 0, None),
        (wait(2), "unconfirmed", 2, None),
        (put(2, Blocks::filled(1, 0x33)), "linkdown", 1, None),
        (wait(3), "unknown", 3, None),
    ];
    assert!(rt; first_wrong(&mut world, &rows)? == None);
    Ok(())
}

#[test]
fn a_receiver_that_crashes_forgets_what_it_acknowledged_from_memory(
    rt: HostRuntime,
) -> Result<(), Fail> {
    let mut world = World::new(rt.alloc())?;
    assert!(rt; first_wrong(&mut world, &two_sites(64, SyncMode::Fail))? == None);
    let rows = [
        (put(0, Blocks::filled(1, 0x11)), "logged", 1, None),
        (wait(1), "pending", 1, None),
        (PUMP, "done", 0, Some((2, 2))),
        (deliver(2), "taken", 0, Some((3, 3))),
        (Event::Crash { site: 1, kept: 0 }, "done", 0, None),
        (
            Event::Recover {
                site: 1,
                fails: None,
            },
            "recovered",
            0,
            Some((4, 4)),
        ),
        (deliver(4), "taken", 0, None),
        (deliver(3), "ignored", 0, None),
        (wait(1), "pending", 1, None),
    ];
    assert!(rt; first_wrong(&mut world, &rows)? == None);
    Ok(())
}

// Writes of one, one and two blocks fill the log of ten.
pub(crate) fn filling() -> [Row; 3] {
    [
        (put(0, Blocks::filled(1, 1)), "done", 1, None),
        (put(1, Blocks::filled(1, 2)), "done", 2, None),
        (put(2, Blocks::filled(2, 3)), "done", 3, None),
    ]
}

#[test]
fn a_full_log_stalls_writes_until_the_link_is_settled(rt: HostRuntime) -> Result<(), Fail> {
    let mut world = World::new(rt.alloc())?;
    assert!(rt; first_wrong(&mut world, &two_sites(10, SyncMode::Off))? == None);
    assert!(rt; first_wrong(&mut world, &filling())? == None);
    let rows = [
        (put(4, Blocks::filled(1, 4)), "stalled", 1, None),
        (CONNECT, "done", 0, Some((2, 2))),
        (deliver(2), "taken", 0, None),
        (TICK, "done", 0, None),
        (PUMP, "done", 0, Some((3, 6))),
        (deliver(3), "taken", 0, Some((7, 7))),
        (deliver(4), "taken", 0, Some((8, 8))),
        (deliver(5), "taken", 0, None),
        (deliver(6), "taken", 0, Some((9, 9))),
        (deliver(7), "taken", 0, None),
        (deliver(8), "taken", 0, None),
        (deliver(9), "taken", 0, None),
        (APPLY, "done", 3, Some((10, 10))),
        (deliver(10), "taken", 0, None),
        (put(4, Blocks::filled(1, 4)), "done", 4, None),
        (Event::Crash { site: 0, kept: 0 }, "done", 0, None),
        (recover(0), "recovered", 4, None),
        (read(0, 4), "got", 4, None),
    ];
    assert!(rt; first_wrong(&mut world, &rows)? == None);
    Ok(())
}

#[test]
fn a_full_log_fails_writes_where_the_link_is_cut(rt: HostRuntime) -> Result<(), Fail> {
    let mut world = World::new(rt.alloc())?;
    assert!(rt; first_wrong(&mut world, &two_sites(10, SyncMode::Off))? == None);
    assert!(rt; first_wrong(&mut world, &filling())? == None);
    let rows = [
        (CUT, "done", 0, None),
        (put(4, Blocks::filled(1, 4)), "logfull", 1, None),
    ];
    assert!(rt; first_wrong(&mut world, &rows)? == None);
    Ok(())
}

#[test]
fn updates_are_taken_in_order_and_once(rt: HostRuntime) -> Result<(), Fail> {
    let mut world = World::new(rt.alloc())?;
    assert!(rt; first_wrong(&mut world, &two_sites(64, SyncMode::Off))? == None);
    let rows = [
        (put(0, Blocks::filled(1, 0x11)), "done", 1, None),
        (put(1, Blocks::filled(1, 0x22)), "done", 2, None),
        (PUMP, "done", 0, Some((2, 3))),
        (deliver(3), "ignored", 0, None),
        (deliver(2), "taken", 0, Some((4, 4))),
        (deliver(2), "ignored", 0, Some((5, 5))),
        (deliver(3), "taken", 0, Some((6, 6))),
        (read(1, 0), "role", 0, None),
        (deliver(9), "unknown", 9, None),
    ];
    assert!(rt; first_wrong(&mut world, &rows)? == None);
    Ok(())
}

#[test]
fn a_site_has_four_links_at_most(rt: HostRuntime) -> Result<(), Fail> {
    let mut world = World::new(rt.alloc())?;
    let names = [b"a", b"b", b"c", b"d", b"e", b"f"];
    for (at, name) in names.iter().enumerate() {
        let rows = [site(name, 64), raw(at as u32)];
        assert!(rt; first_wrong(&mut world, &rows)? == None);
    }
    for to in 1..5 {
        let rows = [
            link(to, SyncMode::Off, LinkPart::Joins),
            link(to, SyncMode::Off, LinkPart::Made),
            link(to, SyncMode::Off, LinkPart::Marked),
            link(to, SyncMode::Off, LinkPart::Opened),
        ];
        assert!(rt; first_wrong(&mut world, &rows)? == None);
    }
    let (event, ..) = link(5, SyncMode::Off, LinkPart::Joins);
    let refused = [(event, "limit links", 4, None)];
    assert!(rt; first_wrong(&mut world, &refused)? == None);
    Ok(())
}

#[test]
fn deported_sites_come_back(rt: HostRuntime) -> Result<(), Fail> {
    let mut world = World::new(rt.alloc())?;
    assert!(rt; first_wrong(&mut world, &two_sites(64, SyncMode::Off))? == None);
    let rows = [
        (put(0, Blocks::filled(1, 0x11)), "done", 1, None),
        (Event::Deport { site: 0 }, "done", 0, None),
        (Event::Deport { site: 0 }, "no", 0, None),
        (Event::Group { site: 0 }, "role", 0, None),
        (Event::Fall { site: 1 }, "role", 0, None),
        (Event::Fall { site: 0 }, "done", 0, None),
        (Event::Fall { site: 0 }, "role", 0, None),
        (put(1, Blocks::filled(1, 0x22)), "no", 0, None),
        (recover(0), "recovered", 1, None),
        (read(0, 0), "got", 0x11, None),
        (Event::Group { site: 0 }, "role", 0, None),
        site(b"c", 64),
        (Event::Group { site: 2 }, "done", 0, None),
        (read(2, 0), "unknown", 0, None),
        (Event::Deport { site: 2 }, "done", 0, None),
        (Event::Group { site: 2 }, "done", 0, None),
        (Event::Crash { site: 2, kept: 0 }, "done", 0, None),
        (Event::Group { site: 2 }, "done", 0, None),
        (Event::Group { site: 2 }, "role", 0, None),
        (Event::Deport { site: 2 }, "done", 0, None),
        (recover(2), "recovered", 0, None),
    ];
    assert!(rt; first_wrong(&mut world, &rows)? == None);
    Ok(())
}

// A group of disks gets a replicated volume group, with one data volume of 64 blocks.
fn volumes(site: u32) -> Event {
    let volume = DataVolume {
        place: 2,
        name: Name::new(b"v"),
        blocks: 64,
    };
    Event::Volumes {
        site,
        log: 64,
        volumes: DataVolumes::new(&[volume]),
    }
}

#[test]
fn groups_get_volumes(rt: HostRuntime) -> Result<(), Fail> {
    let mut world = World::new(rt.alloc())?;
    let rows = [
        site(b"a", 64),
        site(b"b", 64),
        (volumes(0), "no", 0, None),
        (Event::Group { site: 0 }, "done", 0, None),
        (Event::Group { site: 1 }, "done", 0, None),
        (link(1, SyncMode::Off, LinkPart::Joins).0, "no", 0, None),
        (volumes(0), "done", 0, None),
        (volumes(0), "role", 0, None),
        (link(1, SyncMode::Off, LinkPart::Joins).0, "no", 0, None),
        (volumes(1), "done", 0, None),
        (read(0, 0), "got", 0, None),
        (link(1, SyncMode::Off, LinkPart::Joins).0, "done", 0, None),
        (volumes(1), "role", 0, None),
        (put(0, Blocks::filled(1, 0x11)), "done", 1, None),
        (Event::Crash { site: 0, kept: 0 }, "done", 0, None),
        (volumes(0), "no", 0, None),
        (Event::Group { site: 0 }, "role", 0, None),
        (recover(0), "recovered", 1, None),
        (read(0, 0), "got", 0x11, None),
    ];
    assert_eq!(rt; first_wrong(&mut world, &rows)?, None);
    Ok(())
}
