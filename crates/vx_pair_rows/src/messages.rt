// Each kind of message has its worked bytes and comes through an assembly.
use crate::packets::{ENVELOPE, begins, comes_through, whole};
use std::test::*;
use vx_model::Blocks;
use vx_packet::{BlockBytes, MapBytes, Message, RegionBytes};

#[test]
fn session_messages(rt: HostRuntime) -> Result<(), Fail> {
    whole(
        &rt,
        rt.alloc(),
        &Message::Hello {
            session: 3,
            number: 4,
            stored: 5,
        },
        1,
        &[
            0, 0, 0, 0, 0, 0, 0, 3, 0, 0, 0, 0, 0, 0, 0, 4, 0, 0, 0, 1, 0, 8, 0, 0, 0, 0, 0, 0, 0,
            5,
        ],
    )?;
    whole(
        &rt,
        rt.alloc(),
        &Message::NetAck {
            session: 3,
            number: 4,
        },
        3,
        &[
            0, 0, 0, 0, 0, 0, 0, 3, 0, 0, 0, 0, 0, 0, 0, 4, 0, 0, 0, 1, 0, 0,
        ],
    )?;
    whole(
        &rt,
        rt.alloc(),
        &Message::DataAck { number: 4 },
        4,
        &[
            0, 0, 0, 0, 0, 0, 0, 0, 0, 0, 0, 0, 0, 0, 0, 4, 0, 0, 0, 1, 0, 0,
        ],
    )?;
    Ok(())
}

#[test]
fn replay_messages(rt: HostRuntime) -> Result<(), Fail> {
    whole(
        &rt,
        rt.alloc(),
        &Message::ReplayStart { id: 6, start: 7 },
        5,
        &[
            0, 0, 0, 0, 0, 0, 0, 0, 0, 0, 0, 0, 0, 0, 0, 6, 0, 0, 0, 1, 0, 8, 0, 0, 0, 0, 0, 0, 0,
            7,
        ],
    )?;
    whole(
        &rt,
        rt.alloc(),
        &Message::RegionsDone {
            id: 6,
            start: 7,
            end: 8,
        },
        7,
        &[
            0, 0, 0, 0, 0, 0, 0, 0, 0, 0, 0, 0, 0, 0, 0, 6, 0, 0, 0, 1, 0, 16, 0, 0, 0, 0, 0, 0, 0,
            7, 0, 0, 0, 0, 0, 0, 0, 8,
        ],
    )?;
    Ok(())
}

#[test]
fn region_acknowledgements(rt: HostRuntime) -> Result<(), Fail> {
    whole(
        &rt,
        rt.alloc(),
        &Message::RegionAck {
            id: 6,
            vol: 2,
            region: 9,
            kind: 1,
        },
        8,
        &[
            0, 0, 0, 2, 0, 0, 0, 9, 0, 0, 0, 0, 0, 0, 0, 6, 0, 0, 0, 1, 0, 1, 1,
        ],
    )?;
    whole(
        &rt,
        rt.alloc(),
        &Message::RegionAck {
            id: 6,
            vol: 0,
            region: 0,
            kind: 2,
        },
        8,
        &[
            0, 0, 0, 0, 0, 0, 0, 0, 0, 0, 0, 0, 0, 0, 0, 6, 0, 0, 0, 1, 0, 1, 2,
        ],
    )?;
    Ok(())
}

#[test]
fn line_messages(rt: HostRuntime) -> Result<(), Fail> {
    whole(
        &rt,
        rt.alloc(),
        &Message::Fork {
            fork: 6,
            parent: ENVELOPE.line,
        },
        9,
        &[
            0, 0, 0, 0, 0, 0, 0, 0, 0, 0, 0, 0, 0, 0, 0, 6, 0, 0, 0, 1, 0, 12, 0, 0, 0, 0, 0, 0, 0,
            1, 0, 0, 0, 0,
        ],
    )?;
    whole(
        &rt,
        rt.alloc(),
        &Message::Handover { head: 4 },
        11,
        &[
            0, 0, 0, 0, 0, 0, 0, 0, 0, 0, 0, 0, 0, 0, 0, 4, 0, 0, 0, 1, 0, 0,
        ],
    )?;
    whole(
        &rt,
        rt.alloc(),
        &Message::Trim { number: 4 },
        12,
        &[
            0, 0, 0, 0, 0, 0, 0, 0, 0, 0, 0, 0, 0, 0, 0, 4, 0, 0, 0, 1, 0, 0,
        ],
    )?;
    Ok(())
}

#[test]
fn an_update_of_16_blocks(rt: HostRuntime) -> Result<(), Fail> {
    let blocks = Blocks::filled(16, 0xab);
    let update = Message::Update {
        number: 7,
        vol: 2,
        block: 9,
        bytes: BlockBytes::of(&blocks),
    };
    begins(
        &rt,
        &update,
        2,
        &[
            0, 0, 0, 0, 0, 0, 0, 0, 0, 0, 0, 0, 0, 0, 0, 7, 0, 0, 0, 9, 4, 0, 0, 0, 0, 2, 0, 0, 0,
            0, 0, 0, 0, 9, 0, 0, 0, 16, 171,
        ],
    );
    comes_through(&rt, rt.alloc(), &update, 9)
}

#[test]
fn a_region_of_64_blocks(rt: HostRuntime) -> Result<(), Fail> {
    let bytes = [0xcd; 32768];
    let region = Message::Region {
        id: 6,
        vol: 1,
        region: 2,
        bytes: RegionBytes::new(&bytes),
    };
    begins(
        &rt,
        &region,
        6,
        &[
            0, 0, 0, 1, 0, 0, 0, 2, 0, 0, 0, 0, 0, 0, 0, 6, 0, 0, 0, 32, 4, 0, 205,
        ],
    );
    comes_through(&rt, rt.alloc(), &region, 32)
}

#[test]
fn the_map_of_the_largest_volume(rt: HostRuntime) -> Result<(), Fail> {
    let bytes = [0xef; 65536];
    let map = Message::ForkMap {
        vol: 3,
        regions: 524_288,
        bytes: MapBytes::new(&bytes),
    };
    begins(
        &rt,
        &map,
        10,
        &[
            0, 0, 0, 0, 0, 0, 0, 0, 0, 0, 0, 0, 0, 0, 0, 3, 0, 0, 0, 65, 4, 0, 0, 0, 0, 0, 0, 8, 0,
            0, 239,
        ],
    );
    comes_through(&rt, rt.alloc(), &map, 65)
}
