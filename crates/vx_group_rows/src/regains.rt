// A disk that fails, is held as failed, works again, and comes back with the plex on it.
use crate::imports::Disks;
use crate::rows::{Call, Case, NONE, OFF, ON, Row, Trouble};
use crate::volumes::Told;
use vx_disk::{Rack, Shelf};
use vx_group::Group;
use vx_untold::Untold;

/// The group with one of its disks made to fail, or working again.
pub fn failing(group: Group<Disks>, disk: u32, on: bool) -> Group<Disks> {
    let (shelf, core) = group.apart();
    let mut disks = shelf.shelf;
    if disk >= disks.units() {
        return Group::together(Untold { shelf: disks }, core);
    }
    disks.fail(disk, on);
    Group::together(Untold { shelf: disks }, core)
}

// The second plex is STALE, and the second disk is held as failed.
const HELD: &[Row] = &[
    (Call::State(0, 1), OFF),
    (Call::Failed, Told::Failed(Some(1))),
];

// A write to the second plex fails, and the second disk in the commit behind it.
const MISSED: &[Row] = &[
    (Call::Make(b"v", 16, 2), Told::Volume(0)),
    (Call::Put(0, 3, 0x11), Told::Done),
];

const KEPT: &[Row] = &[(Call::Get(0, 3), Told::Block(0x11))];

pub const CASES: &[Case] = &[
    (
        "a disk comes back",
        2,
        NONE,
        &[
            &[
                (Call::Make(b"v", 16, 2), Told::Volume(0)),
                (Call::Fail(1, true), Told::Done),
                (Call::Put(0, 3, 0x11), Told::Done),
            ],
            HELD,
            &[(Call::Att(0, 1), Told::Device(1))],
            HELD,
            &[
                (Call::Fail(1, false), Told::Done),
                (Call::Put(0, 4, 0x22), Told::Done),
            ],
            HELD,
            &[
                (Call::Att(0, 1), Told::Attached(1)),
                (Call::State(0, 1), ON),
                (Call::Failed, Told::Failed(None)),
                (Call::Det(0, 0), Told::Done),
                (Call::Get(0, 3), Told::Block(0x11)),
                (Call::Get(0, 4), Told::Block(0x22)),
                (Call::Crash(0), Told::Done),
                (Call::Get(0, 3), Told::Block(0x11)),
                (Call::Get(0, 3), Told::Block(0x11)),
            ],
        ],
        &[],
    ),
    // A volume of two plexes is made with call 38. The write to the second plex fails with call 40, and the second disk in the commit behind
    // it with call 47, so that its second try comes to the first disk alone. An attach begins with call 54: five calls write the headers of
    // each disk back, and six commit to it. The newest configuration stands on the first disk alone, so that no commit may go without it; and
    // where the second disk fails, it stays held as failed.
    (
        "a call for the headers or in the commit fails on the first disk",
        2,
        Trouble::Fails(&[&[40, 47, 54], &[40, 47, 64]]),
        &[
            MISSED,
            HELD,
            &[(Call::Att(0, 1), Told::Device(0))],
            HELD,
            KEPT,
        ],
        &[],
    ),
    (
        "a call for the headers or in the commit fails on the second disk",
        2,
        Trouble::Fails(&[&[40, 47, 59], &[40, 47, 70]]),
        &[
            MISSED,
            HELD,
            &[(Call::Att(0, 1), Told::Device(1))],
            HELD,
            KEPT,
        ],
        &[],
    ),
    (
        "a call of the copy fails on the second disk",
        2,
        Trouble::Fails(&[&[40, 47, 77]]),
        &[
            MISSED,
            HELD,
            &[
                (Call::Att(0, 1), Told::Device(1)),
                (Call::State(0, 1), OFF),
                (Call::Failed, Told::Failed(None)),
            ],
            KEPT,
        ],
        &[],
    ),
];
