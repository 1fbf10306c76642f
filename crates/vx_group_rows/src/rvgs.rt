// The replicated volume group of a group, whose volumes are named by a commit that is cut in turn; and what a refused deport gives back.
use crate::rows::{Call, Case, NONE, Row, Trouble};
use crate::volumes::{Told, told_of};
use vx_config::Config;
use vx_disk::Shelf;
use vx_group::Group;
use vx_model::{Units, VolumeUnits};

// What a configuration names: the log, the maps, and how many data volumes.
pub type Named = Option<(u32, u32, usize)>;

pub fn named(config: &Config) -> Named {
    match &config.rvg {
        Some(units) => Some((units.srl, units.maps, units.vols.as_slice().len())),
        None => None,
    }
}

// A replicated volume group with one data volume.
fn units(srl: u32, maps: u32, data: u32) -> Units {
    let mut vols = VolumeUnits::new();
    vols.push(data);
    Units { srl, maps, vols }
}

pub fn set<S: Shelf>(group: &mut Group<S>, srl: u32, maps: u32, data: u32) -> Told {
    match group.set_rvg(&units(srl, maps, data)) {
        Ok(()) => Told::Done,
        Err(stop) => told_of(stop),
    }
}

// Volumes of 8, 8, 16 and 7 blocks, of which the third one has two plexes. A new group has 18 writes and flushes, and these have 42.
const FOUR: &[Row] = &[
    (Call::Make(b"l", 8, 1), Told::Volume(0)),
    (Call::Make(b"m", 8, 1), Told::Volume(1)),
    (Call::Make(b"d", 16, 2), Told::Volume(2)),
    (Call::Make(b"s", 7, 1), Told::Volume(3)),
    (Call::Named, Told::Named(None)),
];

const BEFORE: u64 = 60;

// Nothing is named, also behind a crash.
const UNNAMED: &[Row] = &[
    (Call::Named, Told::Named(None)),
    (Call::Crash(0), Told::Done),
    (Call::Named, Told::Named(None)),
];

const CUT: &[Row] = &[
    (Call::Set(0, 1, 2), Told::Down),
    (Call::Named, Told::Named(None)),
];

const DONE: &[Row] = &[
    (Call::Set(0, 1, 2), Told::Done),
    (Call::Named, Told::Named(Some((0, 1, 1)))),
];

pub const CASES: &[Case] = &[
    (
        "a group is not of a volume twice",
        2,
        NONE,
        &[FOUR, &[(Call::Set(0, 1, 1), Told::Small)], UNNAMED],
        &[],
    ),
    (
        "a group is not of a volume that is none",
        2,
        NONE,
        &[FOUR, &[(Call::Set(0, 1, 4), Told::Small)], UNNAMED],
        &[],
    ),
    (
        "a group is not of a log of 7 blocks",
        2,
        NONE,
        &[FOUR, &[(Call::Set(3, 1, 2), Told::Small)], UNNAMED],
        &[],
    ),
    (
        "a group is not of maps of 7 blocks",
        2,
        NONE,
        &[FOUR, &[(Call::Set(0, 3, 2), Told::Small)], UNNAMED],
        &[],
    ),
    (
        "volumes that may be a group are named: 0, 1, 2",
        2,
        NONE,
        &[
            FOUR,
            &[
                (Call::Set(0, 1, 2), Told::Done),
                (Call::Named, Told::Named(Some((0, 1, 1)))),
                (Call::Crash(0), Told::Done),
                (Call::Named, Told::Named(Some((0, 1, 1)))),
            ],
        ],
        &[],
    ),
    (
        "volumes that may be a group are named: 1, 0, 2",
        2,
        NONE,
        &[
            FOUR,
            &[
                (Call::Set(1, 0, 2), Told::Done),
                (Call::Named, Told::Named(Some((1, 0, 1)))),
                (Call::Crash(0), Told::Done),
                (Call::Named, Told::Named(Some((1, 0, 1)))),
            ],
        ],
        &[],
    ),
    // The commit writes and flushes a body, and then a header, on the first disk and then on the second one. The configuration counts once
    // the first header is durable, or kept.
    (
        "a call that names them is cut and what was written is lost: down, not named",
        2,
        Trouble::Cut(BEFORE, &[0, 1, 2, 3], 0, 0),
        &[
            FOUR,
            CUT,
            &[
                (Call::Crash(0), Told::Done),
                (Call::Named, Told::Named(None)),
            ],
        ],
        &[],
    ),
    (
        "a call that names them is cut and what was written is lost: down, named",
        2,
        Trouble::Cut(BEFORE, &[4, 5, 6, 7], 0, 0),
        &[
            FOUR,
            CUT,
            &[
                (Call::Crash(0), Told::Done),
                (Call::Named, Told::Named(Some((0, 1, 1)))),
            ],
        ],
        &[],
    ),
    (
        "a call that names them is cut and what was written is lost: done, named",
        2,
        Trouble::Cut(BEFORE, &[8], 0, 0),
        &[
            FOUR,
            DONE,
            &[
                (Call::Crash(0), Told::Done),
                (Call::Named, Told::Named(Some((0, 1, 1)))),
            ],
        ],
        &[],
    ),
    (
        "a call that names them is cut and what was written is kept: down, not named",
        2,
        Trouble::Cut(BEFORE, &[0, 1, 2], u64::MAX, 0),
        &[
            FOUR,
            CUT,
            &[
                (Call::Crash(u64::MAX), Told::Done),
                (Call::Named, Told::Named(None)),
            ],
        ],
        &[],
    ),
    (
        "a call that names them is cut and what was written is kept: down, named",
        2,
        Trouble::Cut(BEFORE, &[3, 4, 5, 6, 7], u64::MAX, 0),
        &[
            FOUR,
            CUT,
            &[
                (Call::Crash(u64::MAX), Told::Done),
                (Call::Named, Told::Named(Some((0, 1, 1)))),
            ],
        ],
        &[],
    ),
    (
        "a call that names them is cut and what was written is kept: done, named",
        2,
        Trouble::Cut(BEFORE, &[8], u64::MAX, 0),
        &[
            FOUR,
            DONE,
            &[
                (Call::Crash(u64::MAX), Told::Done),
                (Call::Named, Told::Named(Some((0, 1, 1)))),
            ],
        ],
        &[],
    ),
    (
        "a refused deport gives the group back",
        2,
        NONE,
        &[
            FOUR,
            &[
                (Call::Set(0, 1, 2), Told::Done),
                (Call::Put(2, 3, 0x11), Told::Done),
                (Call::Fail(0, true), Told::Done),
                (Call::Fail(1, true), Told::Done),
                (Call::Deport, Told::Device(1)),
                (Call::Named, Told::Named(Some((0, 1, 1)))),
                (Call::Fail(0, false), Told::Done),
                (Call::Fail(1, false), Told::Done),
                (Call::Get(2, 3), Told::Block(0x11)),
                (Call::Put(2, 3, 0x22), Told::Done),
                (Call::Crash(u64::MAX), Told::Done),
                (Call::Named, Told::Named(Some((0, 1, 1)))),
            ],
        ],
        &[],
    ),
];
