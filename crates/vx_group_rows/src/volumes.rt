// Volumes of a group over a shelf in memory: they are made, written, read and detached, with each device call failing in turn.
use crate::rows::{Call, Case, NONE, OFF, ON, Row, Trouble};
use crate::rvgs::Named;
use std::alloc::Global;
use vx_config::{Config, PlexState};
use vx_disk::{Shelf, ShelfError};
use vx_group::Group;
use vx_layout::Shape;
use vx_model::limits::MOST_NAME_BYTES;
use vx_model::{Counted, Name, No, Stop};

#[derive(Clone, Copy, PartialEq, Eq)]
pub enum Told {
    Done,
    Volume(u32),
    Attached(u64),
    Block(u8),
    Mixed,
    Device(u32),
    Down,
    Space(u64, u64),
    Exists,
    Limit(Counted, u64),
    Small,
    LastPlex,
    Unknown,
    /// The state of a plex, where there is one.
    Is(Option<PlexState>),
    /// The first disk that is held as failed.
    Failed(Option<usize>),
    Agreed(bool),
    Named(Named),
    Missing(u32),
    NoConfig,
    Other,
}

pub fn told_of(stop: Stop) -> Told {
    match stop {
        Stop::No(No::Device { disk }) => Told::Device(disk),
        Stop::No(No::Down) => Told::Down,
        Stop::No(No::Space { need, have }) => Told::Space(need, have),
        Stop::No(No::Exists { .. }) => Told::Exists,
        Stop::No(No::Limit { what, most }) => Told::Limit(what, most),
        Stop::No(No::Size) => Told::Small,
        Stop::No(No::LastPlex) => Told::LastPlex,
        Stop::No(No::Unknown { .. }) => Told::Unknown,
        Stop::No(No::Missing { disk }) => Told::Missing(disk),
        Stop::No(No::NoConfig) => Told::NoConfig,
        _ => Told::Other,
    }
}

// So many blocks on so many concatenated plexes.
pub fn plain(blocks: u64, mirrors: u32) -> Shape {
    Shape {
        blocks,
        mirrors,
        ncol: 1,
        width: 0,
        drl: false,
        fmr: false,
        prefer: None,
    }
}

// 100 blocks on two columns, with units of 16 blocks.
pub const STRIPED: Shape = Shape {
    blocks: 100,
    mirrors: 1,
    ncol: 2,
    width: 16,
    drl: false,
    fmr: false,
    prefer: None,
};

pub fn make<S: Shelf>(alloc: Global, group: &mut Group<S>, name: &[u8], want: &Shape) -> Told {
    if name.is_empty() || name.len() > MOST_NAME_BYTES || want.prefer.is_some() {
        return Told::Other;
    }
    match group.make_volume(alloc, &Name::new(name), want) {
        Ok(volume) => Told::Volume(volume),
        Err(stop) => told_of(stop),
    }
}

// Writes one block of these bytes.
pub fn put<S: Shelf>(shelf: &mut S, unit: u32, block: u64, byte: u8) -> Told {
    if unit >= shelf.units() || block >= shelf.size(unit) {
        return Told::Other;
    }
    match shelf.write(unit, block, &[byte; 512]) {
        Ok(()) => Told::Done,
        Err(ShelfError::Fault { disk }) => Told::Device(disk),
        Err(ShelfError::Down) => Told::Down,
    }
}

// Reads one block, and tells its byte.
pub fn get<S: Shelf>(shelf: &mut S, unit: u32, block: u64) -> Told {
    if unit >= shelf.units() || block >= shelf.size(unit) {
        return Told::Other;
    }
    let mut bytes = [0; 512];
    match shelf.read(unit, block, &mut bytes) {
        Ok(()) => {
            let first = bytes[0];
            if bytes.iter().all(|byte| *byte == first) {
                Told::Block(first)
            } else {
                Told::Mixed
            }
        }
        Err(ShelfError::Fault { disk }) => Told::Device(disk),
        Err(ShelfError::Down) => Told::Down,
    }
}

pub fn flush<S: Shelf>(shelf: &mut S, unit: u32) -> Told {
    if unit >= shelf.units() {
        return Told::Other;
    }
    match shelf.flush(unit) {
        Ok(()) => Told::Done,
        Err(ShelfError::Fault { disk }) => Told::Device(disk),
        Err(ShelfError::Down) => Told::Down,
    }
}

pub fn det<S: Shelf>(group: &mut Group<S>, volume: u32, plex: u32) -> Told {
    match group.det(volume, plex) {
        Ok(()) => Told::Done,
        Err(stop) => told_of(stop),
    }
}

pub fn state(config: &Config, volume: usize, plex: usize) -> Option<PlexState> {
    match config.volumes.as_slice().get(volume) {
        Some(volume) => match volume.plexes.as_slice().get(plex) {
            Some(plex) => Some(plex.state),
            None => None,
        },
        None => None,
    }
}

// A volume of 16 blocks on two plexes.
const PLAIN: &[Row] = &[(Call::Make(b"v", 16, 2), Told::Volume(0))];

const MADE_AGAIN: &[Row] = &[
    (Call::Make(b"v", 16, 2), Told::Volume(0)),
    (Call::Get(0, 15), Told::Block(0)),
];

const WRITTEN_OVER: &[Row] = &[
    (Call::Put(0, 3, 0x22), Told::Done),
    (Call::Flush(0), Told::Done),
    (Call::Get(0, 3), Told::Block(0x22)),
    (Call::Get(0, 3), Told::Block(0x22)),
];

const DETACHED: &[Row] = &[
    (Call::Det(1, 0), Told::Unknown),
    (Call::Det(0, 2), Told::Unknown),
    (Call::Put(0, 3, 0x22), Told::Done),
    (Call::Get(0, 3), Told::Block(0x22)),
];

pub const CASES: &[Case] = &[
    // A new group of three disks has made 33 calls; zeros in runs of 16 blocks, two flushes, a commit and a read follow, and call 88 is the
    // write to the second plex. Block 40 of the striped plex is block 792 of disk 0.
    (
        "a write detaches the plex that failed",
        3,
        Trouble::Fails(&[&[88]]),
        &[&[
            (Call::Make(b"v", 256, 2), Told::Volume(0)),
            (Call::Get(0, 255), Told::Block(0)),
            (Call::Put(0, 70, 0xbb), Told::Done),
            (Call::State(0, 0), ON),
            (Call::State(0, 1), OFF),
            (Call::Get(0, 70), Told::Block(0xbb)),
            (Call::Get(0, 70), Told::Block(0xbb)),
            (Call::Det(0, 0), Told::LastPlex),
            (Call::Make(b"w", 2000, 1), Told::Space(2000, 1024)),
            (Call::Striped(b"s"), Told::Volume(1)),
            (Call::Get(1, 40), Told::Block(0)),
            (Call::Put(1, 40, 0x77), Told::Done),
        ]],
        &[(0, 792, 0x77)],
    ),
    (
        "a volume is refused",
        2,
        NONE,
        &[&[
            (Call::Make(b"v", 64, 2), Told::Volume(0)),
            (Call::Make(b"v", 64, 9), Told::Exists),
            (Call::Make(b"w", 0, 9), Told::Limit(Counted::Plexes, 8)),
            (Call::Make(b"w", 0, 1), Told::Small),
            (Call::Make(b"w", 64, 3), Told::Space(64, 0)),
            (Call::Make(b"w", 448, 2), Told::Volume(1)),
            (Call::Make(b"x", 1, 1), Told::Space(1, 0)),
        ]],
        &[],
    ),
    // A new group of two disks has made 22 calls. Zeros go to each plex, then each is flushed, and a commit begins again where a disk fails.
    (
        "a call of a new volume fails on the first disk",
        2,
        Trouble::Fails(&[&[23], &[25]]),
        &[&[(Call::Make(b"v", 16, 2), Told::Device(0))], MADE_AGAIN],
        &[],
    ),
    (
        "a call of a new volume fails on the second disk",
        2,
        Trouble::Fails(&[&[24], &[26]]),
        &[&[(Call::Make(b"v", 16, 2), Told::Device(1))], MADE_AGAIN],
        &[],
    ),
    (
        "a call of the commit of a new volume fails",
        2,
        Trouble::Fails(&[&[27], &[32], &[33], &[38]]),
        &[&[
            (Call::Make(b"v", 16, 2), Told::Volume(0)),
            (Call::Make(b"v", 16, 2), Told::Exists),
            (Call::Get(0, 15), Told::Block(0)),
        ]],
        &[],
    ),
    // A volume of two plexes is made with call 38. A write has a call for each plex, and where one fails a commit begins with call 41.
    (
        "a write to the first plex fails, and then its commit on the first disk",
        2,
        Trouble::Fails(&[&[39], &[39, 41]]),
        &[
            PLAIN,
            &[
                (Call::Put(0, 3, 0x11), Told::Done),
                (Call::State(0, 0), OFF),
                (Call::State(0, 1), ON),
            ],
            WRITTEN_OVER,
        ],
        &[],
    ),
    (
        "a write to the second plex fails, and then its commit on the second disk",
        2,
        Trouble::Fails(&[&[40], &[40, 47]]),
        &[
            PLAIN,
            &[
                (Call::Put(0, 3, 0x11), Told::Done),
                (Call::State(0, 0), ON),
                (Call::State(0, 1), OFF),
            ],
            WRITTEN_OVER,
        ],
        &[],
    ),
    (
        "a write fails on both plexes",
        2,
        Trouble::Fails(&[&[39, 40]]),
        &[
            PLAIN,
            &[
                (Call::Put(0, 3, 0x11), Told::Device(1)),
                (Call::State(0, 0), ON),
                (Call::State(0, 1), ON),
            ],
            WRITTEN_OVER,
        ],
        &[],
    ),
    (
        "a detach is done, where a call of its commit fails too",
        2,
        Trouble::Fails(&[&[], &[39], &[45]]),
        &[
            PLAIN,
            &[
                (Call::Det(0, 1), Told::Done),
                (Call::State(0, 0), ON),
                (Call::State(0, 1), OFF),
            ],
            DETACHED,
        ],
        &[],
    ),
    (
        "a detach is refused, where its commit fails on both disks",
        2,
        Trouble::Fails(&[&[39, 40]]),
        &[
            PLAIN,
            &[
                (Call::Det(0, 1), Told::Device(1)),
                (Call::State(0, 0), ON),
                (Call::State(0, 1), ON),
            ],
            DETACHED,
        ],
        &[],
    ),
    // A volume of two plexes is made with call 38, and a write has calls 39 and 40. A flush of each plex follows, and a commit begins with
    // call 43: two failed flushes stop no deport, and the two first calls of the commit on each disk do.
    (
        "a deport is done, where its flushes fail too",
        2,
        Trouble::Fails(&[&[], &[41], &[42], &[41, 42]]),
        &[
            PLAIN,
            &[
                (Call::Put(0, 3, 0x11), Told::Done),
                (Call::Deport, Told::Done),
            ],
        ],
        &[],
    ),
    (
        "a deport is refused, where its commit fails on both disks",
        2,
        Trouble::Fails(&[&[43, 44]]),
        &[
            PLAIN,
            &[
                (Call::Put(0, 3, 0x11), Told::Done),
                (Call::Deport, Told::Device(1)),
            ],
        ],
        &[],
    ),
    // The commit of a deport begins with call 43, and is refused. A new volume is refused in its zeros, behind ten calls that write headers
    // back. The write begins with such calls again, and with a commit, which is call 67; the next one does too.
    (
        "a write makes up for a missed commit",
        2,
        Trouble::Fails(&[&[43, 44, 55, 67, 68]]),
        &[
            PLAIN,
            &[
                (Call::Put(0, 3, 0x11), Told::Done),
                (Call::Deport, Told::Device(1)),
                (Call::Make(b"w", 16, 2), Told::Device(0)),
                (Call::Put(0, 3, 0x22), Told::Device(1)),
                (Call::Get(0, 3), Told::Block(0x11)),
                (Call::Get(0, 3), Told::Block(0x11)),
                (Call::Put(0, 3, 0x22), Told::Done),
                (Call::Get(0, 3), Told::Block(0x22)),
                (Call::Get(0, 3), Told::Block(0x22)),
            ],
        ],
        &[],
    ),
];
