// Calls of a group of which a plex misses writes, and what they are answered.
use crate::misses::{Call, MAPPED, PLAIN, Row, Told};
use vx_layout::Shape;

// What it shows, the volume, and its calls.
pub const CASES: &[(&str, &Shape, &[Row])] = &[
    (
        "maps are trusted behind the first detach",
        &MAPPED,
        &[
            (Call::Lost, Told::Is(true)),
            (Call::Det(1), Told::Done),
            (Call::Lost, Told::Is(false)),
        ],
    ),
    (
        "an attach copies the regions that were written",
        &MAPPED,
        &[
            (Call::Put(10, 0xaa), Told::Done),
            (Call::Det(1), Told::Done),
            (Call::Put(70, 0xbb), Told::Done),
            (Call::Put(71, 0xbb), Told::Done),
            (Call::Put(200, 0xcc), Told::Done),
            (Call::Att(1), Told::Copied(2)),
            (Call::Att(1), Told::Copied(0)),
            (Call::Det(0), Told::Done),
            (Call::Get(10), Told::Byte(0xaa)),
            (Call::Get(70), Told::Byte(0xbb)),
            (Call::Get(200), Told::Byte(0xcc)),
        ],
    ),
    (
        "without maps an attach copies all",
        &PLAIN,
        &[
            (Call::Det(1), Told::Done),
            (Call::Put(70, 0xbb), Told::Done),
            (Call::Att(1), Told::Copied(4)),
        ],
    ),
    (
        "a detach begins the map anew",
        &MAPPED,
        &[
            (Call::Det(1), Told::Done),
            (Call::Put(10, 0xaa), Told::Done),
            (Call::Att(1), Told::Copied(1)),
            (Call::Det(1), Told::Done),
            (Call::Put(70, 0xbb), Told::Done),
            (Call::Att(1), Told::Copied(1)),
            (Call::Det(0), Told::Done),
            (Call::Get(10), Told::Byte(0xaa)),
            (Call::Get(70), Told::Byte(0xbb)),
        ],
    ),
];

// What it shows, the first call that fails in turn and the one behind the last, whether the next call fails too, the rows, by how many of these it is the
// case that is looked for, in which all hold, and how many such calls there are.
pub type Search = (&'static str, u64, u64, bool, &'static [Row], usize, u64);

const REFUSED: &[Row] = &[
    (Call::Det(1), Told::Done),
    (Call::Put(70, 0xbb), Told::Refused),
    (Call::Put(200, 0xcc), Told::Done),
    (Call::Att(1), Told::Copied(2)),
];

pub const SEARCHES: &[Search] = &[
    (
        "a plex that fails in a write misses it",
        100,
        120,
        false,
        &[
            (Call::Put(70, 0xbb), Told::Done),
            (Call::Active(1), Told::Is(false)),
            (Call::Get(70), Told::Byte(0xbb)),
            (Call::Att(1), Told::Copied(1)),
        ],
        2,
        1,
    ),
    (
        "a plex that fails behind an attach misses that write alone",
        120,
        180,
        false,
        &[
            (Call::Det(1), Told::Done),
            (Call::Put(70, 0xbb), Told::Done),
            (Call::Att(1), Told::Copied(1)),
            (Call::Active(1), Told::Is(true)),
            (Call::Put(10, 0xcc), Told::Done),
            (Call::Active(1), Told::Is(false)),
            (Call::Att(1), Told::Copied(1)),
        ],
        6,
        1,
    ),
    (
        "a plex that fails in the flush behind a write misses it",
        100,
        140,
        false,
        &[
            (Call::Put(70, 0xbb), Told::Done),
            (Call::Active(1), Told::Is(true)),
            (Call::Flush(70), Told::Done),
            (Call::Active(1), Told::Is(false)),
            (Call::Att(1), Told::Copied(1)),
        ],
        4,
        1,
    ),
    // The calls of the detach that write its commit, and those of both writes. That of the first write to the one plex that is ACTIVE is the 128th.
    (
        "a refused write is noted: before",
        120,
        128,
        false,
        REFUSED,
        3,
        0,
    ),
    ("a refused write is noted", 128, 129, false, REFUSED, 3, 1),
    (
        "a refused write is noted: behind",
        129,
        132,
        false,
        REFUSED,
        3,
        0,
    ),
    (
        "a refused write leaves its own regions alone",
        130,
        180,
        true,
        &[
            (Call::Det(1), Told::Done),
            (Call::Put(10, 0xaa), Told::Done),
            (Call::Att(1), Told::Copied(1)),
            (Call::Active(1), Told::Is(true)),
            (Call::Put(70, 0xbb), Told::Refused),
            (Call::Det(1), Told::Done),
            (Call::Att(1), Told::Copied(1)),
        ],
        6,
        1,
    ),
];
