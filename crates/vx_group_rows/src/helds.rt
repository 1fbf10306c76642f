// Attaches of which the commit is refused, and the one that takes it back too.
use crate::rows::{Call, Case, OFF, ON, Row, Trouble};
use crate::volumes::Told;

// A group with a volume of two plexes, of which the second one is STALE and block 3 was written and flushed with call 52. The copy of an attach
// is a read, a write and a flush, and its commit begins with call 56 on the first disk, of which the last call flushes the header. Call 62
// is the first one to the second disk, and calls 63 and 64 are the first ones that write headers back.
const BEFORE: &[Row] = &[
    (Call::Make(b"v", 16, 2), Told::Volume(0)),
    (Call::Det(0, 1), Told::Done),
    (Call::Put(0, 3, 0x11), Told::Done),
    (Call::Flush(0), Told::Done),
];

const FAILS: Trouble = Trouble::Fails(&[&[61, 62, 63, 64]]);

// The attach that is refused.
const REFUSED: &[Row] = &[(Call::Att(0, 1), Told::Device(1)), (Call::State(0, 1), OFF)];

const HELD_BACK: &[Row] = &[
    (Call::Failed, Told::Failed(None)),
    (Call::Det(0, 1), Told::Done),
    (Call::Det(0, 0), Told::LastPlex),
    (Call::Get(0, 3), Told::Block(0x11)),
    (Call::Get(0, 3), Told::Block(0x11)),
];

const WRITTEN: &[Row] = &[
    (Call::Att(0, 1), Told::Device(1)),
    (Call::Put(0, 3, 0x22), Told::Done),
    (Call::State(0, 1), OFF),
    (Call::Get(0, 3), Told::Block(0x22)),
    (Call::Get(0, 3), Told::Block(0x22)),
    (Call::Flush(0), Told::Done),
];

const WRITE_REFUSED: &[Row] = &[
    (Call::Att(0, 1), Told::Device(1)),
    (Call::Put(0, 3, 0x22), Told::Device(1)),
    (Call::State(0, 1), OFF),
    (Call::Get(0, 3), Told::Block(0x11)),
    (Call::Get(0, 3), Told::Block(0x11)),
];

pub const CASES: &[Case] = &[
    // A crash that keeps what was written keeps the header, by which the plex is ACTIVE.
    (
        "a refused attach is held back, and a crash keeps its header",
        2,
        FAILS,
        &[
            BEFORE,
            REFUSED,
            HELD_BACK,
            &[
                (Call::Crash(u64::MAX), Told::Done),
                (Call::State(0, 1), ON),
                (Call::Get(0, 3), Told::Block(0x11)),
                (Call::Get(0, 3), Told::Block(0x11)),
            ],
        ],
        &[],
    ),
    (
        "a refused attach is held back, and a crash loses its header",
        2,
        FAILS,
        &[
            BEFORE,
            REFUSED,
            HELD_BACK,
            &[
                (Call::Crash(0), Told::Done),
                (Call::State(0, 1), OFF),
                (Call::Get(0, 3), Told::Block(0x11)),
                (Call::Get(0, 3), Told::Block(0x11)),
            ],
        ],
        &[],
    ),
    (
        "a write comes behind it, and a crash that loses what it may",
        2,
        FAILS,
        &[
            BEFORE,
            WRITTEN,
            &[
                (Call::Crash(0), Told::Done),
                (Call::State(0, 1), OFF),
                (Call::Get(0, 3), Told::Block(0x22)),
                (Call::Get(0, 3), Told::Block(0x22)),
            ],
        ],
        &[],
    ),
    (
        "a write comes behind it, and a crash that keeps what it may",
        2,
        FAILS,
        &[
            BEFORE,
            WRITTEN,
            &[
                (Call::Crash(u64::MAX), Told::Done),
                (Call::State(0, 1), OFF),
                (Call::Get(0, 3), Told::Block(0x22)),
                (Call::Get(0, 3), Told::Block(0x22)),
            ],
        ],
        &[],
    ),
    // The first calls for the headers fail once more.
    (
        "a write behind it is refused, and a crash keeps the header",
        2,
        Trouble::Fails(&[&[61, 62, 63, 64, 65, 66]]),
        &[
            BEFORE,
            WRITE_REFUSED,
            &[
                (Call::Crash(u64::MAX), Told::Done),
                (Call::State(0, 1), ON),
                (Call::Get(0, 3), Told::Block(0x11)),
                (Call::Get(0, 3), Told::Block(0x11)),
            ],
        ],
        &[],
    ),
    (
        "a write behind it is refused, and a crash loses the header",
        2,
        Trouble::Fails(&[&[61, 62, 63, 64, 65, 66]]),
        &[
            BEFORE,
            WRITE_REFUSED,
            &[
                (Call::Crash(0), Told::Done),
                (Call::State(0, 1), OFF),
                (Call::Get(0, 3), Told::Block(0x11)),
                (Call::Get(0, 3), Told::Block(0x11)),
            ],
        ],
        &[],
    ),
    (
        "it is attached again",
        2,
        FAILS,
        &[
            BEFORE,
            REFUSED,
            &[
                (Call::Att(0, 1), Told::Attached(1)),
                (Call::State(0, 1), ON),
                (Call::Put(0, 4, 0x33), Told::Done),
                (Call::Det(0, 0), Told::Done),
                (Call::Get(0, 3), Told::Block(0x11)),
                (Call::Get(0, 4), Told::Block(0x33)),
            ],
        ],
        &[],
    ),
    (
        "another volume is made behind it",
        2,
        FAILS,
        &[
            BEFORE,
            &[
                (Call::Att(0, 1), Told::Device(1)),
                (Call::Make(b"w", 16, 2), Told::Volume(1)),
                (Call::State(0, 1), OFF),
                (Call::State(1, 1), ON),
                (Call::Crash(u64::MAX), Told::Done),
                (Call::State(0, 1), OFF),
                (Call::Get(0, 3), Told::Block(0x11)),
                (Call::Get(0, 3), Told::Block(0x11)),
            ],
        ],
        &[],
    ),
    (
        "a deport comes behind it",
        2,
        FAILS,
        &[
            BEFORE,
            &[
                (Call::Att(0, 1), Told::Device(1)),
                (Call::Deport, Told::Done),
                (Call::State(0, 1), OFF),
                (Call::Get(0, 3), Told::Block(0x11)),
                (Call::Get(0, 3), Told::Block(0x11)),
            ],
        ],
        &[],
    ),
];
