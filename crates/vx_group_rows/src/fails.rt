// Writes, detaches and attaches with each of their device calls failing, and what a crash and an import then give. The crash keeps all that was
// written where the number of the call is odd, and nothing that no flush made durable where it is even.
use crate::cuts::{BEFORE, KEPT, LOST, NEW_OFF, NEW_ON, OLD_OFF, OLD_ON, VOLUME};
use crate::rows::{Call, Case, NONE, OFF, ON, Row, Trouble};
use crate::volumes::Told;

// A write that fails on the first plex, or on the second one.
const FIRST_FAILS: &[Row] = &[
    (Call::Put(0, 3, 0x22), Told::Done),
    (Call::State(0, 0), OFF),
    (Call::State(0, 1), ON),
    (Call::Flush(0), Told::Done),
];

const SECOND_FAILS: &[Row] = &[
    (Call::Put(0, 3, 0x22), Told::Done),
    (Call::State(0, 0), ON),
    (Call::State(0, 1), OFF),
    (Call::Flush(0), Told::Done),
];

const DETACHED: &[Row] = &[(Call::Det(0, 1), Told::Done)];

const ATTACHED: &[Row] = &[(Call::Att(0, 1), Told::Attached(1))];

const ATTACH_CUT: &[Row] = &[(Call::Att(0, 1), Told::Down)];

pub const CASES: &[Case] = &[
    // A volume with one block that was written and flushed has had 42 calls. The write to the first plex or to the second one fails, and a
    // commit follows with six calls on each disk, of which one more fails.
    (
        "a write fails on the first plex, and a call of its commit, and what was written is kept",
        2,
        Trouble::Fails(&[
            &[43, 45],
            &[43, 47],
            &[43, 49],
            &[43, 51],
            &[43, 53],
            &[43, 55],
        ]),
        &[VOLUME, FIRST_FAILS, KEPT, NEW_ON],
        &[],
    ),
    (
        "a write fails on the first plex, and a call of its commit, and what was written is lost",
        2,
        Trouble::Fails(&[
            &[43, 46],
            &[43, 48],
            &[43, 50],
            &[43, 52],
            &[43, 54],
            &[43, 56],
        ]),
        &[VOLUME, FIRST_FAILS, LOST, NEW_ON],
        &[],
    ),
    (
        "a write fails on the second plex, and a call of its commit, and what was written is kept",
        2,
        Trouble::Fails(&[
            &[44, 45],
            &[44, 47],
            &[44, 49],
            &[44, 51],
            &[44, 53],
            &[44, 55],
        ]),
        &[VOLUME, SECOND_FAILS, KEPT, NEW_OFF],
        &[],
    ),
    (
        "a write fails on the second plex, and a call of its commit, and what was written is lost",
        2,
        Trouble::Fails(&[
            &[44, 46],
            &[44, 48],
            &[44, 50],
            &[44, 52],
            &[44, 54],
            &[44, 56],
        ]),
        &[VOLUME, SECOND_FAILS, LOST, NEW_OFF],
        &[],
    ),
    (
        "a call of a detach fails, and what was written is kept",
        2,
        Trouble::Fails(&[&[43], &[45], &[47], &[49], &[51], &[53]]),
        &[VOLUME, DETACHED, KEPT, OLD_OFF],
        &[],
    ),
    (
        "a call of a detach fails, and what was written is lost",
        2,
        Trouble::Fails(&[&[44], &[46], &[48], &[50], &[52], &[54]]),
        &[VOLUME, DETACHED, LOST, OLD_OFF],
        &[],
    ),
    // A detach has 12 calls. The first plex is read, and the second one written and flushed; the commit behind it does without a disk.
    (
        "the read of an attach fails",
        2,
        Trouble::Fails(&[&[55]]),
        &[
            VOLUME,
            DETACHED,
            &[(Call::Att(0, 1), Told::Device(0))],
            KEPT,
            OLD_OFF,
        ],
        &[],
    ),
    (
        "the write of an attach fails",
        2,
        Trouble::Fails(&[&[56]]),
        &[
            VOLUME,
            DETACHED,
            &[(Call::Att(0, 1), Told::Device(1))],
            LOST,
            OLD_OFF,
        ],
        &[],
    ),
    (
        "the flush of an attach fails",
        2,
        Trouble::Fails(&[&[57]]),
        &[
            VOLUME,
            DETACHED,
            &[(Call::Att(0, 1), Told::Device(1))],
            KEPT,
            OLD_OFF,
        ],
        &[],
    ),
    (
        "a call of the commit of an attach fails, and what was written is lost",
        2,
        Trouble::Fails(&[&[58], &[60], &[62], &[64], &[66], &[68]]),
        &[VOLUME, DETACHED, ATTACHED, LOST, OLD_ON],
        &[],
    ),
    (
        "a call of the commit of an attach fails, and what was written is kept",
        2,
        Trouble::Fails(&[&[59], &[61], &[63], &[65], &[67], &[69]]),
        &[VOLUME, DETACHED, ATTACHED, KEPT, OLD_ON],
        &[],
    ),
    // A detach has eight writes and flushes, an attach two and the eight of its commit. The configuration counts once the first header is
    // durable, or kept.
    (
        "an attach is cut and what was written is lost: down, STALE",
        2,
        Trouble::Cut(BEFORE + 8, &[0, 1, 2, 3, 4, 5], 0, 0),
        &[VOLUME, DETACHED, ATTACH_CUT, LOST, OLD_OFF],
        &[],
    ),
    (
        "an attach is cut and what was written is lost: down, ACTIVE",
        2,
        Trouble::Cut(BEFORE + 8, &[6, 7, 8, 9], 0, 0),
        &[VOLUME, DETACHED, ATTACH_CUT, LOST, OLD_ON],
        &[],
    ),
    (
        "an attach is cut and what was written is lost: done, ACTIVE",
        2,
        Trouble::Cut(BEFORE + 8, &[10], 0, 0),
        &[VOLUME, DETACHED, ATTACHED, LOST, OLD_ON],
        &[],
    ),
    (
        "an attach is cut and what was written is kept: down, STALE",
        2,
        Trouble::Cut(BEFORE + 8, &[0, 1, 2, 3, 4], u64::MAX, 0),
        &[VOLUME, DETACHED, ATTACH_CUT, KEPT, OLD_OFF],
        &[],
    ),
    (
        "an attach is cut and what was written is kept: down, ACTIVE",
        2,
        Trouble::Cut(BEFORE + 8, &[5, 6, 7, 8, 9], u64::MAX, 0),
        &[VOLUME, DETACHED, ATTACH_CUT, KEPT, OLD_ON],
        &[],
    ),
    (
        "an attach is cut and what was written is kept: done, ACTIVE",
        2,
        Trouble::Cut(BEFORE + 8, &[10], u64::MAX, 0),
        &[VOLUME, DETACHED, ATTACHED, KEPT, OLD_ON],
        &[],
    ),
    (
        "a disk is away over a deport",
        3,
        NONE,
        &[&[
            (Call::Make(b"v", 256, 2), Told::Volume(0)),
            (Call::Fail(1, true), Told::Done),
            (Call::Put(0, 70, 0xbb), Told::Done),
            (Call::Fail(1, false), Told::Done),
            (Call::Deport, Told::Done),
            (Call::Att(0, 1), Told::Attached(4)),
            (Call::Att(0, 1), Told::Attached(0)),
            (Call::Get(0, 70), Told::Block(0xbb)),
            (Call::Get(0, 70), Told::Block(0xbb)),
            (Call::Make(b"w", 2000, 1), Told::Space(2000, 1024)),
            (Call::Striped(b"s"), Told::Volume(1)),
            (Call::Put(1, 40, 0x77), Told::Done),
        ]],
        &[(0, 792, 0x77)],
    ),
];
