// What lines of links are refused with, and writes by the links of their site.
use crate::order::{Has, Rows, Rvg, Sends, Stands};
use vx_model::{Mode, Role, SiteState, SyncMode};

// Sites that are up, with one volume of 10 blocks, and primaries of their first line where their name says nothing else.
const A: Stands = (
    b"a",
    SiteState::Up,
    3,
    10,
    false,
    Has::D1,
    Some((Role::Primary, 1, 0, 0, 8, None)),
    &[],
);

const B: Stands = (
    b"b",
    SiteState::Up,
    3,
    10,
    false,
    Has::D1,
    Some((Role::Primary, 1, 1, 0, 8, None)),
    &[],
);

// It has written once.
const C: Stands = (
    b"c",
    SiteState::Up,
    3,
    10,
    false,
    Has::D1,
    Some((Role::Primary, 1, 2, 1, 8, None)),
    &[],
);

const FOUR_LINKS_A: Stands = (
    b"a",
    SiteState::Up,
    3,
    10,
    false,
    Has::D1,
    Some((Role::Primary, 1, 0, 0, 8, None)),
    &[
        (2, false, SyncMode::Off, true, Mode::Log, 0),
        (3, false, SyncMode::Off, true, Mode::Log, 0),
        (4, false, SyncMode::Off, true, Mode::Log, 0),
        (5, false, SyncMode::Off, true, Mode::Log, 0),
    ],
);

// The primary a with three writes, and here with a link to b, for which seven blocks are kept.
const WRITES: Option<Rvg> = Some((Role::Primary, 1, 0, 3, 8, None));

const LIVE_A: Stands = (
    b"a",
    SiteState::Up,
    3,
    10,
    false,
    Has::D1,
    WRITES,
    &[(1, false, SyncMode::Off, true, Mode::Log, 7)],
);

const CUT_A: Stands = (
    b"a",
    SiteState::Up,
    3,
    10,
    false,
    Has::D1,
    WRITES,
    &[(1, false, SyncMode::Off, false, Mode::Log, 7)],
);

const FAILING_A: Stands = (
    b"a",
    SiteState::Up,
    3,
    10,
    false,
    Has::D1,
    WRITES,
    &[(1, false, SyncMode::Fail, false, Mode::Log, 7)],
);

const CUT_STALE_A: Stands = (
    b"a",
    SiteState::Up,
    3,
    10,
    false,
    Has::D1,
    WRITES,
    &[(1, false, SyncMode::Off, false, Mode::Stale, 7)],
);

const STALE_A: Stands = (
    b"a",
    SiteState::Up,
    3,
    10,
    false,
    Has::D1,
    WRITES,
    &[(1, false, SyncMode::Off, true, Mode::Stale, 7)],
);

const BUNKER_A: Stands = (
    b"a",
    SiteState::Up,
    3,
    10,
    false,
    Has::D1,
    WRITES,
    &[(1, true, SyncMode::Off, true, Mode::Log, 7)],
);

const FORK_A: Stands = (
    b"a",
    SiteState::Up,
    3,
    10,
    false,
    Has::D1,
    WRITES,
    &[(1, false, SyncMode::Off, true, Mode::Fork { maps: 0 }, 7)],
);

const APART_A: Stands = (b"a", SiteState::Up, 3, 10, false, Has::D1, WRITES, &[]);

// The site b on the line that a began first.
const SECONDARY_B: Stands = (
    b"b",
    SiteState::Up,
    3,
    10,
    false,
    Has::D1,
    Some((Role::Secondary, 1, 0, 0, 8, None)),
    &[],
);

const PRIMARY_B: Stands = (
    b"b",
    SiteState::Up,
    3,
    10,
    false,
    Has::D1,
    Some((Role::Primary, 1, 0, 0, 8, None)),
    &[],
);

const BUNKER_B: Stands = (
    b"b",
    SiteState::Up,
    3,
    10,
    false,
    Has::D1,
    Some((Role::Bunker, 1, 0, 0, 8, None)),
    &[],
);

// It is on a line of its own.
const OTHER_B: Stands = (
    b"b",
    SiteState::Up,
    3,
    10,
    false,
    Has::D1,
    Some((Role::Secondary, 1, 1, 0, 8, None)),
    &[],
);

pub const ROWS: &[Rows] = &[
    (
        "a further link",
        &[A, B, C],
        false,
        &[
            ("link a b synchronous=off srlprot=fail", ""),
            ("link a a synchronous=off srlprot=fail", "no 5 role\n"),
            ("link a c synchronous=off srlprot=fail", "no 5 role\n"),
            ("link c b synchronous=off srlprot=fail", "no 5 role\n"),
        ],
    ),
    (
        "a fifth link",
        &[FOUR_LINKS_A, B],
        false,
        &[(
            "link a b synchronous=off srlprot=fail",
            "no 19 limit links 4\n",
        )],
    ),
    (
        "a write by a live link",
        &[LIVE_A, B],
        false,
        &[("write a d1 4 1 04", "no 13 stalled b\n")],
    ),
    (
        "a write and a pump by a cut link",
        &[CUT_A, B],
        false,
        &[
            ("write a d1 4 1 04", "no 12 logfull b\n"),
            ("pump a b", "no 14 linkdown b\n"),
        ],
    ),
    (
        "a write and a wait by a cut link whose writes fail",
        &[FAILING_A, B],
        false,
        &[
            ("write a d1 4 1 04", "no 14 linkdown b\n"),
            ("wait a 3", "no 15 unconfirmed 3\n"),
        ],
    ),
    (
        "a write by a cut and stale link",
        &[CUT_STALE_A, B],
        false,
        &[("write a d1 4 1 04", "")],
    ),
    (
        "a stale link that is to be settled",
        &[STALE_A, B],
        false,
        &[("settle a b", "no 5 role\n")],
    ),
    (
        "a line of no link",
        &[LIVE_A, B],
        false,
        &[("tick a a", "no 1 unknown a\n")],
    ),
    (
        "a settled link to a secondary",
        &[LIVE_A, SECONDARY_B],
        false,
        &[("settle a b", "")],
    ),
    (
        "a settled link to a secondary of another line",
        &[LIVE_A, OTHER_B],
        false,
        &[("settle a b", "no 5 role\n")],
    ),
    (
        "a settled link to a primary",
        &[LIVE_A, PRIMARY_B],
        false,
        &[("settle a b", "no 5 role\n")],
    ),
    (
        "a settled link to a bunker that is none",
        &[LIVE_A, BUNKER_B],
        false,
        &[("settle a b", "no 5 role\n")],
    ),
    (
        "a settled link to a bunker",
        &[BUNKER_A, BUNKER_B],
        false,
        &[("settle a b", "")],
    ),
    (
        "a settled link that goes by the maps of a fork",
        &[FORK_A, B],
        false,
        &[("settle a b", "no 18 replaying b\n")],
    ),
    (
        "sites without a link",
        &[APART_A, B],
        false,
        &[("settle a b", "no 1 unknown b\n")],
    ),
];
