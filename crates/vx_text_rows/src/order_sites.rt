// What lines of sites, writes and reads are refused with.
use crate::order::{Has, Rows, Stands};
use vx_model::{Role, SiteState};

const A: Stands = (
    b"a",
    SiteState::Up,
    3,
    64,
    false,
    Has::D1,
    Some((Role::Primary, 0, 0, 0, 62, None)),
    &[],
);

const SHORT_B: Stands = (
    b"b",
    SiteState::Up,
    3,
    10,
    false,
    Has::D1,
    Some((Role::Primary, 0, 0, 0, 8, None)),
    &[],
);

const HALTED_A: Stands = (
    b"a",
    SiteState::Up,
    3,
    64,
    false,
    Has::D1,
    Some((Role::Primary, 0, 0, 0, 62, Some(0))),
    &[],
);

const SECONDARY_B: Stands = (
    b"b",
    SiteState::Up,
    3,
    64,
    false,
    Has::D1,
    Some((Role::Secondary, 0, 0, 0, 62, None)),
    &[],
);

const HANDING_C: Stands = (
    b"c",
    SiteState::Up,
    3,
    64,
    false,
    Has::D1,
    Some((Role::Handing { to: 1 }, 0, 0, 0, 62, None)),
    &[],
);

const BARE_D: Stands = (b"d", SiteState::Bare, 3, 64, false, Has::Nothing, None, &[]);

const DOWN_E: Stands = (b"e", SiteState::Down, 3, 64, false, Has::Nothing, None, &[]);

const TWO_DISKS_B: Stands = (b"b", SiteState::Bare, 2, 64, false, Has::Nothing, None, &[]);

const FOUR_DISKS_C: Stands = (b"c", SiteState::Bare, 4, 8, false, Has::Nothing, None, &[]);

const LEAST_D: Stands = (b"d", SiteState::Bare, 3, 8, false, Has::Nothing, None, &[]);

const ONE_E: Stands = (b"e", SiteState::Bare, 1, 8, false, Has::Nothing, None, &[]);

const ONE_F: Stands = (b"f", SiteState::Bare, 1, 8, false, Has::Nothing, None, &[]);

const ONE_G: Stands = (b"g", SiteState::Bare, 1, 8, false, Has::Nothing, None, &[]);

const ONE_H: Stands = (b"h", SiteState::Bare, 1, 8, false, Has::Nothing, None, &[]);

// One site with a raw set and three bare ones, of which the last can be made one.
const FOUR: [Stands; 4] = [A, TWO_DISKS_B, FOUR_DISKS_C, LEAST_D];

pub const ROWS: &[Rows] = &[
    (
        "writes in order",
        &[A, SHORT_B],
        false,
        &[
            ("write a d1 63 1 01", ""),
            ("write a d1 63 2 01", "no 3 range\n"),
            ("write a d1 0 0 01", "no 4 size\n"),
            ("write a d1 0 17 01", "no 4 size\n"),
            ("write a d1 63 17 01", "no 4 size\n"),
            ("write a d1 0 16 01", ""),
            ("write a d1 18446744073709551615 16 01", "no 3 range\n"),
            ("write b d1 0 7 01", ""),
            ("write b d1 0 8 01", "no 4 size\n"),
            ("read a d2 0 1", "no 1 unknown d2\n"),
            ("read c d1 0 1", "no 1 unknown c\n"),
        ],
    ),
    (
        "how a site stands",
        &[HALTED_A, SECONDARY_B, HANDING_C, BARE_D, DOWN_E],
        false,
        &[
            ("write a d1 0 1 01", "no 20 halted 0\n"),
            ("read a d2 0 1", "no 20 halted 0\n"),
            ("read b d1 0 1", "no 5 role\n"),
            ("read b zz 0 1", "no 1 unknown zz\n"),
            ("show b d1 0 2", ""),
            ("write c d1 0 1 01", "no 5 role\n"),
            ("write d d1 0 1 01", "no 1 unknown d1\n"),
            ("write e d1 0 1 01", "no 6 down\n"),
        ],
    ),
    (
        "new sites",
        &FOUR,
        false,
        &[
            ("site a 9 64", "no 2 exists a\n"),
            ("site e 9 64", "no 19 limit disks 8\n"),
            ("site e 0 16385", "no 19 limit blocks 16384\n"),
            ("site e 0 8", "no 4 size\n"),
            ("site e 1 7", "no 4 size\n"),
            ("site e 8 16384", ""),
        ],
    ),
    (
        "a new site whose disks are files",
        &FOUR,
        true,
        &[("site e 1 4194304", "")],
    ),
    (
        "a ninth site",
        &[
            A,
            TWO_DISKS_B,
            FOUR_DISKS_C,
            LEAST_D,
            ONE_E,
            ONE_F,
            ONE_G,
            ONE_H,
        ],
        true,
        &[("site i 9 1", "no 19 limit sites 8\n")],
    ),
    (
        "raw sets",
        &FOUR,
        false,
        &[
            ("raw a", "no 5 role\n"),
            ("raw b", "no 4 size\n"),
            ("raw c", "no 4 size\n"),
            ("raw d", ""),
        ],
    ),
    (
        "a status and a disk",
        &FOUR,
        false,
        &[
            ("status b", ""),
            ("status z", "no 1 unknown z\n"),
            ("disk a 3 fail", "no 1 unknown 3\n"),
        ],
    ),
];
