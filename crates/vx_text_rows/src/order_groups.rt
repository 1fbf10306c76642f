// What lines of disk groups are refused with: of each refusal one row in which all later ones hold too.
use crate::order::{Has, Rows, Stands};
use vx_model::{Role, SiteState};
use vx_order::VolumeKind;

const VOLUMES: Has = Has::Volumes(&[
    (b"l", 8, VolumeKind::Plain, 1),
    (b"m", 8, VolumeKind::Plain, 1),
    (b"v", 256, VolumeKind::Plain, 1),
    (b"w", 300000, VolumeKind::Plain, 1),
]);

const G: Stands = (b"g", SiteState::Up, 2, 1024, true, VOLUMES, None, &[]);

const HALTED_H: Stands = (
    b"h",
    SiteState::Up,
    2,
    1024,
    true,
    VOLUMES,
    Some((Role::Primary, 1, 0, 0, 6, Some(1))),
    &[],
);

const RAW_R: Stands = (
    b"r",
    SiteState::Up,
    2,
    64,
    false,
    Has::Nothing,
    Some((Role::Primary, 1, 0, 0, 6, None)),
    &[],
);

const DEPORTED_D: Stands = (
    b"d",
    SiteState::Deported,
    2,
    1024,
    true,
    Has::Nothing,
    None,
    &[],
);

const DOWN_O: Stands = (
    b"o",
    SiteState::Down,
    2,
    1024,
    true,
    Has::Nothing,
    None,
    &[],
);

const BARE_B: Stands = (
    b"b",
    SiteState::Bare,
    2,
    1024,
    false,
    Has::Nothing,
    None,
    &[],
);

const SMALL_S: Stands = (
    b"s",
    SiteState::Bare,
    2,
    1023,
    false,
    Has::Nothing,
    None,
    &[],
);

// As many volumes as a group may have.
const FULL_F: Stands = (
    b"f",
    SiteState::Up,
    2,
    1024,
    true,
    Has::Volumes(&[
        (b"l", 8, VolumeKind::Plain, 1),
        (b"m", 8, VolumeKind::Plain, 1),
        (b"v", 256, VolumeKind::Plain, 1),
        (b"w", 300000, VolumeKind::Plain, 1),
        (b"x", 8, VolumeKind::Plain, 28),
    ]),
    None,
    &[],
);

// A group with a replicated volume group: a log l, a volume m for maps, a data volume v, and p, which is none of its volumes.
const KINDS_K: Stands = (
    b"k",
    SiteState::Up,
    2,
    1024,
    true,
    Has::Volumes(&[
        (b"l", 8, VolumeKind::Srl, 1),
        (b"m", 8, VolumeKind::Map, 1),
        (b"v", 8, VolumeKind::Data, 1),
        (b"p", 8, VolumeKind::Plain, 1),
    ]),
    Some((Role::Primary, 1, 0, 0, 6, None)),
    &[],
);

/// A group g, a group h with a replicated volume group that is halted, a raw set r, a deported site d, a site o that is down, and
/// two bare sites, of which the disks of s are too small.
pub const SITES: [Stands; 7] = [G, HALTED_H, RAW_R, DEPORTED_D, DOWN_O, BARE_B, SMALL_S];

const WITH_KINDS: [Stands; 8] = [
    G, HALTED_H, RAW_R, DEPORTED_D, DOWN_O, BARE_B, SMALL_S, KINDS_K,
];

const WITH_FULL: [Stands; 8] = [
    G, HALTED_H, RAW_R, DEPORTED_D, DOWN_O, BARE_B, SMALL_S, FULL_F,
];

pub const ROWS: &[Rows] = &[
    (
        "groups as a whole",
        &SITES,
        false,
        &[
            ("dg z init", "no 1 unknown z\n"),
            ("dg r init", "no 5 role\n"),
            ("dg d init", "no 5 role\n"),
            ("dg s init", "no 4 size\n"),
            ("dg b init", ""),
            ("dg z import", "no 1 unknown z\n"),
            ("dg o import", "no 5 role\n"),
            ("dg g import", "no 5 role\n"),
            ("dg d import", ""),
            ("dg z deport", "no 1 unknown z\n"),
            ("dg d deport", "no 6 down\n"),
            ("dg h deport", "no 20 halted 1\n"),
            ("dg r deport", "no 5 role\n"),
            ("dg g deport", ""),
            ("recover d", "no 5 role\n"),
            ("recover o", ""),
            ("apply o 1", "no 6 down\n"),
            ("apply h 1", "no 20 halted 1\n"),
            ("apply g 1", "no 5 role\n"),
            ("apply r 1", ""),
        ],
    ),
    (
        "new volumes in order",
        &WITH_FULL,
        false,
        &[
            (
                "vol z v 0 mirrors=9 layout=stripe ncol=9 width=0 log=none fmr=off rdpol=prefer:9",
                "no 1 unknown z\n",
            ),
            (
                "vol o v 0 mirrors=9 layout=stripe ncol=9 width=0 log=none fmr=off rdpol=prefer:9",
                "no 6 down\n",
            ),
            (
                "vol r v 0 mirrors=9 layout=stripe ncol=9 width=0 log=none fmr=off rdpol=prefer:9",
                "no 5 role\n",
            ),
            (
                "vol f v 0 mirrors=9 layout=stripe ncol=9 width=0 log=none fmr=off rdpol=prefer:9",
                "no 1 unknown 9\n",
            ),
            (
                "vol f v 0 mirrors=9 layout=stripe ncol=9 width=0 log=none fmr=off rdpol=prefer:8",
                "no 2 exists v\n",
            ),
            (
                "vol f n 0 mirrors=9 layout=stripe ncol=9 width=0 log=none fmr=off rdpol=round",
                "no 19 limit volumes 32\n",
            ),
            (
                "vol g n 0 mirrors=9 layout=stripe ncol=9 width=0 log=none fmr=off rdpol=round",
                "no 19 limit plexes 8\n",
            ),
            (
                "vol h n 0 mirrors=8 layout=stripe ncol=9 width=0 log=none fmr=off rdpol=round",
                "no 4 size\n",
            ),
        ],
    ),
    (
        "shapes of volumes",
        &SITES,
        false,
        &[
            (
                "vol g n 0 mirrors=1 layout=concat log=none fmr=off rdpol=round",
                "no 4 size\n",
            ),
            (
                "vol g n 1 mirrors=0 layout=concat log=none fmr=off rdpol=round",
                "no 4 size\n",
            ),
            (
                "vol g n 1 mirrors=1 layout=concat log=none fmr=off rdpol=round",
                "",
            ),
            (
                "vol g n 1099511627776 mirrors=8 layout=concat log=none fmr=off rdpol=round",
                "",
            ),
            (
                "vol g n 1099511627777 mirrors=8 layout=concat log=none fmr=off rdpol=round",
                "no 4 size\n",
            ),
            (
                "vol g n 8 mirrors=2 layout=stripe ncol=0 width=16 log=none fmr=off rdpol=round",
                "no 4 size\n",
            ),
            (
                "vol g n 8 mirrors=2 layout=stripe ncol=9 width=16 log=none fmr=off rdpol=round",
                "no 4 size\n",
            ),
            (
                "vol g n 8 mirrors=2 layout=stripe ncol=8 width=0 log=none fmr=off rdpol=round",
                "no 4 size\n",
            ),
            (
                "vol g n 8 mirrors=2 layout=stripe ncol=8 width=4294967296 log=none fmr=off rdpol=round",
                "no 4 size\n",
            ),
            (
                "vol g n 8 mirrors=2 layout=stripe ncol=1 width=4294967295 log=none fmr=off rdpol=round",
                "",
            ),
        ],
    ),
    (
        "plexes in order",
        &SITES,
        false,
        &[
            ("plex z n 2 det", "no 1 unknown z\n"),
            ("plex o n 2 det", "no 6 down\n"),
            ("plex r n 2 det", "no 5 role\n"),
            ("plex g n 2 det", "no 1 unknown n\n"),
            ("plex g v 2 det", "no 1 unknown 2\n"),
            ("plex g v 1 det", ""),
            ("plex r n 2 att", "no 5 role\n"),
            ("plex g n 2 att", "no 1 unknown n\n"),
            ("plex g v 2 att", "no 1 unknown 2\n"),
            ("plex h v 1 att", ""),
        ],
    ),
    (
        "replicated volume groups in order",
        &SITES,
        false,
        &[
            ("rvg z srl=x dcm=y vols=e,e", "no 1 unknown z\n"),
            ("rvg o srl=x dcm=y vols=e,e", "no 6 down\n"),
            ("rvg r srl=x dcm=y vols=e,e", "no 5 role\n"),
            ("rvg h srl=x dcm=y vols=e,e", "no 1 unknown x\n"),
            ("rvg h srl=l dcm=y vols=e,e", "no 1 unknown y\n"),
            ("rvg h srl=l dcm=m vols=e,e", "no 1 unknown e\n"),
            ("rvg h srl=l dcm=m vols=v,v", "no 2 exists rvg\n"),
            ("rvg g srl=l dcm=m vols=v,v", "no 4 size\n"),
            ("rvg g srl=l dcm=l vols=v", "no 4 size\n"),
            ("rvg g srl=v dcm=m vols=v", "no 4 size\n"),
            ("rvg g srl=l dcm=v vols=v", "no 4 size\n"),
            ("rvg g srl=l dcm=m vols=w", "no 4 size\n"),
            ("rvg g srl=l dcm=m vols=v", ""),
        ],
    ),
    (
        "calls by the kinds of volumes",
        &WITH_KINDS,
        false,
        &[
            ("write h n 8 0 01", "no 20 halted 1\n"),
            ("write k l 8 0 01", "no 5 role\n"),
            ("write k m 8 0 01", "no 5 role\n"),
            ("write k n 8 0 01", "no 1 unknown n\n"),
            ("write k p 8 17 01", "no 4 size\n"),
            ("write k v 8 6 01", "no 4 size\n"),
            ("write k p 2 7 01", "no 3 range\n"),
            ("write k v 4 5 01", "no 3 range\n"),
            ("write k p 1 7 01", ""),
            ("write k v 3 5 01", ""),
            ("write g v 250 6 01", ""),
            ("show k l 0 8", ""),
        ],
    ),
];
