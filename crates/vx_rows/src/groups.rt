// Sites whose disks are a group of mirrors.
use crate::scripts::{Part, Row};

// Word for word.
pub const ROWS: &[Row] = &[
    // A plex is detached under a fuse, and its group comes back without it, once the disk of the other one works again.
    (
        "a group comes back without a plex that was detached",
        "site a 2 1024\ndg a init\nvol a v 64 mirrors=2 layout=concat log=none fmr=off rdpol=round\nfuse a 4 0\nplex a v 1 det\ndisk a 0 fail\nrecover a\ndisk a 0 ok\nrecover a\n",
        "done\ndone\ndone\ndone\nno 6 down\ndone\nno 8 missing 0\ndone\nrecovered\nsite a up\ndisk 0 ok\ndisk 1 ok\nvol v 64 none off\nplex 0 ACTIVE\nplex 1 STALE\n",
    ),
    // A plex that missed a write is copied once, and space that no disk has is refused.
    (
        "a plex that missed a write is attached again",
        "site a 3 1024\ndg a init\nvol a v 256 mirrors=2 layout=concat log=none fmr=off rdpol=round\ndisk a 1 fail\nwrite a v 70 1 bb\ndisk a 1 ok\ndg a deport\ndg a import\nplex a v 1 att\nplex a v 1 att\nvol a w 2000 mirrors=1 layout=concat log=none fmr=off rdpol=round\nvol a s 100 mirrors=1 layout=stripe ncol=2 width=16 log=none fmr=off rdpol=round\n",
        "done\ndone\ndone\ndone\ndone\ndone\ndone\ndone\ndone 4\ndone 0\nno 11 space 2000 1024\ndone\n",
    ),
    // With a map an attach copies the regions that its plex missed, and no others: behind a deport and an import too, and again of the other plex. Behind a
    // crash the map counts for nothing.
    (
        "an attach copies the regions that were missed",
        "site a 3 1024\ndg a init\nvol a v 256 mirrors=2 layout=concat log=none fmr=on rdpol=round\nwrite a v 10 1 aa\nplex a v 1 det\nwrite a v 70 1 bb\ndg a deport\ndg a import\nwrite a v 200 1 cc\nplex a v 1 att\nplex a v 0 det\nwrite a v 130 1 dd\nplex a v 0 att\nplex a v 0 att\nplex a v 1 det\ncrash a 0\nrecover a\nplex a v 1 att\n",
        "done\ndone\ndone\ndone\ndone\ndone\ndone\ndone\ndone\ndone 2\ndone\ndone\ndone 1\ndone 0\ndone\ndone\nrecovered\nsite a up\ndisk 0 ok\ndisk 1 ok\ndisk 2 ok\nvol v 256 none on\nplex 0 ACTIVE\nplex 1 STALE\ndone 4\n",
    ),
    // A plex whose disk fails still as its group is deported has missed what its map has, and no more.
    (
        "a plex whose disk fails in a deport keeps its map",
        "site a 3 1024\ndg a init\nvol a v 256 mirrors=2 layout=concat log=none fmr=on rdpol=round\nwrite a v 10 1 aa\ndisk a 1 fail\nwrite a v 70 1 bb\ndg a deport\ndisk a 1 ok\ndg a import\nplex a v 1 att\nplex a v 1 att\n",
        "done\ndone\ndone\ndone\ndone\ndone\ndone\ndone\ndone\ndone 1\ndone 0\n",
    ),
    // The refusals of the lines of a group, where each stands.
    (
        "lines of a group are refused",
        "site a 2 1024\ndg a deport\ndg a init\ndg a init\nvol a v 64 mirrors=3 layout=concat log=none fmr=off rdpol=round\nvol a v 64 mirrors=2 layout=concat log=none fmr=off rdpol=round\nvol a v 64 mirrors=1 layout=concat log=none fmr=off rdpol=round\nplex a w 0 det\nplex a v 2 det\nplex a v 0 det\nplex a v 1 det\nwrite a v 63 2 11\ndg a import\ndg a deport\nread a v 0 1\nrecover a\ncrash a 0\ndg a import\nread a v 0 1\ncrash a 0\ndg a import\nread a v 0 1\n",
        "done\nno 6 down\ndone\nno 5 role\nno 11 space 64 0\ndone\nno 2 exists v\nno 1 unknown w\nno 1 unknown 2\ndone\nno 10 lastplex\nno 3 range\nno 5 role\ndone\nno 6 down\nno 5 role\nno 6 down\ndone\n00\ndone\nno 5 role\nno 6 down\n",
    ),
];

// By how the replies begin and end.
pub const PARTS: &[Part] = &[
    // A log that could be neither marked nor lost keeps no group from coming back: its volume is copied whole.
    (
        "a group with a log that was not lost comes back",
        "site a 2 1024\ndg a init\nvol a v 256 mirrors=2 layout=concat log=drl fmr=off rdpol=round\nwrite a v 0 1 11\ndisk a 0 fail\ndisk a 1 fail\nwrite a v 100 1 22\ndisk a 0 ok\ndisk a 1 ok\ndg a deport\ndg a import\nread a v 0 1\nread a v 100 1\n",
        "done\ndone\ndone\ndone\ndone\ndone\nno 7 device ",
        "\ndone\ndone\ndone\ndone\n11\n00\n",
    ),
    // A fuse that lets no call of a write pass: nothing of it is kept.
    (
        "nothing is kept of a write that was not begun",
        "site a 2 1024\ndg a init\nvol a v 256 mirrors=2 layout=concat log=none fmr=off rdpol=round\nfuse a 0 0\nwrite a v 0 1 11\nrecover a\n",
        "done\ndone\ndone\ndone\nno 6 down\nrecovered\n",
        "\nkept v 0 0\n",
    ),
];
