// A deport of a group with a replicated volume group over it.
use crate::scripts::{Part, Row};

pub const ROWS: &[Row] = &[
    // The site is down to every line but an import.
    (
        "a site is deported",
        "site a 2 1024\ndg a init\nvol a log1 64 mirrors=2 layout=concat log=none fmr=off rdpol=round\nvol a maps 8 mirrors=2 layout=concat log=none fmr=off rdpol=round\nvol a v 256 mirrors=2 layout=concat log=none fmr=off rdpol=round\nrvg a srl=log1 dcm=maps vols=v\nwrite a v 0 1 11\ndg a deport\nread a v 0 1\nrecover a\ncrash a 0\ndg a deport\ndg a import\nread a v 0 1\n",
        "done\ndone\ndone\ndone\ndone\ndone\ndone 1\ndone\nno 6 down\nno 5 role\nno 6 down\nno 6 down\ndone\n11\n",
    ),
    // A mirror fails in it: the deport is done, as the other one takes what it writes.
    (
        "a deport bears a mirror that fails",
        "site a 2 1024\ndg a init\nvol a log1 64 mirrors=2 layout=concat log=none fmr=off rdpol=round\nvol a maps 8 mirrors=2 layout=concat log=none fmr=off rdpol=round\nvol a v 256 mirrors=2 layout=concat log=none fmr=off rdpol=round\nrvg a srl=log1 dcm=maps vols=v\nwrite a v 0 1 11\ndisk a 1 fail\ndg a deport\nread a v 0 1\ndisk a 1 ok\ndg a import\nread a v 0 1\n",
        "done\ndone\ndone\ndone\ndone\ndone\ndone 1\ndone\ndone\nno 6 down\ndone\ndone\n11\n",
    ),
    // A site that is halted is not deported, until it has come up again.
    (
        "a halted site is not deported",
        "site a 2 1024\ndg a init\nvol a log1 64 mirrors=2 layout=concat log=none fmr=off rdpol=round\nvol a maps 8 mirrors=2 layout=concat log=none fmr=off rdpol=round\nvol a v 64 mirrors=1 layout=concat log=none fmr=off rdpol=round\nrvg a srl=log1 dcm=maps vols=v\nwrite a v 0 1 11\ndisk a 0 fail\napply a 1\ndg a deport\ndisk a 0 ok\ndg a deport\nrecover a\nread a v 0 2\ndg a deport\nstatus a\n",
        "done\ndone\ndone\ndone\ndone\ndone\ndone 1\ndone\nno 7 device 0\nno 20 halted 0\ndone\nno 20 halted 0\nrecovered 1\nsite a up\ndisk 0 ok\ndisk 1 ok\nvol log1 64 none off\nplex 0 ACTIVE\nplex 1 ACTIVE\nvol maps 8 none off\nplex 0 ACTIVE\nplex 1 ACTIVE\nvol v 64 none off\nplex 0 ACTIVE\nrvg primary 1 a head 1 mark consistent session 2\n11\n00\ndone\nsite a deported\n",
    ),
];

// By how the replies begin and end.
pub const PARTS: &[Part] = &[
    // Where no disk works it is refused, and the site goes on as it was.
    (
        "a deport without disks is refused",
        "site a 2 1024\ndg a init\nvol a log1 64 mirrors=2 layout=concat log=none fmr=off rdpol=round\nvol a maps 8 mirrors=2 layout=concat log=none fmr=off rdpol=round\nvol a v 256 mirrors=2 layout=concat log=none fmr=off rdpol=round\nrvg a srl=log1 dcm=maps vols=v\nwrite a v 0 1 11\ndisk a 1 fail\ndisk a 0 fail\ndg a deport\ndisk a 1 ok\ndisk a 0 ok\nread a v 0 1\nwrite a v 1 1 22\ndg a deport\nstatus a\n",
        "done\ndone\ndone\ndone\ndone\ndone\ndone 1\ndone\ndone\nno 7 device ",
        "\ndone\ndone\n11\ndone 2\ndone\nsite a deported\n",
    ),
];
