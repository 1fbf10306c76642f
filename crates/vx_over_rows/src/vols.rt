// Volumes that are made in a group with a replicated volume group over it.
use crate::scripts::Row;

pub const ROWS: &[Row] = &[
    // A volume holds zeros, and is one of the group: its plexes are detached and attached, and it is there behind a crash.
    (
        "a volume is made beside the data volumes",
        "site a 2 1024\ndg a init\nvol a log1 64 mirrors=2 layout=concat log=none fmr=off rdpol=round\nvol a maps 8 mirrors=2 layout=concat log=none fmr=off rdpol=round\nvol a v 256 mirrors=2 layout=concat log=none fmr=off rdpol=round\nrvg a srl=log1 dcm=maps vols=v\nwrite a v 0 1 11\nvol a w 64 mirrors=2 layout=concat log=none fmr=off rdpol=round\nread a w 3 1\nread a v 0 1\nplex a w 0 det\nplex a w 1 det\nplex a w 0 att\nwrite a v 1 1 22\nstatus a\ncrash a 0\nrecover a\nread a w 63 1\nread a v 0 2\nwrite a v 2 1 33\n",
        "done\ndone\ndone\ndone\ndone\ndone\ndone 1\ndone\n00\n11\ndone\nno 10 lastplex\ndone 1\ndone 2\nsite a up\ndisk 0 ok\ndisk 1 ok\nvol log1 64 none off\nplex 0 ACTIVE\nplex 1 ACTIVE\nvol maps 8 none off\nplex 0 ACTIVE\nplex 1 ACTIVE\nvol v 256 none off\nplex 0 ACTIVE\nplex 1 ACTIVE\nvol w 64 none off\nplex 0 ACTIVE\nplex 1 ACTIVE\nrvg primary 1 a head 2 mark consistent session 1\ndone\nrecovered 2\nsite a up\ndisk 0 ok\ndisk 1 ok\nvol log1 64 none off\nplex 0 ACTIVE\nplex 1 ACTIVE\nvol maps 8 none off\nplex 0 ACTIVE\nplex 1 ACTIVE\nvol v 256 none off\nplex 0 ACTIVE\nplex 1 ACTIVE\nvol w 64 none off\nplex 0 ACTIVE\nplex 1 ACTIVE\nrvg primary 1 a head 2 mark consistent session 2\n00\n11\n22\ndone 3\n",
    ),
    // What is refused there, by the tests or for want of room, leaves all as it was.
    (
        "a volume is refused beside the data volumes",
        "site a 2 1024\ndg a init\nvol a log1 64 mirrors=2 layout=concat log=none fmr=off rdpol=round\nvol a maps 8 mirrors=2 layout=concat log=none fmr=off rdpol=round\nvol a v 256 mirrors=2 layout=concat log=none fmr=off rdpol=round\nrvg a srl=log1 dcm=maps vols=v\nwrite a v 0 1 11\nvol a w 64 mirrors=3 layout=concat log=none fmr=off rdpol=round\nvol a log1 64 mirrors=1 layout=concat log=none fmr=off rdpol=round\nvol a w 0 mirrors=1 layout=concat log=none fmr=off rdpol=round\nvol a w 64 mirrors=1 layout=concat log=none fmr=off rdpol=prefer:1\nread a w 0 1\nread a v 0 1\nvol a w 64 mirrors=1 layout=stripe ncol=2 width=16 log=none fmr=off rdpol=prefer:0\nvol a w 64 mirrors=1 layout=concat log=none fmr=off rdpol=round\nread a w 63 1\nwrite a v 0 1 22\nread a v 0 1\n",
        "done\ndone\ndone\ndone\ndone\ndone\ndone 1\nno 11 space 64 0\nno 2 exists log1\nno 4 size\nno 1 unknown 1\nno 1 unknown w\n11\ndone\nno 2 exists w\n00\ndone 2\n22\n",
    ),
    // At a site that a failing disk halted a volume is made as at one that runs.
    (
        "a volume is made at a halted site",
        "site a 2 1024\ndg a init\nvol a log1 64 mirrors=2 layout=concat log=none fmr=off rdpol=round\nvol a maps 16 mirrors=2 layout=concat log=none fmr=off rdpol=round\nvol a v 256 mirrors=2 layout=concat log=none fmr=off rdpol=round\nvol a w 64 mirrors=1 layout=concat log=none fmr=off rdpol=round\nrvg a srl=log1 dcm=maps vols=v,w\nwrite a w 0 1 11\ndisk a 0 fail\napply a 1\ndisk a 0 ok\nvol a u 64 mirrors=2 layout=concat log=none fmr=off rdpol=round\nvol a u 64 mirrors=1 layout=concat log=none fmr=off rdpol=round\nplex a u 0 det\nread a u 0 1\ncrash a 0\nrecover a\nread a u 63 1\nread a w 0 2\n",
        "done\ndone\ndone\ndone\ndone\ndone\ndone\ndone 1\ndone\nno 7 device 0\ndone\ndone\nno 2 exists u\ndone\nno 20 halted 0\ndone\nrecovered 1\nsite a up\ndisk 0 ok\ndisk 1 ok\nvol log1 64 none off\nplex 0 ACTIVE\nplex 1 ACTIVE\nvol maps 16 none off\nplex 0 ACTIVE\nplex 1 ACTIVE\nvol v 256 none off\nplex 0 ACTIVE\nplex 1 ACTIVE\nvol w 64 none off\nplex 0 ACTIVE\nvol u 64 none off\nplex 0 STALE\nplex 1 ACTIVE\nrvg primary 1 a head 1 mark consistent session 2\n00\n11\n00\n",
    ),
];
