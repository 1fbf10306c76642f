// Plexes of a group with a replicated volume group over it that are detached and attached.
use crate::scripts::Row;

pub const ROWS: &[Row] = &[
    // Of a data volume and of the log: what is written meanwhile is copied to them again. The last plex of a volume stays.
    (
        "plexes are detached and attached again",
        "site a 2 1024\ndg a init\nvol a log1 64 mirrors=2 layout=concat log=none fmr=off rdpol=round\nvol a maps 8 mirrors=2 layout=concat log=none fmr=off rdpol=round\nvol a v 256 mirrors=2 layout=concat log=none fmr=off rdpol=round\nrvg a srl=log1 dcm=maps vols=v\nwrite a v 0 1 11\nplex a v 1 det\nwrite a v 0 1 22\nplex a v 0 det\nplex a log1 0 det\nwrite a v 70 1 33\nstatus a\nplex a v 1 att\nplex a v 1 att\nplex a log1 0 att\nplex a v 0 det\nread a v 0 1\nread a v 70 1\ncrash a 0\nrecover a\nread a v 0 1\nread a v 70 1\nplex a v 0 att\n",
        "done\ndone\ndone\ndone\ndone\ndone\ndone 1\ndone\ndone 2\nno 10 lastplex\ndone\ndone 3\nsite a up\ndisk 0 ok\ndisk 1 ok\nvol log1 64 none off\nplex 0 STALE\nplex 1 ACTIVE\nvol maps 8 none off\nplex 0 ACTIVE\nplex 1 ACTIVE\nvol v 256 none off\nplex 0 ACTIVE\nplex 1 STALE\nrvg primary 1 a head 3 mark consistent session 1\ndone 4\ndone 0\ndone 1\ndone\n22\n33\ndone\nrecovered 3\nsite a up\ndisk 0 ok\ndisk 1 ok\nvol log1 64 none off\nplex 0 ACTIVE\nplex 1 ACTIVE\nvol maps 8 none off\nplex 0 ACTIVE\nplex 1 ACTIVE\nvol v 256 none off\nplex 0 STALE\nplex 1 ACTIVE\nrvg primary 1 a head 3 mark consistent session 2\n22\n33\ndone 4\n",
    ),
    // A plex of another volume whose disk failed is attached, where the disk works again.
    (
        "a plex beside the data volumes is attached",
        "site a 2 1024\ndg a init\nvol a log1 64 mirrors=2 layout=concat log=none fmr=off rdpol=round\nvol a maps 8 mirrors=2 layout=concat log=none fmr=off rdpol=round\nvol a v 256 mirrors=2 layout=concat log=none fmr=off rdpol=round\nvol a w 64 mirrors=2 layout=concat log=none fmr=off rdpol=round\nwrite a w 3 1 44\nrvg a srl=log1 dcm=maps vols=v\nplex a w 0 det\nwrite a v 0 1 11\nread a w 3 1\nplex a w 1 det\nplex a w 0 att\nplex a w 1 det\nread a w 3 1\ncrash a 0\nrecover a\nread a w 3 1\nread a v 0 1\n",
        "done\ndone\ndone\ndone\ndone\ndone\ndone\ndone\ndone\ndone 1\n44\nno 10 lastplex\ndone 1\ndone\n44\ndone\nrecovered 1\nsite a up\ndisk 0 ok\ndisk 1 ok\nvol log1 64 none off\nplex 0 ACTIVE\nplex 1 ACTIVE\nvol maps 8 none off\nplex 0 ACTIVE\nplex 1 ACTIVE\nvol v 256 none off\nplex 0 ACTIVE\nplex 1 ACTIVE\nvol w 64 none off\nplex 0 ACTIVE\nplex 1 STALE\nrvg primary 1 a head 1 mark consistent session 2\n44\n11\n",
    ),
    // The fuse runs out in a detach: the site is down, and comes up with its writes.
    (
        "a detach is cut off",
        "site a 2 1024\ndg a init\nvol a log1 64 mirrors=2 layout=concat log=none fmr=off rdpol=round\nvol a maps 8 mirrors=2 layout=concat log=none fmr=off rdpol=round\nvol a v 256 mirrors=2 layout=concat log=none fmr=off rdpol=round\nrvg a srl=log1 dcm=maps vols=v\nwrite a v 0 1 11\nfuse a 0 0\nplex a v 1 det\nplex a v 1 att\nread a v 0 1\nrecover a\nread a v 0 1\nwrite a v 0 1 22\n",
        "done\ndone\ndone\ndone\ndone\ndone\ndone 1\ndone\nno 6 down\nno 6 down\nno 6 down\nrecovered 1\nsite a up\ndisk 0 ok\ndisk 1 ok\nvol log1 64 none off\nplex 0 ACTIVE\nplex 1 ACTIVE\nvol maps 8 none off\nplex 0 ACTIVE\nplex 1 ACTIVE\nvol v 256 none off\nplex 0 ACTIVE\nplex 1 ACTIVE\nrvg primary 1 a head 1 mark consistent session 2\n11\ndone 2\n",
    ),
    // The disk of a plex fails: it is detached, and attached once the disk is back.
    (
        "a plex of a failed disk is detached",
        "site a 2 1024\ndg a init\nvol a log1 64 mirrors=2 layout=concat log=none fmr=off rdpol=round\nvol a maps 8 mirrors=2 layout=concat log=none fmr=off rdpol=round\nvol a v 256 mirrors=2 layout=concat log=none fmr=off rdpol=round\nrvg a srl=log1 dcm=maps vols=v\nwrite a v 0 1 11\ndisk a 1 fail\nplex a v 1 det\nplex a v 0 det\nread a v 0 1\ncrash a 0\ndisk a 1 ok\nrecover a\nplex a v 1 att\nplex a v 0 det\nread a v 0 2\n",
        "done\ndone\ndone\ndone\ndone\ndone\ndone 1\ndone\ndone\nno 10 lastplex\n11\ndone\ndone\nrecovered 1\nsite a up\ndisk 0 ok\ndisk 1 ok\nvol log1 64 none off\nplex 0 ACTIVE\nplex 1 ACTIVE\nvol maps 8 none off\nplex 0 ACTIVE\nplex 1 ACTIVE\nvol v 256 none off\nplex 0 ACTIVE\nplex 1 STALE\nrvg primary 1 a head 1 mark consistent session 2\ndone 4\ndone\n11\n00\n",
    ),
    // The disk fails that an attach reads: it is refused, and done once the disk is back.
    (
        "an attach is refused where nothing can be copied",
        "site a 2 1024\ndg a init\nvol a log1 64 mirrors=2 layout=concat log=none fmr=off rdpol=round\nvol a maps 8 mirrors=2 layout=concat log=none fmr=off rdpol=round\nvol a v 256 mirrors=2 layout=concat log=none fmr=off rdpol=round\nrvg a srl=log1 dcm=maps vols=v\nwrite a v 0 1 11\napply a 1\nplex a v 1 det\ndisk a 0 fail\nplex a v 1 att\ndisk a 0 ok\nplex a v 1 att\nplex a v 0 det\nread a v 0 2\nwrite a v 1 1 22\n",
        "done\ndone\ndone\ndone\ndone\ndone\ndone 1\ndone 1\ndone\ndone\nno 7 device 0\ndone\ndone 4\ndone\n11\n00\ndone 2\n",
    ),
    // At a site that a failing disk halted plexes are detached and attached as at one that runs. Its replicated volume group is halted still, and has its write behind a crash.
    (
        "plexes of a halted site are detached and attached",
        "site a 2 1024\ndg a init\nvol a log1 64 mirrors=2 layout=concat log=none fmr=off rdpol=round\nvol a maps 16 mirrors=2 layout=concat log=none fmr=off rdpol=round\nvol a v 256 mirrors=2 layout=concat log=none fmr=off rdpol=round\nvol a w 64 mirrors=1 layout=concat log=none fmr=off rdpol=round\nrvg a srl=log1 dcm=maps vols=v,w\nwrite a w 0 1 11\ndisk a 0 fail\napply a 1\ndisk a 0 ok\nplex a v 1 det\nplex a v 0 det\nplex a v 1 att\nplex a log1 0 det\nplex a log1 0 att\nplex a maps 1 det\nplex a w 0 det\nread a w 0 1\nwrite a v 0 1 22\ncrash a 0\nrecover a\nread a w 0 2\nread a v 0 1\nwrite a v 0 1 22\n",
        "done\ndone\ndone\ndone\ndone\ndone\ndone\ndone 1\ndone\nno 7 device 0\ndone\ndone\nno 10 lastplex\ndone 4\ndone\ndone 1\ndone\nno 10 lastplex\nno 20 halted 0\nno 20 halted 0\ndone\nrecovered 1\nsite a up\ndisk 0 ok\ndisk 1 ok\nvol log1 64 none off\nplex 0 ACTIVE\nplex 1 ACTIVE\nvol maps 16 none off\nplex 0 ACTIVE\nplex 1 STALE\nvol v 256 none off\nplex 0 ACTIVE\nplex 1 ACTIVE\nvol w 64 none off\nplex 0 ACTIVE\nrvg primary 1 a head 1 mark consistent session 2\n11\n00\n00\ndone 2\n",
    ),
];
