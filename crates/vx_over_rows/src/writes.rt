// Writes to volumes of a group that the replicated volume group over it does not have.
use crate::scripts::Row;

pub const ROWS: &[Row] = &[
    // They are as those of a group alone: they are in no log, and nothing is sent of them.
    (
        "other volumes are written",
        "site a 2 1024\ndg a init\nvol a log1 64 mirrors=2 layout=concat log=none fmr=off rdpol=round\nvol a maps 8 mirrors=2 layout=concat log=none fmr=off rdpol=round\nvol a v 256 mirrors=2 layout=concat log=none fmr=off rdpol=round\nvol a w 64 mirrors=2 layout=concat log=none fmr=off rdpol=round\nrvg a srl=log1 dcm=maps vols=v\nwrite a w 3 2 11\nwrite a v 0 1 22\nwrite a w 4 1 33\nread a w 3 3\ncrash a 0\nwrite a w 3 1 44\nrecover a\nread a w 3 3\nread a v 0 1\n",
        "done\ndone\ndone\ndone\ndone\ndone\ndone\ndone\ndone 1\ndone\n11\n33\n00\ndone\nno 6 down\nrecovered 1\nsite a up\ndisk 0 ok\ndisk 1 ok\nvol log1 64 none off\nplex 0 ACTIVE\nplex 1 ACTIVE\nvol maps 8 none off\nplex 0 ACTIVE\nplex 1 ACTIVE\nvol v 256 none off\nplex 0 ACTIVE\nplex 1 ACTIVE\nvol w 64 none off\nplex 0 ACTIVE\nplex 1 ACTIVE\nrvg primary 1 a head 1 mark consistent session 2\n11\n33\n00\n22\n",
    ),
    // A disk fails in one: it is done with the other plex.
    (
        "a mirror fails in such a write",
        "site a 2 1024\ndg a init\nvol a log1 64 mirrors=2 layout=concat log=none fmr=off rdpol=round\nvol a maps 8 mirrors=2 layout=concat log=none fmr=off rdpol=round\nvol a v 256 mirrors=2 layout=concat log=none fmr=off rdpol=round\nvol a w 64 mirrors=2 layout=concat log=none fmr=off rdpol=round\nrvg a srl=log1 dcm=maps vols=v\ndisk a 1 fail\nwrite a w 0 1 11\nplex a w 0 det\nread a w 0 1\nwrite a v 0 1 22\nread a v 0 1\n",
        "done\ndone\ndone\ndone\ndone\ndone\ndone\ndone\ndone\nno 10 lastplex\n11\ndone 1\n22\n",
    ),
    // The disk fails that has the only plex: the write is refused, and the site goes on.
    (
        "such a write is refused where its last plex fails",
        "site a 2 1024\ndg a init\nvol a log1 64 mirrors=2 layout=concat log=none fmr=off rdpol=round\nvol a maps 8 mirrors=2 layout=concat log=none fmr=off rdpol=round\nvol a v 256 mirrors=2 layout=concat log=none fmr=off rdpol=round\nvol a w 64 mirrors=1 layout=concat log=none fmr=off rdpol=round\nrvg a srl=log1 dcm=maps vols=v\ndisk a 0 fail\nwrite a w 0 1 11\nwrite a v 0 1 22\nread a v 0 1\ndisk a 0 ok\nwrite a w 0 1 33\nread a w 0 1\n",
        "done\ndone\ndone\ndone\ndone\ndone\ndone\ndone\nno 7 device 0\ndone 1\n22\ndone\ndone\n33\n",
    ),
    // A plex that takes no part in such writes gets what it missed, and no more, where its volume has a map.
    (
        "a plex misses such writes",
        "site a 2 1024\ndg a init\nvol a l 8 mirrors=2 layout=concat log=none fmr=off rdpol=round\nvol a m 8 mirrors=2 layout=concat log=none fmr=off rdpol=round\nvol a v 16 mirrors=2 layout=concat log=none fmr=off rdpol=round\nvol a w 256 mirrors=2 layout=concat log=drl fmr=on rdpol=round\nrvg a srl=l dcm=m vols=v\nplex a w 1 det\nwrite a w 70 1 11\nwrite a w 200 2 22\nplex a w 1 att\nplex a w 0 det\nread a w 70 1\nread a w 200 2\nread a w 0 1\nplex a w 0 att\n",
        "done\ndone\ndone\ndone\ndone\ndone\ndone\ndone\ndone\ndone\ndone 2\ndone\n11\n22\n22\n00\ndone 0\n",
    ),
    // A site that is halted refuses them, and a recovery has all that was written.
    (
        "a halted site refuses such a write",
        "site a 2 1024\ndg a init\nvol a l 8 mirrors=2 layout=concat log=none fmr=off rdpol=round\nvol a m 8 mirrors=2 layout=concat log=none fmr=off rdpol=round\nvol a v 16 mirrors=1 layout=concat log=none fmr=off rdpol=round\nvol a w 16 mirrors=2 layout=concat log=none fmr=off rdpol=round\nrvg a srl=l dcm=m vols=v\nwrite a v 0 1 11\nwrite a w 0 1 22\ndisk a 0 fail\napply a 1\ndisk a 0 ok\nwrite a w 0 1 33\nread a w 0 1\nshow a w 0 1\nwrite a w 16 1 33\ndg a deport\nrecover a\nread a w 0 1\nwrite a w 0 1 33\nread a w 0 1\nread a v 0 1\n",
        "done\ndone\ndone\ndone\ndone\ndone\ndone\ndone 1\ndone\ndone\nno 7 device 0\ndone\nno 20 halted 0\nno 20 halted 0\nno 20 halted 0\nno 20 halted 0\nno 20 halted 0\nrecovered 1\nsite a up\ndisk 0 ok\ndisk 1 ok\nvol l 8 none off\nplex 0 ACTIVE\nplex 1 ACTIVE\nvol m 8 none off\nplex 0 ACTIVE\nplex 1 ACTIVE\nvol v 16 none off\nplex 0 ACTIVE\nvol w 16 none off\nplex 0 ACTIVE\nplex 1 ACTIVE\nrvg primary 1 a head 1 mark consistent session 2\n22\ndone\n33\n11\n",
    ),
];
