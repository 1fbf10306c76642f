// An apply at a site with a replicated volume group over a disk group.
use crate::scripts::Row;

pub const ROWS: &[Row] = &[
    // It answers the last write where it is asked for no less, also where all are in the volume. What it brought there is read, and stands behind a crash.
    (
        "writes come into their volumes",
        "site a 2 1024\ndg a init\nvol a log1 64 mirrors=2 layout=concat log=none fmr=off rdpol=round\nvol a maps 8 mirrors=2 layout=concat log=none fmr=off rdpol=round\nvol a v 256 mirrors=2 layout=concat log=none fmr=off rdpol=round\napply a 1\nrvg a srl=log1 dcm=maps vols=v\napply a 1\nwrite a v 0 1 11\nwrite a v 0 2 22\napply a 2\nread a v 0 3\nwrite a v 2 1 33\napply a 9\napply a 3\ncrash a 0\napply a 3\nrecover a\nread a v 0 4\nwrite a v 3 1 44\napply a 4\nread a v 3 1\n",
        "done\ndone\ndone\ndone\ndone\nno 5 role\ndone\ndone 0\ndone 1\ndone 2\ndone 2\n22\n22\n00\ndone 3\ndone 3\ndone 3\ndone\nno 6 down\nrecovered 3\nsite a up\ndisk 0 ok\ndisk 1 ok\nvol log1 64 none off\nplex 0 ACTIVE\nplex 1 ACTIVE\nvol maps 8 none off\nplex 0 ACTIVE\nplex 1 ACTIVE\nvol v 256 none off\nplex 0 ACTIVE\nplex 1 ACTIVE\nrvg primary 1 a head 3 mark consistent session 2\n22\n22\n33\n00\ndone 4\ndone 4\n44\n",
    ),
    // A mirror of the volume fails: the other one takes what is applied.
    (
        "an apply bears a mirror that fails",
        "site a 2 1024\ndg a init\nvol a log1 64 mirrors=2 layout=concat log=none fmr=off rdpol=round\nvol a maps 8 mirrors=2 layout=concat log=none fmr=off rdpol=round\nvol a v 256 mirrors=2 layout=concat log=none fmr=off rdpol=round\nrvg a srl=log1 dcm=maps vols=v\nwrite a v 0 1 11\ndisk a 1 fail\napply a 1\nstatus a\ndisk a 1 ok\nread a v 0 1\ncrash a 0\nrecover a\nread a v 0 1\n",
        "done\ndone\ndone\ndone\ndone\ndone\ndone 1\ndone\ndone 1\nsite a up\ndisk 0 ok\ndisk 1 failed\nvol log1 64 none off\nplex 0 ACTIVE\nplex 1 ACTIVE\nvol maps 8 none off\nplex 0 ACTIVE\nplex 1 ACTIVE\nvol v 256 none off\nplex 0 ACTIVE\nplex 1 STALE\nrvg primary 1 a head 1 mark consistent session 1\ndone\n11\ndone\nrecovered 1\nsite a up\ndisk 0 ok\ndisk 1 ok\nvol log1 64 none off\nplex 0 ACTIVE\nplex 1 ACTIVE\nvol maps 8 none off\nplex 0 ACTIVE\nplex 1 ACTIVE\nvol v 256 none off\nplex 0 ACTIVE\nplex 1 STALE\nrvg primary 1 a head 1 mark consistent session 2\n11\n",
    ),
    // The one disk of the volume fails: the site is halted, and the log has the write still.
    (
        "an apply that fails halts the site",
        "site a 2 1024\ndg a init\nvol a log1 64 mirrors=2 layout=concat log=none fmr=off rdpol=round\nvol a maps 8 mirrors=2 layout=concat log=none fmr=off rdpol=round\nvol a v 64 mirrors=1 layout=concat log=none fmr=off rdpol=round\nrvg a srl=log1 dcm=maps vols=v\nwrite a v 0 1 11\ndisk a 0 fail\napply a 1\napply a 1\nwrite a v 1 1 22\ncrash a 0\ndisk a 0 ok\nrecover a\nread a v 0 2\napply a 1\n",
        "done\ndone\ndone\ndone\ndone\ndone\ndone 1\ndone\nno 7 device 0\nno 20 halted 0\nno 20 halted 0\ndone\ndone\nrecovered 1\nsite a up\ndisk 0 ok\ndisk 1 ok\nvol log1 64 none off\nplex 0 ACTIVE\nplex 1 ACTIVE\nvol maps 8 none off\nplex 0 ACTIVE\nplex 1 ACTIVE\nvol v 64 none off\nplex 0 ACTIVE\nrvg primary 1 a head 1 mark consistent session 2\n11\n00\ndone 1\n",
    ),
];
