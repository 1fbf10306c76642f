// A replicated volume group over a disk group.
use crate::scripts::Row;

pub const ROWS: &[Row] = &[
    // It is made of three mirrored volumes, takes a write, and comes back with it behind a crash of its site, which shows its group and its log.
    (
        "a replicated volume group over mirrors keeps its write",
        "site a 2 1024\ndg a init\nvol a log1 64 mirrors=2 layout=concat log=none fmr=off rdpol=round\nvol a maps 8 mirrors=2 layout=concat log=none fmr=off rdpol=round\nvol a v 256 mirrors=2 layout=concat log=none fmr=off rdpol=round\nrvg a srl=log1 dcm=maps vols=v\nwrite a v 0 1 11\ncrash a 0\nrecover a\nread a v 0 1\n",
        "done\ndone\ndone\ndone\ndone\ndone\ndone 1\ndone\nrecovered 1\nsite a up\ndisk 0 ok\ndisk 1 ok\nvol log1 64 none off\nplex 0 ACTIVE\nplex 1 ACTIVE\nvol maps 8 none off\nplex 0 ACTIVE\nplex 1 ACTIVE\nvol v 256 none off\nplex 0 ACTIVE\nplex 1 ACTIVE\nrvg primary 1 a head 1 mark consistent session 2\n11\n",
    ),
    // Its volume keeps what was written before it was made. Writes are numbered from then on, and a site that is up crashes before it recovers.
    (
        "a volume keeps what it had",
        "site a 2 1024\ndg a init\nvol a log1 64 mirrors=2 layout=concat log=none fmr=off rdpol=round\nvol a maps 8 mirrors=2 layout=concat log=none fmr=off rdpol=round\nvol a v 256 mirrors=2 layout=concat log=none fmr=off rdpol=round\nwrite a v 7 2 55\nrvg a srl=log1 dcm=maps vols=v\nread a v 6 4\nwrite a v 8 1 66\nshow a v 6 4\nrecover a\nwrite a v 255 1 77\nread a v 6 4\nread a v 255 1\n",
        "done\ndone\ndone\ndone\ndone\ndone\ndone\n00\n55\n55\n00\ndone 1\n00\n55\n66\n00\nrecovered 1\nsite a up\ndisk 0 ok\ndisk 1 ok\nvol log1 64 none off\nplex 0 ACTIVE\nplex 1 ACTIVE\nvol maps 8 none off\nplex 0 ACTIVE\nplex 1 ACTIVE\nvol v 256 none off\nplex 0 ACTIVE\nplex 1 ACTIVE\nrvg primary 1 a head 1 mark consistent session 2\ndone 2\n00\n55\n66\n00\n77\n",
    ),
    // A log of eight blocks has room for three writes of one block: what it can hold no more goes to the volume, and each write is kept.
    (
        "a short log takes many writes",
        "site a 2 1024\ndg a init\nvol a log1 64 mirrors=2 layout=concat log=none fmr=off rdpol=round\nvol a maps 8 mirrors=2 layout=concat log=none fmr=off rdpol=round\nvol a v 256 mirrors=2 layout=concat log=none fmr=off rdpol=round\nvol a l 8 mirrors=2 layout=concat log=none fmr=off rdpol=round\nrvg a srl=l dcm=maps vols=v\nwrite a v 0 6 01\nwrite a v 0 5 01\nwrite a v 1 1 02\nwrite a v 2 1 03\nwrite a v 3 1 04\nwrite a v 1 1 05\nwrite a v 5 2 06\nwrite a v 7 1 07\ncrash a 0\nrecover a\nread a v 0 9\n",
        "done\ndone\ndone\ndone\ndone\ndone\ndone\nno 4 size\ndone 1\ndone 2\ndone 3\ndone 4\ndone 5\ndone 6\ndone 7\ndone\nrecovered 7\nsite a up\ndisk 0 ok\ndisk 1 ok\nvol log1 64 none off\nplex 0 ACTIVE\nplex 1 ACTIVE\nvol maps 8 none off\nplex 0 ACTIVE\nplex 1 ACTIVE\nvol v 256 none off\nplex 0 ACTIVE\nplex 1 ACTIVE\nvol l 8 none off\nplex 0 ACTIVE\nplex 1 ACTIVE\nrvg primary 1 a head 7 mark consistent session 2\n01\n05\n03\n04\n01\n06\n06\n07\n00\n",
    ),
    // Two data volumes have one log and one numbering. A status shows the same before and behind a crash, but for the session.
    (
        "two volumes have one log",
        "site a 2 1024\ndg a init\nvol a log1 64 mirrors=2 layout=concat log=none fmr=off rdpol=round\nvol a maps 8 mirrors=2 layout=concat log=none fmr=off rdpol=round\nvol a v 256 mirrors=2 layout=concat log=none fmr=off rdpol=round\nvol a m 16 mirrors=1 layout=concat log=none fmr=off rdpol=round\nvol a w 64 mirrors=1 layout=concat log=none fmr=off rdpol=round\nrvg a srl=log1 dcm=m vols=w,v\nwrite a v 0 1 11\nwrite a w 0 1 22\nwrite a v 1 1 33\nstatus a\ncrash a 3\nstatus a\nrecover a\nread a v 0 2\nread a w 0 1\n",
        "done\ndone\ndone\ndone\ndone\ndone\ndone\ndone\ndone 1\ndone 2\ndone 3\nsite a up\ndisk 0 ok\ndisk 1 ok\nvol log1 64 none off\nplex 0 ACTIVE\nplex 1 ACTIVE\nvol maps 8 none off\nplex 0 ACTIVE\nplex 1 ACTIVE\nvol v 256 none off\nplex 0 ACTIVE\nplex 1 ACTIVE\nvol m 16 none off\nplex 0 ACTIVE\nvol w 64 none off\nplex 0 ACTIVE\nrvg primary 1 a head 3 mark consistent session 1\ndone\nsite a down\nrecovered 3\nsite a up\ndisk 0 ok\ndisk 1 ok\nvol log1 64 none off\nplex 0 ACTIVE\nplex 1 ACTIVE\nvol maps 8 none off\nplex 0 ACTIVE\nplex 1 ACTIVE\nvol v 256 none off\nplex 0 ACTIVE\nplex 1 ACTIVE\nvol m 16 none off\nplex 0 ACTIVE\nvol w 64 none off\nplex 0 ACTIVE\nrvg primary 1 a head 3 mark consistent session 2\n11\n33\n22\n",
    ),
    // A mirror of the log fails: the write is done, and kept by the other one, also once the disk is back.
    (
        "a mirror that fails is borne",
        "site a 2 1024\ndg a init\nvol a log1 64 mirrors=2 layout=concat log=none fmr=off rdpol=round\nvol a maps 8 mirrors=2 layout=concat log=none fmr=off rdpol=round\nvol a v 256 mirrors=2 layout=concat log=none fmr=off rdpol=round\nrvg a srl=log1 dcm=maps vols=v\nwrite a v 0 1 11\ndisk a 1 fail\nwrite a v 1 1 22\nstatus a\ncrash a 0\ndisk a 1 ok\nrecover a\nread a v 0 2\ndisk a 0 fail\nwrite a v 2 1 33\nread a v 0 1\nwrite a v 2 1 33\nshow a maps 7 1\nread a w 0 1\n",
        "done\ndone\ndone\ndone\ndone\ndone\ndone 1\ndone\ndone 2\nsite a up\ndisk 0 ok\ndisk 1 failed\nvol log1 64 none off\nplex 0 ACTIVE\nplex 1 STALE\nvol maps 8 none off\nplex 0 ACTIVE\nplex 1 ACTIVE\nvol v 256 none off\nplex 0 ACTIVE\nplex 1 ACTIVE\nrvg primary 1 a head 2 mark consistent session 1\ndone\ndone\nrecovered 2\nsite a up\ndisk 0 ok\ndisk 1 ok\nvol log1 64 none off\nplex 0 ACTIVE\nplex 1 STALE\nvol maps 8 none off\nplex 0 ACTIVE\nplex 1 ACTIVE\nvol v 256 none off\nplex 0 ACTIVE\nplex 1 ACTIVE\nrvg primary 1 a head 2 mark consistent session 2\n11\n22\ndone\nno 7 device 0\nno 20 halted 0\nno 20 halted 0\nno 20 halted 0\nno 20 halted 0\n",
    ),
    // A volume of the group that is none of the replicated volume group is read as it was, before that is made and behind it, and behind a crash. The log and the maps are shown.
    (
        "other volumes are read",
        "site a 2 1024\ndg a init\nvol a log1 64 mirrors=2 layout=concat log=none fmr=off rdpol=round\nvol a maps 8 mirrors=2 layout=concat log=none fmr=off rdpol=round\nvol a v 256 mirrors=2 layout=concat log=none fmr=off rdpol=round\nvol a w 64 mirrors=1 layout=concat log=none fmr=off rdpol=round\nwrite a w 3 2 44\nrvg a srl=log1 dcm=maps vols=v\nread a w 2 4\nshow a w 3 1\nwrite a v 3 1 11\nread a w 3 1\ncrash a 0\nread a w 3 1\nrecover a\nread a w 3 2\nread a v 3 1\nread a w 64 1\nread a w 0 17\nread a w 0 0\nread a u 0 1\nshow a u 0 1\nshow a log1 63 1\nshow a maps 7 1\nshow a maps 8 1\nread a maps 7 1\n",
        "done\ndone\ndone\ndone\ndone\ndone\ndone\ndone\n00\n44\n44\n00\n44\ndone 1\n44\ndone\nno 6 down\nrecovered 1\nsite a up\ndisk 0 ok\ndisk 1 ok\nvol log1 64 none off\nplex 0 ACTIVE\nplex 1 ACTIVE\nvol maps 8 none off\nplex 0 ACTIVE\nplex 1 ACTIVE\nvol v 256 none off\nplex 0 ACTIVE\nplex 1 ACTIVE\nvol w 64 none off\nplex 0 ACTIVE\nrvg primary 1 a head 1 mark consistent session 2\n44\n44\n11\nno 3 range\nno 4 size\nno 4 size\nno 1 unknown u\nno 1 unknown u\n00\n00\nno 3 range\nno 5 role\n",
    ),
    // Such a read is refused where the one disk of its volume fails, and done where a mirror is left; and the replicated volume group goes on.
    (
        "other volumes are read behind a failed disk",
        "site a 2 1024\ndg a init\nvol a log1 64 mirrors=2 layout=concat log=none fmr=off rdpol=round\nvol a maps 8 mirrors=2 layout=concat log=none fmr=off rdpol=round\nvol a v 256 mirrors=2 layout=concat log=none fmr=off rdpol=round\nvol a w 64 mirrors=1 layout=concat log=none fmr=off rdpol=round\nvol a u 64 mirrors=2 layout=concat log=none fmr=off rdpol=round\nwrite a u 5 1 66\nrvg a srl=log1 dcm=maps vols=v\ndisk a 0 fail\nread a w 0 1\nshow a w 0 1\nread a u 5 1\nshow a u 5 1\ndisk a 0 ok\nread a w 0 1\nwrite a v 0 1 11\nread a v 0 1\n",
        "done\ndone\ndone\ndone\ndone\ndone\ndone\ndone\ndone\ndone\nno 7 device 0\nno 7 device 0\n66\n66\ndone\n00\ndone 1\n11\n",
    ),
    // A plex that missed a write is not read, where the other one fails too.
    (
        "other volumes are read as they were written",
        "site a 2 1024\ndg a init\nvol a log1 64 mirrors=2 layout=concat log=none fmr=off rdpol=round\nvol a maps 8 mirrors=2 layout=concat log=none fmr=off rdpol=round\nvol a v 256 mirrors=2 layout=concat log=none fmr=off rdpol=round\nvol a u 64 mirrors=2 layout=concat log=none fmr=off rdpol=round\ndisk a 1 fail\nwrite a u 5 1 66\ncrash a 0\ndisk a 1 ok\nrecover a\nrvg a srl=log1 dcm=maps vols=v\nread a u 5 2\nread a u 5 1\nshow a u 5 1\ndisk a 0 fail\nread a u 5 1\nshow a u 5 1\ndisk a 0 ok\nwrite a v 0 1 11\ncrash a 0\nrecover a\nread a u 5 1\nread a u 5 1\n",
        "done\ndone\ndone\ndone\ndone\ndone\ndone\ndone\ndone\ndone\nrecovered\nsite a up\ndisk 0 ok\ndisk 1 ok\nvol log1 64 none off\nplex 0 ACTIVE\nplex 1 ACTIVE\nvol maps 8 none off\nplex 0 ACTIVE\nplex 1 ACTIVE\nvol v 256 none off\nplex 0 ACTIVE\nplex 1 ACTIVE\nvol u 64 none off\nplex 0 ACTIVE\nplex 1 STALE\ndone\n66\n00\n66\n66\ndone\nno 7 device 0\nno 7 device 0\ndone\ndone 1\ndone\nrecovered 1\nsite a up\ndisk 0 ok\ndisk 1 ok\nvol log1 64 none off\nplex 0 ACTIVE\nplex 1 ACTIVE\nvol maps 8 none off\nplex 0 ACTIVE\nplex 1 ACTIVE\nvol v 256 none off\nplex 0 ACTIVE\nplex 1 ACTIVE\nvol u 64 none off\nplex 0 ACTIVE\nplex 1 STALE\nrvg primary 1 a head 1 mark consistent session 2\n66\n66\n",
    ),
];
