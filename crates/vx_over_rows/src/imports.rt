// An import of a group that was deported with a replicated volume group over it.
use crate::scripts::{Part, Row};

pub const ROWS: &[Row] = &[
    // The log comes up in its next session, with all writes.
    (
        "a site is imported",
        "site a 2 1024\ndg a init\nvol a l 8 mirrors=2 layout=concat log=none fmr=off rdpol=round\nvol a m 8 mirrors=2 layout=concat log=none fmr=off rdpol=round\nvol a v 16 mirrors=2 layout=concat log=none fmr=off rdpol=round\nrvg a srl=l dcm=m vols=v\nwrite a v 0 1 11\ndg a deport\ndg a import\nread a v 0 1\nwrite a v 1 1 22\ndg a import\nstatus a\ncrash a 0\ndg a import\nrecover a\nread a v 0 2\n",
        "done\ndone\ndone\ndone\ndone\ndone\ndone 1\ndone\ndone\n11\ndone 2\nno 5 role\nsite a up\ndisk 0 ok\ndisk 1 ok\nvol l 8 none off\nplex 0 ACTIVE\nplex 1 ACTIVE\nvol m 8 none off\nplex 0 ACTIVE\nplex 1 ACTIVE\nvol v 16 none off\nplex 0 ACTIVE\nplex 1 ACTIVE\nrvg primary 1 a head 2 mark consistent session 2\ndone\nno 5 role\nrecovered 2\nsite a up\ndisk 0 ok\ndisk 1 ok\nvol l 8 none off\nplex 0 ACTIVE\nplex 1 ACTIVE\nvol m 8 none off\nplex 0 ACTIVE\nplex 1 ACTIVE\nvol v 16 none off\nplex 0 ACTIVE\nplex 1 ACTIVE\nrvg primary 1 a head 2 mark consistent session 3\n11\n22\n",
    ),
    // Each import begins a session, and each deport behind one is a deport as before.
    (
        "a site is imported again",
        "site a 2 1024\ndg a init\nvol a l 8 mirrors=2 layout=concat log=none fmr=off rdpol=round\nvol a m 8 mirrors=2 layout=concat log=none fmr=off rdpol=round\nvol a v 16 mirrors=2 layout=concat log=none fmr=off rdpol=round\nrvg a srl=l dcm=m vols=v\ndg a deport\ndg a import\nwrite a v 3 1 33\ndg a deport\nstatus a\ndg a import\nread a v 3 1\nstatus a\n",
        "done\ndone\ndone\ndone\ndone\ndone\ndone\ndone\ndone 1\ndone\nsite a deported\ndone\n33\nsite a up\ndisk 0 ok\ndisk 1 ok\nvol l 8 none off\nplex 0 ACTIVE\nplex 1 ACTIVE\nvol m 8 none off\nplex 0 ACTIVE\nplex 1 ACTIVE\nvol v 16 none off\nplex 0 ACTIVE\nplex 1 ACTIVE\nrvg primary 1 a head 1 mark consistent session 3\n",
    ),
    // The other volumes are there behind it with what was written, and those that were made beside.
    (
        "other volumes are imported",
        "site a 2 1024\ndg a init\nvol a l 8 mirrors=2 layout=concat log=none fmr=off rdpol=round\nvol a m 8 mirrors=2 layout=concat log=none fmr=off rdpol=round\nvol a v 16 mirrors=2 layout=concat log=none fmr=off rdpol=round\nvol a w 16 mirrors=2 layout=concat log=none fmr=off rdpol=round\nrvg a srl=l dcm=m vols=v\nwrite a v 0 1 11\nwrite a w 3 1 22\ndg a deport\ndg a import\nread a w 3 1\nwrite a w 3 1 33\nvol a u 8 mirrors=2 layout=concat log=none fmr=off rdpol=round\ndg a deport\ndg a import\nread a u 7 1\nread a w 3 1\nread a v 0 1\nstatus a\n",
        "done\ndone\ndone\ndone\ndone\ndone\ndone\ndone 1\ndone\ndone\ndone\n22\ndone\ndone\ndone\ndone\n00\n33\n11\nsite a up\ndisk 0 ok\ndisk 1 ok\nvol l 8 none off\nplex 0 ACTIVE\nplex 1 ACTIVE\nvol m 8 none off\nplex 0 ACTIVE\nplex 1 ACTIVE\nvol v 16 none off\nplex 0 ACTIVE\nplex 1 ACTIVE\nvol w 16 none off\nplex 0 ACTIVE\nplex 1 ACTIVE\nvol u 8 none off\nplex 0 ACTIVE\nplex 1 ACTIVE\nrvg primary 1 a head 1 mark consistent session 3\n",
    ),
];

// By how the replies begin and end.
pub const PARTS: &[Part] = &[
    // Where no disk works it is refused, and the site stays deported.
    (
        "an import without disks is refused",
        "site a 2 1024\ndg a init\nvol a l 8 mirrors=2 layout=concat log=none fmr=off rdpol=round\nvol a m 8 mirrors=2 layout=concat log=none fmr=off rdpol=round\nvol a v 16 mirrors=2 layout=concat log=none fmr=off rdpol=round\nrvg a srl=l dcm=m vols=v\nwrite a v 0 1 11\ndg a deport\ndisk a 1 fail\ndisk a 0 fail\ndg a import\nstatus a\nread a v 0 1\ndisk a 1 ok\ndisk a 0 ok\ndg a import\nread a v 0 1\n",
        "done\ndone\ndone\ndone\ndone\ndone\ndone 1\ndone\ndone\ndone\nno ",
        "\nsite a deported\nno 6 down\ndone\ndone\ndone\n11\n",
    ),
];
