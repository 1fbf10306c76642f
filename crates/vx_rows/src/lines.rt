// Where and how much a line may write.
use crate::scripts::Row;

pub const ROWS: &[Row] = &[
    (
        "a write past the end is refused",
        "site a 3 64\nraw a\nwrite a d1 63 1 01\nwrite a d1 63 2 01\n",
        "done\ndone\ndone 1\nno 3 range\n",
    ),
    (
        "a write has from 1 to 16 blocks",
        "site a 3 64\nraw a\nwrite a d1 0 0 01\nwrite a d1 0 17 01\nwrite a d1 0 16 02\n",
        "done\ndone\nno 4 size\nno 4 size\ndone 1\n",
    ),
    // Of three disks the first holds the log and the last keeps what is owed to links: d1 is the only volume.
    (
        "a volume that is not there is unknown",
        "site a 3 64\nraw a\nwrite a d2 0 1 01\n",
        "done\ndone\nno 1 unknown d2\n",
    ),
    (
        "sites are apart",
        "site a 3 64\nsite b 3 64\nraw a\nraw b\nwrite a d1 0 1 07\nread b d1 0 1\nread a d1 0 1\n",
        "done\ndone\ndone\ndone\ndone 1\n00\n07\n",
    ),
    (
        "sites and sets are refused",
        "site a 3 64\nraw a\nraw a\nsite a 3 64\nsite c 9 64\nsite c 2 64\nraw c\nstatus d\n",
        "done\ndone\nno 5 role\nno 2 exists a\nno 19 limit disks 8\ndone\nno 4 size\nno 1 unknown d\n",
    ),
];
