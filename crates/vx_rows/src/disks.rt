// Disks that fail.
use crate::scripts::Row;

pub const ROWS: &[Row] = &[
    // A write goes to the log alone, so a data disk that fails is met by a read.
    (
        "a write does not need its volume",
        "site a 3 64\nraw a\ndisk a 1 fail\nwrite a d1 0 1 05\nwrite a d1 0 1 05\nread a d1 0 1\n",
        "done\ndone\ndone\ndone 1\ndone 2\nno 7 device 1\n",
    ),
    // An apply that meets a failing data disk halts the set.
    (
        "a volume that failed halts the set",
        "site a 3 64\nraw a\nwrite a d1 0 1 05\ndisk a 1 fail\napply a 1\nwrite a d1 0 1 06\ndisk a 1 ok\nrecover a\nread a d1 0 1\n",
        "done\ndone\ndone 1\ndone\nno 7 device 1\nno 20 halted 1\ndone\nrecovered 1\nsite a up\nrvg primary 1 a head 1 mark consistent session 2\n05\n",
    ),
    // A read that fails halts nothing.
    (
        "a read of a failing disk is refused",
        "site a 3 64\nraw a\ndisk a 1 fail\nread a d1 0 1\ndisk a 1 ok\nread a d1 0 1\n",
        "done\ndone\ndone\nno 7 device 1\ndone\n00\n",
    ),
    (
        "a log that failed halts the set",
        "site a 3 64\nraw a\ndisk a 0 fail\nwrite a d1 0 1 11\nread a d1 0 1\n",
        "done\ndone\ndone\nno 7 device 0\nno 20 halted 0\n",
    ),
];
