// Crashes, recoveries, and writes that are brought to their volumes.
use crate::scripts::Row;

pub const ROWS: &[Row] = &[
    (
        "written blocks come back after a crash",
        "site a 3 64\nraw a\nwrite a d1 0 1 11\nwrite a d1 1 1 22\ncrash a 0\nstatus a\nread a d1 0 1\nrecover a\nread a d1 0 2\n",
        "done\ndone\ndone 1\ndone 2\ndone\nsite a down\nno 6 down\nrecovered 2\nsite a up\nrvg primary 1 a head 2 mark consistent session 2\n11\n22\n",
    ),
    // Each recovery begins a session, and numbers go on from the last one of the log.
    (
        "a site that is up crashes first",
        "site a 3 64\nraw a\nwrite a d1 0 16 07\nrecover a\nrecover a\nwrite a d1 3 1 08\nread a d1 2 2\n",
        "done\ndone\ndone 1\nrecovered 1\nsite a up\nrvg primary 1 a head 1 mark consistent session 2\nrecovered 1\nsite a up\nrvg primary 1 a head 1 mark consistent session 3\ndone 2\n07\n08\n",
    ),
    (
        "logged writes are applied",
        "site a 4 64\nraw a\nwrite a d1 0 1 11\nwrite a d2 0 1 22\napply a 2\napply a 9\ncrash a 0\napply a 1\nrecover a\nread a d1 0 1\nread a d2 0 1\n",
        "done\ndone\ndone 1\ndone 2\ndone 2\ndone 2\ndone\nno 6 down\nrecovered 2\nsite a up\nrvg primary 1 a head 2 mark consistent session 2\n11\n22\n",
    ),
    // A ring of 6 blocks holds three writes of one block, so seven of them go round it.
    (
        "a full log gives room back",
        "site a 3 8\nraw a\nwrite a d1 0 1 01\nwrite a d1 1 1 02\nwrite a d1 2 2 03\nwrite a d1 3 1 04\nwrite a d1 0 1 05\nwrite a d1 1 3 06\nwrite a d1 2 1 07\nrecover a\nread a d1 0 4\n",
        "done\ndone\ndone 1\ndone 2\ndone 3\ndone 4\ndone 5\ndone 6\ndone 7\nrecovered 7\nsite a up\nrvg primary 1 a head 7 mark consistent session 2\n05\n06\n07\n06\n",
    ),
    (
        "a bare site has nothing to recover",
        "site a 3 64\nrecover a\ncrash a 0\nraw a\ncrash a 0\ncrash a 0\nrecover b\n",
        "done\nno 9 noconfig\nno 6 down\ndone\ndone\nno 6 down\nno 1 unknown b\n",
    ),
];
