// Lines that a fuse cuts.
use crate::scripts::Row;

pub const ROWS: &[Row] = &[
    // The second of the four calls of a write does not happen: of it nothing is left.
    (
        "a write is cut before its flush",
        "site a 3 64\nraw a\nfuse a 1 0\nwrite a d1 0 1 11\nrecover a\n",
        "done\ndone\ndone\nno 6 down\nrecovered 0\nsite a up\nrvg primary 1 a head 0 mark consistent session 2\n",
    ),
    // The last flush does not happen: the header stands exactly where the crash keeps it.
    (
        "a write is cut before its last flush, and nothing kept",
        "site a 3 64\nraw a\nfuse a 3 0\nwrite a d1 0 1 11\nrecover a\n",
        "done\ndone\ndone\nno 6 down\nrecovered 0\nsite a up\nrvg primary 1 a head 0 mark consistent session 2\n",
    ),
    (
        "a write is cut before its last flush, and all kept",
        "site a 3 64\nraw a\nfuse a 3 1\nwrite a d1 0 1 11\nrecover a\nread a d1 0 1\n",
        "done\ndone\ndone\nno 6 down\nrecovered 1\nsite a up\nrvg primary 1 a head 1 mark consistent session 2\n11\n",
    ),
    // The logged writes are there behind an apply that was cut.
    (
        "an apply is cut",
        "site a 4 64\nraw a\nwrite a d1 0 1 11\nwrite a d2 0 1 22\nfuse a 1 0\napply a 2\nstatus a\nrecover a\nread a d1 0 1\nread a d2 0 1\n",
        "done\ndone\ndone 1\ndone 2\ndone\nno 6 down\nsite a down\nrecovered 2\nsite a up\nrvg primary 1 a head 2 mark consistent session 2\n11\n22\n",
    ),
    // A write of one block is four calls, and a read is none.
    (
        "four calls pass",
        "site a 3 64\nfuse a 4 0\nraw a\nfuse a 4 0\nread a d1 0 1\nwrite a d1 0 1 11\nread a d1 0 1\nwrite a d1 0 1 22\nread a d1 0 1\nrecover a\nread a d1 0 1\n",
        "done\nno 6 down\ndone\ndone\n00\ndone 1\n11\nno 6 down\nno 6 down\nrecovered 1\nsite a up\nrvg primary 1 a head 1 mark consistent session 2\n11\n",
    ),
    // A link is four calls at each of its sites, and the setting of one is two.
    (
        "the calls of a link pass",
        "site a 3 64\nraw a\nsite b 3 64\nraw b\nfuse a 6 0\nfuse b 4 0\nlink a b synchronous=off srlprot=fail\nset a b synchronous=fail srlprot=fail\nset a b synchronous=off srlprot=fail\nstatus a\nstatus b\n",
        "done\ndone\ndone\ndone\ndone\ndone\ndone\ndone\nno 6 down\nsite a down\nsite b up\nrvg secondary 1 a head 0 mark consistent session 1\n",
    ),
    // The last call of one of its sites does not pass.
    (
        "a link is cut at the last call of its second site",
        "site a 3 64\nraw a\nsite b 3 64\nraw b\nfuse b 3 0\nlink a b synchronous=off srlprot=fail\nstatus b\n",
        "done\ndone\ndone\ndone\ndone\nno 6 down\nsite b down\n",
    ),
    (
        "a link is cut at the last call of its first site",
        "site a 3 64\nraw a\nsite b 3 64\nraw b\nfuse a 3 0\nlink a b synchronous=off srlprot=fail\nstatus a\nstatus b\n",
        "done\ndone\ndone\ndone\ndone\nno 6 down\nsite a down\nsite b up\nrvg secondary 1 a head 0 mark consistent session 1\n",
    ),
    // A crash ends it.
    (
        "a crash ends the fuse",
        "site a 3 64\nraw a\nfuse a 0 0\ncrash a 0\nfuse a 0 0\nrecover a\nwrite a d1 0 1 11\nfuse b 0 0\n",
        "done\ndone\ndone\ndone\nno 6 down\nrecovered 0\nsite a up\nrvg primary 1 a head 0 mark consistent session 2\ndone 1\nno 1 unknown b\n",
    ),
];
