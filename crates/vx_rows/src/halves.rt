// Lines that a failing disk or a fuse ends: what they were doing stands behind a recovery, or does not.
use crate::scripts::{Half, Row};

pub const HALVES: &[Half] = &[
    // The second site came to the line of the first one, or did not. The first one has no link.
    (
        "a disk of the receiver fails as it is linked",
        "site a 3 64\nraw a\nsite b 3 64\nraw b\ndisk b 0 fail\nlink a b synchronous=off srlprot=fail\nlink a b synchronous=off srlprot=fail\nshow b d1 0 1\ndisk b 0 ok\nstatus a\nrecover b\n",
        "done\ndone\ndone\ndone\ndone\nno 7 device 0\nno 20 halted 0\nno 20 halted 0\ndone\nsite a up\nrvg primary 1 a head 0 mark consistent session 1\nrecovered 0\nsite b up\nrvg primary 1 b head 0 mark consistent session 2\n",
        "done\ndone\ndone\ndone\ndone\nno 7 device 0\nno 20 halted 0\nno 20 halted 0\ndone\nsite a up\nrvg primary 1 a head 0 mark consistent session 1\nrecovered 0 sent 1 1\nsite b up\nrvg secondary 1 a head 0 mark inconsistent session 2\n",
    ),
    // The first site has a link that goes by nothing, or none. The second one is not consistent.
    (
        "a disk of the primary fails as it is linked",
        "site a 3 64\nraw a\nsite b 3 64\nraw b\ndisk a 0 fail\nlink a b synchronous=off srlprot=fail\nconnect a b\ndisk a 0 ok\nstatus b\nrecover a\n",
        "done\ndone\ndone\ndone\ndone\nno 7 device 0\nno 20 halted 0\ndone\nsite b up\nrvg secondary 1 a head 0 mark inconsistent session 1\nrecovered 0\nsite a up\nrvg primary 1 a head 0 mark consistent session 2\n",
        "done\ndone\ndone\ndone\ndone\nno 7 device 0\nno 20 halted 0\ndone\nsite b up\nrvg secondary 1 a head 0 mark inconsistent session 1\nrecovered 0\nsite a up\nrvg primary 1 a head 0 mark consistent session 2\nlink b attached cut running stale net 0 stored 0\n",
    ),
    // The same where a fuse of the first site lets no call pass. The second site cannot be linked again.
    (
        "a link is cut as it is made",
        "site a 3 64\nraw a\nsite b 3 64\nraw b\nfuse a 0 0\nlink a b synchronous=off srlprot=fail\nlink a b synchronous=off srlprot=fail\nstatus b\nrecover a\nlink a b synchronous=off srlprot=fail\n",
        "done\ndone\ndone\ndone\ndone\nno 6 down\nno 6 down\nsite b up\nrvg secondary 1 a head 0 mark inconsistent session 1\nrecovered 0\nsite a up\nrvg primary 1 a head 0 mark consistent session 2\nno 5 role\n",
        "done\ndone\ndone\ndone\ndone\nno 6 down\nno 6 down\nsite b up\nrvg secondary 1 a head 0 mark inconsistent session 1\nrecovered 0\nsite a up\nrvg primary 1 a head 0 mark consistent session 2\nlink b attached cut running stale net 0 stored 0\nno 5 role\n",
    ),
    // What the receiver has stored is told once more as it greets.
    (
        "a disk fails as an acknowledgement is heard",
        "site a 3 64\nraw a\nsite b 3 64\nraw b\nlink a b synchronous=off srlprot=fail\nconnect a b\nwrite a d1 0 1 11\npump a b\ndeliver 2\napply b 1\ndisk a 0 fail\ndeliver 4\ndeliver 4\nwrite a d1 1 1 22\ndisk a 0 ok\nrecover a\nconnect a b\nsettle a b\n",
        "done\ndone\ndone\ndone\ndone\ndone sent 1 1\ndone 1\ndone sent 2 2\ntaken sent 3 3\ndone 1 sent 4 4\ndone\nno 7 device 0\nignored\nno 20 halted 0\ndone\nrecovered 1\nsite a up\nrvg primary 1 a head 1 mark consistent session 2\nlink b attached cut running log net 0 stored 0\ndone sent 5 5\nsettled 1 sent 6 6\n",
        "done\ndone\ndone\ndone\ndone\ndone sent 1 1\ndone 1\ndone sent 2 2\ntaken sent 3 3\ndone 1 sent 4 4\ndone\nno 7 device 0\nignored\nno 20 halted 0\ndone\nrecovered 1\nsite a up\nrvg primary 1 a head 1 mark consistent session 2\nlink b attached cut running log net 1 stored 1\ndone sent 5 5\nsettled 1 sent 6 6\n",
    ),
    // The site is halted with what waits, and crashes with it. Some first part of that is durable.
    (
        "a disk fails as updates are applied",
        "site a 3 64\nraw a\nsite b 3 64\nraw b\nlink a b synchronous=off srlprot=fail\nconnect a b\nwrite a d1 0 1 11\npump a b\ndeliver 2\ndisk b 0 fail\napply b 1\nshow b d1 0 1\ndeliver 2\ndisk b 0 ok\nrecover b\n",
        "done\ndone\ndone\ndone\ndone\ndone sent 1 1\ndone 1\ndone sent 2 2\ntaken sent 3 3\ndone\nno 7 device 0\nno 20 halted 0\nignored\ndone\nrecovered 0 sent 4 4\nsite b up\nrvg secondary 1 a head 0 mark consistent session 2\n",
        "done\ndone\ndone\ndone\ndone\ndone sent 1 1\ndone 1\ndone sent 2 2\ntaken sent 3 3\ndone\nno 7 device 0\nno 20 halted 0\nignored\ndone\nrecovered 1 sent 4 4\nsite b up\nrvg secondary 1 a head 1 mark consistent session 2\n",
    ),
    // The write that failed is old or new as a whole.
    (
        "a halted site is recovered",
        "site a 3 64\nraw a\ndisk a 0 fail\nwrite a d1 0 1 11\nread a d1 0 1\napply a 1\ndisk a 0 ok\nrecover a\nread a d1 0 1\n",
        "done\ndone\ndone\nno 7 device 0\nno 20 halted 0\nno 20 halted 0\ndone\nrecovered 0\nsite a up\nrvg primary 1 a head 0 mark consistent session 2\n00\n",
        "done\ndone\ndone\nno 7 device 0\nno 20 halted 0\nno 20 halted 0\ndone\nrecovered 1\nsite a up\nrvg primary 1 a head 1 mark consistent session 2\n11\n",
    ),
];

pub const ROWS: &[Row] = &[
    // What a settling sent before it ended was sent.
    (
        "a settling is cut",
        "site a 3 64\nraw a\nsite b 3 64\nraw b\nlink a b synchronous=off srlprot=fail\nconnect a b\nwrite a d1 0 1 11\nfuse b 0 0\nsettle a b\nrecover b\nsettle a b\nshow b d1 0 1\n",
        "done\ndone\ndone\ndone\ndone\ndone sent 1 1\ndone 1\ndone\nno 6 down sent 2 4\nrecovered 0 sent 5 5\nsite b up\nrvg secondary 1 a head 0 mark consistent session 2\nsettled 1 sent 6 9\n11\n",
    ),
];
