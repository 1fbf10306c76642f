// Links between sites, and the packets on them.
use crate::scripts::Row;

pub const ROWS: &[Row] = &[
    // A ring of 8 blocks. The link that goes by the log comes back with what its receiver has stored.
    (
        "a full log stalls until it is settled",
        "site a 3 10\nraw a\nsite b 3 10\nraw b\nlink a b synchronous=off srlprot=fail\nconnect a b\nwrite a d1 0 1 01\nwrite a d1 1 1 02\nwrite a d1 2 2 03\nwrite a d1 4 1 04\nsettle a b\nwrite a d1 4 1 04\ncrash a 0\nrecover a\nread a d1 4 1\n",
        "done\ndone\ndone\ndone\ndone\ndone sent 1 1\ndone 1\ndone 2\ndone 3\nno 13 stalled b\nsettled 3 sent 2 10\ndone 4\ndone\nrecovered 4\nsite a up\nrvg primary 1 a head 4 mark consistent session 2\nlink b attached cut running log net 3 stored 3\n04\n",
    ),
    // The same, with the link cut before the log is full.
    (
        "a full log of a cut link fails writes",
        "site a 3 10\nraw a\nsite b 3 10\nraw b\nlink a b synchronous=off srlprot=fail\nconnect a b\nwrite a d1 0 1 01\nwrite a d1 1 1 02\nwrite a d1 2 2 03\ncut a b\nwrite a d1 4 1 04\n",
        "done\ndone\ndone\ndone\ndone\ndone sent 1 1\ndone 1\ndone 2\ndone 3\ndone\nno 12 logfull b\n",
    ),
    // The second update is ignored before the first, and a repeated one is acknowledged again.
    (
        "updates are taken in their order",
        "site a 3 64\nraw a\nsite b 3 64\nraw b\nlink a b synchronous=off srlprot=fail\nconnect a b\nwrite a d1 0 1 11\nwrite a d1 1 1 22\npump a b\ndeliver 3\ndeliver 2\ndeliver 2\ndeliver 3\nshow b d1 0 2\nstatus b\nread b d1 0 1\ndeliver 9\n",
        "done\ndone\ndone\ndone\ndone\ndone sent 1 1\ndone 1\ndone 2\ndone sent 2 3\nignored\ntaken sent 4 4\nignored sent 5 5\ntaken sent 6 6\n11\n22\nsite b up\nrvg secondary 1 a head 2 mark consistent session 1\nno 5 role\nno 1 unknown 9\n",
    ),
    (
        "a site has at most 4 links",
        "site a 3 64\nraw a\nsite b 3 64\nraw b\nsite c 3 64\nraw c\nsite d 3 64\nraw d\nsite e 3 64\nraw e\nsite f 3 64\nraw f\nlink a b synchronous=off srlprot=fail\nlink a c synchronous=off srlprot=fail\nlink a d synchronous=off srlprot=fail\nlink a e synchronous=off srlprot=fail\nlink a f synchronous=off srlprot=fail\n",
        "done\ndone\ndone\ndone\ndone\ndone\ndone\ndone\ndone\ndone\ndone\ndone\ndone\ndone\ndone\ndone\nno 19 limit links 4\n",
    ),
    // And not over a link that is cut.
    (
        "a write is confirmed from memory",
        "site a 3 64\nraw a\nsite b 3 64\nraw b\nlink a b synchronous=fail srlprot=fail\nconnect a b\nwrite a d1 0 1 11\nwait a 1\npump a b\ndeliver 2\ndeliver 3\nwait a 1\nwrite a d1 1 1 22\ncut a b\nwait a 2\nwrite a d1 2 1 33\nwait a 3\n",
        "done\ndone\ndone\ndone\ndone\ndone sent 1 1\nlogged 1\npending 1\ndone sent 2 2\ntaken sent 3 3\ntaken\ndone 1\nlogged 2\ndone\nno 15 unconfirmed 2\nno 14 linkdown b\nno 1 unknown 3\n",
    ),
    // The acknowledgement of the former session is ignored.
    (
        "a crash of the receiver takes a confirmation back",
        "site a 3 64\nraw a\nsite b 3 64\nraw b\nlink a b synchronous=fail srlprot=fail\nconnect a b\nwrite a d1 0 1 11\nwait a 1\npump a b\ndeliver 2\ncrash b 0\nrecover b\ndeliver 4\ndeliver 3\nwait a 1\n",
        "done\ndone\ndone\ndone\ndone\ndone sent 1 1\nlogged 1\npending 1\ndone sent 2 2\ntaken sent 3 3\ndone\nrecovered 0 sent 4 4\nsite b up\nrvg secondary 1 a head 0 mark consistent session 2\ntaken\nignored\npending 1\n",
    ),
    // What waits at a receiver is applied and acknowledged from disk, once. A crash of either site keeps it then.
    (
        "a receiver applies what waits",
        "site a 3 64\nraw a\nsite b 3 64\nraw b\nlink a b synchronous=off srlprot=fail\nconnect a b\nwrite a d1 0 1 11\nwrite a d1 1 2 22\npump a b\ndeliver 2\ndeliver 4\ndeliver 3\napply b 1\napply b 9\napply b 9\ndeliver 8\nrecover b\nrecover a\nshow b d1 0 3\n",
        "done\ndone\ndone\ndone\ndone\ndone sent 1 1\ndone 1\ndone 2\ndone sent 2 4\ntaken sent 5 5\ntaken\ntaken sent 6 6\ndone 1 sent 7 7\ndone 2 sent 8 8\ndone 2\ntaken\nrecovered 2 sent 9 9\nsite b up\nrvg secondary 1 a head 2 mark consistent session 2\nrecovered 2\nsite a up\nrvg primary 1 a head 2 mark consistent session 2\nlink b attached cut running log net 2 stored 2\n11\n22\n22\n",
    ),
    // What was sent counts as lost, and is sent again.
    (
        "lost updates are sent again",
        "site a 3 64\nraw a\nsite b 3 64\nraw b\nlink a b synchronous=off srlprot=fail\nconnect a b\nwrite a d1 0 1 11\npump a b\npump a b\ntick a b\npump a b\ndeliver 3\ndeliver 4\ntick a b\npump a b\ndeliver 0\ndeliver 5\n",
        "done\ndone\ndone\ndone\ndone\ndone sent 1 1\ndone 1\ndone sent 2 2\ndone\ndone\ndone sent 3 3\ntaken sent 4 4\ntaken\ndone\ndone\nno 1 unknown 0\nno 1 unknown 5\n",
    ),
];
