// The refusals of the line that makes a replicated volume group, and of lines at a site that has one.
use crate::scripts::{Part, Row};

pub const ROWS: &[Row] = &[
    (
        "the line is refused",
        "site a 2 1024\ndg a init\nvol a log1 64 mirrors=2 layout=concat log=none fmr=off rdpol=round\nvol a maps 8 mirrors=2 layout=concat log=none fmr=off rdpol=round\nvol a v 256 mirrors=2 layout=concat log=none fmr=off rdpol=round\nvol a l 7 mirrors=2 layout=concat log=none fmr=off rdpol=round\nvol a w 64 mirrors=2 layout=concat log=none fmr=off rdpol=round\nsite b 3 64\nrvg c srl=log1 dcm=maps vols=v\nrvg b srl=log1 dcm=maps vols=v\nraw b\nrvg b srl=log1 dcm=maps vols=d1\nrvg a srl=log2 dcm=map vols=v\nrvg a srl=log1 dcm=map vols=u\nrvg a srl=log1 dcm=maps vols=v,u\nrvg a srl=log1 dcm=maps vols=v,v\nrvg a srl=log1 dcm=log1 vols=v\nrvg a srl=v dcm=maps vols=v\nrvg a srl=log1 dcm=v vols=v\nrvg a srl=l dcm=maps vols=v\nrvg a srl=log1 dcm=l vols=v\nrvg a srl=log1 dcm=maps vols=v,w\nwrite a v 0 1 11\nrvg a srl=log1 dcm=maps vols=w\nrvg a srl=log1 dcm=maps vols=w\nrvg a srl=log1 dcm=maps vols=u\nrvg a srl=log1 dcm=maps vols=v,v\ncrash a 0\nrvg a srl=log1 dcm=maps vols=w\n",
        "done\ndone\ndone\ndone\ndone\ndone\ndone\ndone\nno 1 unknown c\nno 6 down\ndone\nno 5 role\nno 1 unknown log2\nno 1 unknown map\nno 1 unknown u\nno 4 size\nno 4 size\nno 4 size\nno 4 size\nno 4 size\nno 4 size\nno 4 size\ndone\ndone\nno 2 exists rvg\nno 1 unknown u\nno 2 exists rvg\ndone\nno 6 down\n",
    ),
    (
        "lines are refused at such a site",
        "site a 2 1024\ndg a init\nvol a log1 64 mirrors=2 layout=concat log=none fmr=off rdpol=round\nvol a maps 8 mirrors=2 layout=concat log=none fmr=off rdpol=round\nvol a v 256 mirrors=2 layout=concat log=none fmr=off rdpol=round\nrvg a srl=log1 dcm=maps vols=v\ndg a init\ndg a import\nraw a\nvol a v 64 mirrors=1 layout=concat log=none fmr=off rdpol=round\nplex a v 2 det\nplex a u 0 att\nread a u 0 1\nread a v 256 1\nread a v 0 17\nwrite a v 255 2 11\nwrite a v 0 0 11\nwrite a log1 0 1 11\nread a maps 0 1\ndisk a 2 fail\nset a b synchronous=off srlprot=fail\npump a b\ndeliver 1\nwrite a v 0 1 11\ncrash a 0\ndg a deport\ndg a import\nplex a v 1 det\napply a 1\nread a v 0 1\n",
        "done\ndone\ndone\ndone\ndone\ndone\nno 5 role\nno 5 role\nno 5 role\nno 2 exists v\nno 1 unknown 2\nno 1 unknown u\nno 1 unknown u\nno 3 range\nno 4 size\nno 3 range\nno 4 size\nno 5 role\nno 5 role\nno 1 unknown 2\nno 1 unknown b\nno 1 unknown b\nno 1 unknown 1\ndone 1\ndone\nno 6 down\nno 5 role\nno 6 down\nno 6 down\nno 6 down\n",
    ),
    // It has no link, whatever other sites there are.
    (
        "lines on links are refused at such a site",
        "site a 2 1024\ndg a init\nvol a log1 64 mirrors=2 layout=concat log=none fmr=off rdpol=round\nvol a maps 8 mirrors=2 layout=concat log=none fmr=off rdpol=round\nvol a v 256 mirrors=2 layout=concat log=none fmr=off rdpol=round\nrvg a srl=log1 dcm=maps vols=v\nsite b 3 256\nraw b\nset a b synchronous=off srlprot=fail\npump a b\nsettle a b\nset b a synchronous=off srlprot=fail\npump b a\nsettle b a\nconnect a b\ncut a b\npause a b\nresume a b\ntick a b\nconnect b a\ntick b a\nwrite a v 0 1 11\nread a v 0 1\n",
        "done\ndone\ndone\ndone\ndone\ndone\ndone\ndone\nno 1 unknown b\nno 1 unknown b\nno 1 unknown b\nno 1 unknown a\nno 1 unknown a\nno 1 unknown a\nno 1 unknown b\nno 1 unknown b\nno 1 unknown b\nno 1 unknown b\nno 1 unknown b\nno 1 unknown a\nno 1 unknown a\ndone 1\n11\n",
    ),
    // As it has no link, each of its writes is confirmed, and stays so.
    (
        "a write is confirmed at such a site",
        "site a 2 1024\ndg a init\nvol a log1 64 mirrors=2 layout=concat log=none fmr=off rdpol=round\nvol a maps 8 mirrors=2 layout=concat log=none fmr=off rdpol=round\nvol a v 256 mirrors=2 layout=concat log=none fmr=off rdpol=round\nrvg a srl=log1 dcm=maps vols=v\nwait a 1\nwrite a v 0 1 11\nwait a 1\nwait a 2\ncrash a 0\nwait a 1\nrecover a\nwait a 1\n",
        "done\ndone\ndone\ndone\ndone\ndone\nno 1 unknown 1\ndone 1\ndone 1\nno 1 unknown 2\ndone\nno 6 down\nrecovered 1\nsite a up\ndisk 0 ok\ndisk 1 ok\nvol log1 64 none off\nplex 0 ACTIVE\nplex 1 ACTIVE\nvol maps 8 none off\nplex 0 ACTIVE\nplex 1 ACTIVE\nvol v 256 none off\nplex 0 ACTIVE\nplex 1 ACTIVE\nrvg primary 1 a head 1 mark consistent session 2\ndone 1\n",
    ),
];

// By how the replies begin and end.
pub const PARTS: &[Part] = &[
    // Where no disk works, no group is made, and the site goes on as it was.
    (
        "a line without disks leaves the volumes",
        "site a 2 1024\ndg a init\nvol a l 8 mirrors=2 layout=concat log=none fmr=off rdpol=round\nvol a m 8 mirrors=2 layout=concat log=none fmr=off rdpol=round\nvol a v 8 mirrors=2 layout=concat log=none fmr=off rdpol=round\nwrite a v 3 1 44\ndisk a 1 fail\ndisk a 0 fail\nrvg a srl=l dcm=m vols=v\ndisk a 1 ok\ndisk a 0 ok\nrvg a srl=l dcm=m vols=v\nread a v 3 1\nwrite a v 3 1 55\nread a v 3 1\n",
        "done\ndone\ndone\ndone\ndone\ndone\ndone\ndone\nno 7 device ",
        "\ndone\ndone\ndone\n44\ndone 1\n55\n",
    ),
];
