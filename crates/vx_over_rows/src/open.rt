// Lines that are not built at a site with a replicated volume group over its group: a run ends there, at the line of this number.
use crate::scripts::Open;

pub const OPENS: &[Open] = &[
    // A run ends at a link from the site or to it. The other site has one volume of the same size, and a log of the same. Five lines make the group, and one
    // its replicated volume group.
    (
        "a run ends at a link from the site",
        "site a 2 1024\ndg a init\nvol a log1 64 mirrors=2 layout=concat log=none fmr=off rdpol=round\nvol a maps 8 mirrors=2 layout=concat log=none fmr=off rdpol=round\nvol a v 256 mirrors=2 layout=concat log=none fmr=off rdpol=round\nrvg a srl=log1 dcm=maps vols=v\nsite b 3 256\nraw b\nlink a b synchronous=off srlprot=fail\n",
        9,
        "done\ndone\ndone\ndone\ndone\ndone\ndone\ndone\nbad 9 1\n",
    ),
    (
        "a run ends at a link to the site",
        "site a 2 1024\ndg a init\nvol a log1 64 mirrors=2 layout=concat log=none fmr=off rdpol=round\nvol a maps 8 mirrors=2 layout=concat log=none fmr=off rdpol=round\nvol a v 256 mirrors=2 layout=concat log=none fmr=off rdpol=round\nrvg a srl=log1 dcm=maps vols=v\nsite b 3 256\nraw b\nlink b a synchronous=off srlprot=fail\n",
        9,
        "done\ndone\ndone\ndone\ndone\ndone\ndone\ndone\nbad 9 1\n",
    ),
    // What was done before such a line is answered, and what stands behind it is not read.
    (
        "lines before it are done",
        "site a 2 1024\ndg a init\nvol a log1 64 mirrors=2 layout=concat log=none fmr=off rdpol=round\nvol a maps 8 mirrors=2 layout=concat log=none fmr=off rdpol=round\nvol a v 256 mirrors=2 layout=concat log=none fmr=off rdpol=round\nvol a w 64 mirrors=1 layout=concat log=none fmr=off rdpol=round\nrvg a srl=log1 dcm=maps vols=v\nsite b 3 256\nraw b\nwrite a w 0 1 11\nread a w 0 1\nlink a b synchronous=off srlprot=fail\nfoo\n",
        12,
        "done\ndone\ndone\ndone\ndone\ndone\ndone\ndone\ndone\ndone\n11\nbad 12 1\n",
    ),
];
