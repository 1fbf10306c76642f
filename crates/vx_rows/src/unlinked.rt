// Lines on links between sites that have none.
use crate::scripts::Row;

pub const ROWS: &[Row] = &[
    (
        "a link that is not there is unknown",
        "site a 3 64\nraw a\nsite b 3 64\nraw b\nconnect a b\ncut a b\npause a b\nwait a 1\n",
        "done\ndone\ndone\ndone\nno 1 unknown b\nno 1 unknown b\nno 1 unknown b\nno 1 unknown 1\n",
    ),
    (
        "a link that is not there is not set",
        "site a 3 64\nraw a\nsite b 3 64\nraw b\nset a b synchronous=off srlprot=fail\nresume a b\npump a b\ntick a b\n",
        "done\ndone\ndone\ndone\nno 1 unknown b\nno 1 unknown b\nno 1 unknown b\nno 1 unknown b\n",
    ),
];
