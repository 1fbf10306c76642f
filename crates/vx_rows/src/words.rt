// The first run, and an empty one.
use crate::scripts::Row;

pub const ROWS: &[Row] = &[
    (
        "the first run is answered",
        "site a 3 64\nraw a\nwrite a d1 3 1 5a\nread a d1 3 1\nread a d1 4 1\n",
        "done\ndone\ndone 1\n5a\n00\n",
    ),
    ("an empty script is done", "", ""),
];
