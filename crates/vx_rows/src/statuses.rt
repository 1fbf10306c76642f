// The lines of a status.
use crate::scripts::Row;

pub const ROWS: &[Row] = &[(
    "a status tells of the set",
    "site a 3 64\nraw a\nwrite a d1 0 1 11\nstatus a\n",
    "done\ndone\ndone 1\nsite a up\nrvg primary 1 a head 1 mark consistent session 1\n",
)];
