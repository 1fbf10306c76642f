//! What the tests of a line and a status see of a group of disks: out of its configuration, in room that was taken before it was known.
#![tactic(auto)]

mod seen;
mod shown;

pub use seen::{kinds_seen, volumes_seen};
pub use shown::{disks_shown, volumes_shown};
