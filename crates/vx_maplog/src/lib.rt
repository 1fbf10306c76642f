//! The logs of a volume: where a checked configuration has them, and their maps of regions as they are read.
#![tactic(auto)]

mod entry;
mod reading;
mod tested;

pub use entry::{is_used, log_of, plexes_of};
pub use reading::load;
pub use tested::{disks_fit, has_log};
