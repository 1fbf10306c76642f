//! Reads, writes and flushes of a volume over its plexes.
//!
//! Blocks are 512 bytes. A plex takes part where the configuration says that it is ACTIVE.
#![tactic(auto)]

mod copying;
mod every;
mod flushing;
mod plexes;
mod reading;
mod sets;
mod turns;
mod volume;
mod writing;

pub use copying::copy_plex;
pub use flushing::flush_plex;
pub use plexes::{is_active, plex_count, uses};
pub use reading::read_plex;
pub use sets::{Failed, set_of};
pub use volume::{Volume, flush, flush_all, read, write, write_all};
pub use writing::write_plex;
