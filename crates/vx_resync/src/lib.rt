//! Resynchronisation of a volume: the regions in which its plexes may differ are copied from one plex to others.
//!
//! A region is 64 blocks of 512 bytes. Which regions are copied is read from the dirty region log or from the map of missed regions.
#![tactic(auto)]

mod copying;
mod flushing;
mod gathering;
mod picks;
mod putting;
mod regions;
mod resync;
mod sources;

pub use gathering::attach_from;
pub use picks::is_picked;
pub use resync::{attach, recover};
