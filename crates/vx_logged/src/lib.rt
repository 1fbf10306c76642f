//! Calls of a group that go by the dirty region logs of its volumes: a write is marked before a plex is written, a flush may take marks off,
//! and a log that fails is lost by a commit.
//!
//! Of a block of which the log has not the region, each plex that is ACTIVE has the same, whatever a crash leaves, at each moment between calls.
#![tactic(auto)]

mod beginning;
mod clearing;
mod copying;
mod crashing;
mod detaching;
mod emptying;
mod flushing;
mod keeping;
mod marking;
mod missing;
mod readying;
mod refusing;
mod spending;
mod writing;

pub use clearing::clear_group;
pub use copying::copy_plex;
pub use crashing::{crash_logged, revive_logged};
pub use detaching::det_logged;
pub use flushing::flush_cleared;
pub use keeping::{keep_logs, keep_map};
pub use marking::mark_group;
pub use missing::flush_behind;
pub use readying::ready_group;
pub use spending::{flush_noted, flush_spent};
pub use writing::write_marked;
