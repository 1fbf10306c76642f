//! A group that keeps the dirty region logs of its volumes.
//!
//! Of a block of which the log of its volume has not the region, each plex that is ACTIVE has the same, whatever a crash leaves, at each moment
//! between calls; so an import copies the regions alone that a log has. A log has no region but those of writes since the last import that
//! took its marks off. A log in use goes out of use only in a call in which one on its disk failed, or where the shelf is down or no serial is left.
#![tactic(auto)]

mod alike;
mod attaching;
mod beginning;
mod behind;
mod clearing;
mod crashing;
mod deporting;
mod detached;
mod detaching;
mod doubting;
mod failed_maps;
mod first;
mod following;
mod fresh;
mod gone_maps;
mod group;
mod keeping;
mod losing;
mod making;
mod opening;
mod racked;
mod racking;
mod resting;
mod shelving;
mod taking;
mod trusting;
mod whole;

pub use attaching::att_whole;
pub use crashing::crash_whole;
pub use deporting::deport_whole;
pub use detached::det_fresh;
pub use detaching::det_whole;
pub use fresh::write_fresh;
pub use group::LoggedGroup;
pub use keeping::read_whole;
pub use making::make_fresh;
pub use opening::{Opened, open_logged};
pub use racking::{fail_whole, fuse_whole};
pub use whole::{flush_whole, write_whole};
