//! What the disks of a group keep, whatever a crash leaves of them.
//!
//! Each image that a crash may leave has a configuration of the group's volumes in which each plex that takes part, ACTIVE or
//! CLEAN, is ACTIVE in memory.
#![tactic(auto)]

mod cleaning;
mod committing;
mod first;
mod following;
mod losing;
mod states;
mod trusted;

pub use cleaning::{make_clean, make_open};
pub use committing::{commit_clean, commit_stale};
pub use first::commit_first;
pub use following::commit_next;
pub use losing::commit_lost;
pub use states::{make_active, make_stale, whole_of};
pub use trusted::is_trusted;
