//! Commits and imports: the configuration of a group as its disks keep it.
//!
//! Block 0 of a disk is its label, blocks 1 to 128 and 129 to 256 are the two configuration areas, and the public region
//! begins at block 512. Blocks are 512 bytes.
#![tactic(auto)]

mod area;
mod body;
mod calls;
mod committing;
mod importing;
pub mod laws;
mod look;
mod marking;
mod room;
mod search;
mod seen;
mod settle;
mod spelling;
mod trying;

pub use body::is_wanted;
pub use calls::{commit, commit_in, commit_named};
pub use importing::import;
pub use marking::{has_good, hold_failed};
pub use room::Room;
use seen::{AreaSeen, BodySeen, CopySeen, DiskSeen};
pub use settle::good_of;
use spelling::spell;
use trying::put_config;
pub use vx_copyio::label;
