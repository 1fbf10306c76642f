//! Where the blocks of volumes lie on the disks of a group, and where a new volume finds space.
//!
//! Blocks are 512 bytes. On each disk the public region begins at block 512.
#![tactic(auto)]

mod columns;
mod gap;
pub mod laws;
mod logs;
mod plexes;
mod rooms;
mod shape;
mod short;
mod space;
mod spot;
mod take;
mod used;

pub use shape::{Found, Runs, Shape};
pub use space::find_space;
pub use spot::{Spot, find_spot, place};
