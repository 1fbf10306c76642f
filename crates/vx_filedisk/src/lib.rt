//! The disks of a site in memory or in files: the trusted edge.
//!
//! In files one disk is one file of 512 bytes a block.
#![tactic(auto)]

mod counts;
mod files;
mod fit;
mod host;
mod rack;

pub use host::HostRack;
