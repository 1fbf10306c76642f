//! The lines that work on the disks of one site as a group: it is made, deported, imported and recovered, its volumes are made, written and read, its
//! plexes are detached and attached, its status is shown, and it gets a replicated volume group. Behind that it is only recovered here.
//!
//! A line has a file by its word (`init`, `volume` ..). What it does on the disks of the site is in `vx_diskset`.
#![tactic(auto)]

mod above;
mod blocks;
mod deport;
mod found;
mod import;
mod init;
mod lines;
mod marks;
mod noting;
mod numbers;
mod plex;
mod read;
mod recover;
mod rvg;
mod status;
mod views;
mod volume;
mod write;

pub use above::has_rvg;
pub use blocks::filled;
pub use found::{holds_group, recover_found};
pub use lines::{is_of_group, work_group};
