//! The lines that work on one site of a run: it is made, written, read and shown, its disks fail, it crashes, and it recovers.
//!
//! A line has a file by its word (`crash`, `write` ..). What it does on the disks of the site is in `vx_diskset`.
#![tactic(auto)]

mod crash;
mod disk;
mod fuse;
mod make;
mod noting;
mod raised;
mod read;
mod recover;
mod rooms;
mod shown;
mod status;
mod write;

pub use crash::crash_line;
pub use disk::set_disk;
pub use fuse::fuse_line;
pub use make::{make_raw, make_site};
pub use read::{read_line, show_line};
pub use recover::recover_line;
pub use status::status_line;
pub use write::{put_line, write_line};
