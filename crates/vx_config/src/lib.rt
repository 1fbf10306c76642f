//! The configuration of a disk group: its disks, volumes, plexes, subdisks and logs, and its one spelling in bytes.
//!
//! Numbers are unsigned, and their highest byte stands first. Disks, plexes and volumes go by their places in their
//! lists, from 0. Blocks are 512 bytes.
#![tactic(auto)]

mod checking;
mod config;
mod cursor;
mod decoding;
mod disks;
mod encoding;
mod entry;
mod fits;
mod group;
pub mod laws;
mod page;
mod plexes;
mod reading;
mod runs;
mod shape;
mod sizes;
mod soundness;
mod spelling;
mod stop;
mod subdisks;
mod volumes;
mod wrong;

pub use checking::check;
pub use config::Config;
pub use decoding::decode;
pub use disks::Disks;
pub use encoding::{encode, encode_into, is_short};
pub use entry::{DiskEntry, LogEntry, PlexEntry, Subdisk, VolumeEntry, VolumeLog};
pub use plexes::Plexes;
pub use runs::log_run;
pub use sizes::blocks_of;
pub use soundness::{column_blocks, is_live};
pub use stop::ConfigStop;
pub use subdisks::Subdisks;
pub use volumes::Volumes;
pub use vx_model::PlexState;
use wrong::Wrong;
