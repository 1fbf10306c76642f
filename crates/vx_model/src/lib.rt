//! The types and definitions that every other crate of the volume manager speaks of.
//!
//! Blocks are 512 bytes. Sites, volumes and disks go by numbers from 0, writes by numbers from 1.
#![tactic(auto)]

mod block;
mod block_list;
mod bytes;
mod call;
mod errors;
mod history;
pub mod limits;
mod lines;
mod link;
mod name;
mod no;
mod roles;
mod site;
mod sizes;
mod state;
mod units;

pub use block::Block;
pub use block_list::Blocks;
pub use bytes::Bytes;
pub use call::{Call, Reply, Update};
pub use errors::{OutOfMemory, Stop};
pub use history::Line;
pub use lines::is_same_line;
pub use link::{Link, Mode, Phase, Prot, SyncMode};
pub use name::Name;
pub use no::{Counted, Named, No, SiteName, limit};
pub use roles::is_origin;
pub use site::{Mark, PlexState, Role, SPhase, SiteState};
pub use sizes::{is_raw_shape, map_blocks, ring_blocks};
pub use state::{KeptLink, KeptLinks, KeptMode, State};
pub use units::{Units, VolumeUnits};
