//! Engines and peers in memory, for what goes on between threads: an engine without volumes with peers to which nothing comes, and one with
//! a small log, whose peers take what they are handed.
#![tactic(auto)]

mod bursts;
mod peer;
mod plans;
mod shut;
mod small;
mod taker;
mod trail;

pub use bursts::{burst_of, small_burst};
pub use peer::{Idle, two_peers};
pub use plans::{reads, writes};
pub use shut::Shut;
pub use small::{Core, RING_BLOCKS, Slip, Small, VOLUME_BLOCKS};
pub use taker::{Taker, two_takers};
pub use trail::{Note, noted};
