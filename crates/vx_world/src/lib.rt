//! The world of sites, links and packets as a program, and what holds of it whatever happens.
//!
//! Sites, volumes and disks go by numbers from 0, writes and packets by numbers from 1. What each event makes of a world is
//! defined in `vx_history` (`Step`), and what holds of every world that can come about in `Sound`.
#![tactic(auto)]

mod admission;
mod applies;
mod deliveries;
mod faults;
mod greetings;
mod hearing;
pub mod laws;
mod machine;
mod outages;
mod pumps;
mod reads;
mod receiving;
mod recoveries;
mod rule;
mod settings;
mod sites;
mod switches;
mod targets;
mod ticks;
mod waits;
mod writes;

pub use machine::{Answer, step};
pub use vx_history::{Event, LinkPart, Said};
pub use vx_sites::World;
