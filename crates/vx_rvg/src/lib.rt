//! A replicated volume group: data volumes whose writes go to a log first.
//!
//! A write is durable once it is in the log. Its blocks wait in memory until `apply` brings them to their volumes; `read` looks at
//! what waits first. Memory is taken by `create` and `start` alone.
//!
//! A group commit is begun, writes are staged one after another, and sealed together.
#![tactic(auto)]

mod above;
mod apply;
mod asked;
mod change;
mod create;
mod group;
mod header;
mod joined;
mod mark;
mod marked;
mod patch;
mod read;
mod rvg_core;
mod seal;
mod stage;
mod stage_marked;
mod staging;
mod start;
mod store;
mod write;

pub use group::Rvg;
pub use rvg_core::RvgCore;
pub use staging::Staging;
pub use start::StartRoom;
