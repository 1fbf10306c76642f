//! The disks below: shelves of units of blocks, and racks, which are shelves whose units are disks.
//!
//! A block is 512 bytes. Units and blocks go by numbers from 0.
#![tactic(auto)]

mod disks;
mod errors;
mod keeping;
mod memory;
mod moment;
mod plan;
mod rack;
mod shelf;
mod steps;
mod unit;

pub use errors::{refusal, too_many};
pub use memory::MemShelf;
pub use plan::FaultPlan;
pub use rack::Rack;
pub use shelf::{Shelf, ShelfError};
pub use steps::put;
