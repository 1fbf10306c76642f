//! The sites of a run: what the tests of a line look at, their disks, and the packets between them.
//!
//! A `Yard` has the disk sets of eight sites. What it stands for, what a line may ask of it and what each line leads it to is defined here; the lines
//! work in the crates above.
#![tactic(auto)]

mod errors;
pub mod facts;
pub mod falling;
pub mod folder;
pub mod group_facts;
pub mod load;
pub mod place;
mod racks;
pub mod receiving;
pub mod refusing;
mod whole;
mod yard;

pub use errors::LineStop;
pub use vx_diskset::DiskSet;
pub use yard::Yard;
