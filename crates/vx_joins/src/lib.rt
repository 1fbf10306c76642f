//! The disks of a site at a link: as they come to the line of another site, receive its updates, and hear what a receiver answers.
#![tactic(auto)]

mod hearing;
mod joining;
pub mod laws;
mod receiving;

pub use hearing::hear;
pub use joining::join;
pub use receiving::deliver_update;
