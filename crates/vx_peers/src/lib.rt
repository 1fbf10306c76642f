//! The ends of a link over the groups of their sites: what a site sends on a link, and what it makes of the packets that come.
#![tactic(auto)]

mod answering;
mod delivering;
mod hearing;
mod pumping;
mod reading;
mod sending;

pub use answering::{deliver_answer, heard_link};
pub use delivering::deliver_update;
pub use pumping::pump;
