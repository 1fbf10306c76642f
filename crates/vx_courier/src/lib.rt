//! The packets of the world as bytes: a message is sent in its parts, a packet is found under its number, and parts are put together.
//!
//! It takes no memory.
#![tactic(auto)]

mod finding;
pub mod laws;
mod reading;
mod sending;

pub use finding::part_at;
pub use reading::read_one;
pub use sending::send_message;
