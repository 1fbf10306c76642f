//! The packets that are under way between sites, under their numbers.
//!
//! A packet is at most 1,072 bytes. The newest 65,536 are kept, and the numbers begin with 1. Memory is taken by `Flight::new` alone.
#![tactic(auto)]

mod flight;
pub mod laws;
mod net;
mod packet;

pub use flight::Flight;
pub use net::Net;
