//! A burst: several threads call one engine, while a worker for each link hands its log over, and what they left open is brought to its
//! end by the caller.
#![tactic(auto)]

mod burst;
mod finishing;
mod limits;
mod placing;
mod rooms;
mod setting;

pub use burst::{Outcome, run};
pub use limits::{MOST_PEERS, MOST_THREADS};
