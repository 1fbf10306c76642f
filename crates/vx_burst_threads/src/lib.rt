//! Several threads call one engine, and a worker for each link hands its log over to the link's peer.
//!
//! The threads never wait for a link: a thread ends at its first call that is stalled.
#![tactic(auto)]

mod drainer;
mod gate;
mod joins;
mod laying;
mod plan;
mod shared;
mod threads;
mod worker;
mod writer;

pub use drainer::Drainer;
pub use gate::{Gate, Gated, OpenGate};
pub use plan::{Answered, Planned, Told, Waited, call_of, is_stalled, tell};
pub use threads::work_and_meet;
pub use worker::Worker;
pub use writer::{Made, Writer};
