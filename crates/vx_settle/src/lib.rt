//! Brings peers up to their engine, and stalled calls and waits to their end, in one thread alone.
//!
//! Nothing here waits or takes memory.
#![tactic(auto)]

mod bringing;
mod peer;

pub use bringing::{Ended, answer_again, bring, bring_all, unset, wait_for};
pub use peer::{Ack, Peer, Stand};
