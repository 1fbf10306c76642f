//! The messages of the world as the packets of `vx_packet` carry them: both crates count the same parts, and name them by the same key.
#![tactic(auto)]

pub mod laws;
