//! A site that receives the writes of another, without its disks: what each event makes of it, and what is then to be done.
//!
//! Records go by numbers from 1. The rule itself stands in `vx_history` (`Receiving`). No call takes memory.
#![tactic(auto)]

pub mod laws;
mod machine;

pub use machine::step;
pub use vx_history::{RAction, REvent, RState};
