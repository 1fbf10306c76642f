//! The sending end of a link, without its site: what each event makes of the link, and what is then to be done.
//!
//! Writes go by numbers from 1. The rule itself stands in `vx_history` (`Sending`). No call takes memory.
#![tactic(auto)]

pub mod laws;
mod machine;
mod messages;

pub use machine::step;
pub use vx_history::{Action, SEvent, SFacts};
