//! The replay of a change map at the site that receives it: its begin, its regions, its end, and the mark behind it.
//!
//! The rule of `vx_replay` says what becomes of a message. No call takes memory.
#![tactic(auto)]

mod marking;
mod region;
mod replay;
mod told;

pub use marking::settle_mark;
pub use region::store_region;
pub use replay::{begin_replay, close_replay};
pub use vx_replay::QAction;
