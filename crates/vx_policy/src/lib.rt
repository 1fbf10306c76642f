//! Whether a write is let in, by the links of its site and the room that each leaves in the log.
//!
//! Room is in blocks of 512 bytes of the ring; a write of c blocks takes c + 1 of them. The rule itself stands in `vx_history`
//! (`Admission`). No call takes memory.
#![tactic(auto)]

mod decision;
mod full;
pub mod laws;
mod verdict;

pub use decision::decide;
pub use full::{find_change, hold_of, is_down, refuse_full};
pub use verdict::{Facts, Verdict};
