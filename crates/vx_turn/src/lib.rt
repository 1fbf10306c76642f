//! One engine that several callers share, whose calls and jobs stand in one history.
//!
//! A turn is held by one caller at a time. A call waits until the turn is free, and takes no memory. Places of the history count from 1.
#![tactic(auto)]

mod ask;
mod engine;
mod limits;
mod meaning;
mod opening;
mod origin;
mod passes;
mod rule;
mod slot;
mod steps;
mod turn;
mod view;

pub use ask::{Ask, Job, JobReply, Said};
pub use engine::Engine;
pub use limits::MOST_CALLERS;
pub use meaning::{Counts, Entry, State};
pub use passes::{Pass, Passes};
pub use slot::{Last, Opening, Slot};
pub use turn::Turn;
pub use view::View;
