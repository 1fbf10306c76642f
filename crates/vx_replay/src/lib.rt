//! The replay of a change map, without sites and disks: what each event of it makes of the link at its sending end, and of the site that
//! receives, and what is then to be done.
//!
//! A replay copies the regions of a map while writes go on, and hands the link back to the log. No call takes memory.
#![tactic(auto)]

mod event;
pub mod laws;
mod receiving;
mod sending;

pub use event::{PAction, PEvent, QAction, QEvent};
pub use receiving::secondary;
pub use sending::primary;
