//! A volume with its logs: which regions may differ on its plexes is durably marked before the plexes are written.
//!
//! A region is 64 blocks of 512 bytes. A log whose disk fails is lost: it is in memory no more, and the caller commits that.
#![tactic(auto)]

mod loading;
mod logs;
mod marking;
mod noting;
mod sets;
mod writing;

pub use loading::{load_drl, load_fmr};
pub use logs::{Logs, Lost};
pub use sets::is_in;
pub use writing::{Stored, Written, mark, put, write};
