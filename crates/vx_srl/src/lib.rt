//! The log of a site: writes are put into it before they count as done.
//!
//! It lies in one unit of a shelf: two headers, and behind them a ring of blocks in which records follow one another. The shelf is
//! handed to each call. `stage` writes the blocks of a record, and `seal` makes all that is staged part of the log, durably.
//! Memory is taken by `create` and `start` alone.
#![tactic(auto)]

mod create;
mod errors;
mod fetch;
mod kept;
mod log;
mod save;
mod scan;
mod seal;
mod stage;
mod start;

pub use errors::SrlNo;
pub use kept::Kept;
pub use log::Srl;
pub use start::LogRoom;
