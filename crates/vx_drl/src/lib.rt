//! The dirty regions of a volume: which regions may have writes that were not flushed, marked durably before they are written.
//!
//! A region is 64 blocks. The map of a volume lies where the configuration has its dirty region log. Memory is taken by `load` alone.
#![tactic(auto)]

mod drl;
mod marks;

pub use drl::Drl;
pub use marks::MOST_HELD;
