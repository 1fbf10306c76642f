//! The blocks that a group's log holds and its volumes do not hold yet.
//!
//! A read of such a block takes its bytes from here. Memory is taken by `Overlay::new` alone.
#![tactic(auto)]

mod entry;
mod index;
pub mod laws;
mod overlay;

pub use entry::Entry;
pub use overlay::Overlay;
