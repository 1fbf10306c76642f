//! Change maps: for each place of a link and each data volume of a group, which regions were changed, marked durably before they are
//! written.
//!
//! A region is 64 blocks. The maps lie in the group's map unit from its first block on: those of a place of a link one after another, volume
//! by volume, and behind them those of the next place. Memory is taken by `load` and `DcmRoom::new` alone.
#![tactic(auto)]

mod counting;
mod dcm;
mod fit;
mod joining;
mod room;
mod sizes;

pub use dcm::Dcm;
pub use fit::maps_fit;
pub use room::{DcmRoom, room_blocks};
