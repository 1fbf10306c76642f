//! A replicated volume group that receives the writes of another site.
//!
//! Updates that come wait in memory, at most 16. `apply` logs the oldest of them, in their order, and brings them into the volumes.
//! Memory is taken by `Waiting::new` alone, which `Secondary::new` calls.
#![tactic(auto)]

mod apply;
mod logging;
mod over;
mod room;
mod rule;
mod secondary;
mod show;
mod waiting;

pub use rule::receiver;
pub use secondary::Secondary;
pub use vx_receiver::RAction;
pub use waiting::Waiting;
