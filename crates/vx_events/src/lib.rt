//! Each line of a script as events of the world: which events it stands for, in which ways they may end, and the reply.
//!
//! What a line is refused before any event is said by `vx_order`, and what an event makes of the world by `vx_history`.
#![tactic(auto)]

mod failing;
pub mod laws;
pub mod link_laws;
mod said;

pub use failing::is_failing;
pub use said::Said;
