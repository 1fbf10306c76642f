//! A shelf with an account of its calls, kept in proofs alone: what they made of the disks below since it was begun.
//!
//! A caller of something that stands on any shelf puts it around its disks for a call, and so learns what the calls on a device made of them.
#![tactic(auto)]

mod begun;
mod traced;
mod watched;

pub use begun::Begun;
pub use traced::Traced;
pub use watched::Watched;
