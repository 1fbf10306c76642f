//! What each line of a script does to the sites of a run: its first refusal, or its work, and the text of its reply.
//!
//! A line that settles a link is made of others, and worked here. The lines of one site and those between sites have crates of their own.
#![tactic(auto)]

mod answering;
mod calls;
mod closing;
mod going;
pub mod laws;
pub mod sent;
mod settle;
mod settle_packets;
mod settle_turns;
mod settled;
mod text;

pub use calls::answer_line;
