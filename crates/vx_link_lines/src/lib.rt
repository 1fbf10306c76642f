//! The lines between the sites of a run: links are made and changed, packets are sent and delivered, and a site that receives applies what it has.
//!
//! A line has a file by its word (`pump`, `deliver` ..). What it does to links in memory is in `vx_linked`, and on the disks of a site in `vx_joins`.
#![tactic(auto)]

mod apply;
mod connect;
mod cut;
mod deliver;
mod hearing;
mod joins;
mod link;
mod linking;
mod links;
mod pause;
mod pump;
mod received;
mod resume;
mod set;
mod tick;
mod wait;

pub use apply::apply_line;
pub use connect::connect_line;
pub use deliver::deliver_line;
pub use links::work_link;
pub use pump::pump_line;
pub use tick::tick_line;
