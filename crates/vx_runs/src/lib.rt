//! Runs of the whole call over ends and disks in memory, for the crates of tests.
#![tactic(auto)]

mod calls;
mod racks;

pub use calls::{Answer, answers, answers_with, run_over};
pub use vx_cli::{OpenGate, Status, fresh_racks, vx_main};
