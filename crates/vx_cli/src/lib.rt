//! The top call: a script in, replies out.
#![tactic(auto)]

mod gate;
mod host_racks;
pub mod laws;
mod line;
mod main_call;
mod reader;
mod run;
mod status;
mod texts;
mod turn;
mod words;

pub use gate::{Gate, OpenGate};
pub use host_racks::fresh_racks;
pub use main_call::vx_main;
pub use status::Status;
