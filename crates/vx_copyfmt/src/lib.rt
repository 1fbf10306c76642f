//! The blocks of a disk of a group that say what it is: its label, and the headers of its two configuration areas.
//!
//! Each is a sealed block of 512 bytes. No call takes memory.
#![tactic(auto)]

mod area;
mod label;
mod laws;

pub use area::{AREA_MAGIC, AreaHeader, get_area, put_area};
pub use label::{LABEL_MAGIC, Label, LabelSeen, get_label, put_label};
pub use laws::blocks_have_one_spelling;
