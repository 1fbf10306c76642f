//! The script language: its words, its lines, and how a line is printed.
#![tactic(auto)]

mod choice;
mod errors;
mod keyword;
mod laws;
mod line;
mod names;
mod parser;
mod places;
mod printer;
mod printers;
mod readers;
mod scan;
mod values;
mod volume;
mod word;
mod writer;
mod wrong;

pub use errors::LineErr;
pub use laws::{grammar, line_ends, printed_reads, wrong_place};
pub use line::{DiskState, Layout, ReadPolicy, ScriptLine, VolumeLog, VolumeMap};
pub use names::Names;
pub use parser::parse;
pub use printer::print;
use wrong::Wrong;
