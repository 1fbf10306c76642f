//! The blocks of a log: its headers and the headers of its records.
//!
//! Each is a sealed block of 512 bytes. No call takes memory.
#![tactic(auto)]

mod header;
mod header_codes;
mod header_reading;
mod kind;
mod record;

pub use header::{HEADER_MAGIC, Header, get_header, put_header};
pub use kind::kinds;
pub use record::{RECORD_MAGIC, RecordHead, Seen, get_record, put_record};
