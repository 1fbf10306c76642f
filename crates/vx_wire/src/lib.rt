//! The fields of blocks and packets, each read and written at a place of a slice of bytes: numbers, lines, names, flags,
//! runs of bytes and of zeros, and sealed blocks.
//!
//! Numbers are unsigned, and their highest byte stands first. Places count bytes from 0.
#![tactic(auto)]

mod bytes;
mod field;
mod flag;
mod line;
mod name;
mod number;
mod sealed;

pub use bytes::{digest, get_bytes, is_zero, put_bytes, put_zeros};
pub use field::{Field, put_fields};
pub use flag::{get_flag, put_flag};
pub use line::{get_line, put_line};
pub use name::{get_name, put_name};
pub use number::{
    get_u8, get_u16, get_u32, get_u64, numbers_are_spelled, put_u8, put_u16, put_u32, put_u64,
};
pub use sealed::{BrokenSeal, broken_seal, seal};
