//! Durable bits: one for each region of a volume, in a run of blocks of a shelf's unit.
//!
//! Region r is bit `r mod 8`, from the lowest, of byte `(r / 8) mod 512` of block `r / 4096`. Memory is taken by `load` alone.
#![tactic(auto)]

mod bit;
mod bitmap;
mod change;
mod run;

pub use bit::has_bit;
pub use bitmap::Bitmap;
