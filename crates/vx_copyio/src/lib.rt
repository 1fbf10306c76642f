//! The calls that write and read the labels and the configuration copies of the disks of a group.
//!
//! Block 0 of a disk is its label, blocks 1 to 128 and 129 to 256 are the two configuration areas, and the public region
//! begins at block 512. Blocks are 512 bytes. What a body says is no matter here.
#![tactic(auto)]

mod clearing;
mod copying;
mod labelling;
mod settling;
mod spread;

pub use clearing::clear;
pub use copying::{AREA_A, AREA_B, put_copy};
pub use labelling::{are_large, label};
pub use settling::settle;
pub use spread::{CopyFailed, is_member, put_copies};
