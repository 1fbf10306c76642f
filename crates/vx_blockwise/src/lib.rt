//! A shelf whose crashes leave each block by itself, around any shelf.
//!
//! A crash may leave images of a shelf in which some blocks hang together. A caller that is to know what becomes of any mix of what each block by itself
//! may have puts this around its shelf for a call: what the call tells of the images that it leaves, it then tells of each such mix.
#![tactic(auto)]

mod blockwise;
mod past;

pub use blockwise::Blockwise;
pub use past::Past;
