//! The blocks of a ring log on a unit of a shelf: each call of the log on the shelf, as the acts that it makes.
//!
//! Places of the ring are counted on without wrapping: place p is block 2 + p mod R of a ring of R blocks. A call takes no memory.
#![tactic(auto)]

mod blank;
mod body;
mod reads;
mod top;
mod writes;

pub use blank::blank_ring;
pub use body::{Body, mask_body, unmask_body};
pub use reads::{read_body, read_front, read_top};
pub use top::TopSeen;
pub use writes::{flush_ring, write_body, write_front, write_header};
