//! The messages that sites send to each other, and the packets that carry them.
//!
//! A packet is at most 1,072 bytes: 48 of header, and up to 1,024 of a message's payload. Memory is taken by
//! `Assembly::new` alone. A message lends its blocks, so none is copied but into a packet, and out of one where its parts are put together.
#![tactic(auto)]

mod assembly;
mod block_bytes;
mod encoding;
mod gathered;
mod key;
pub mod laws;
mod map_bytes;
mod message;
mod part;
mod payload;
mod reading;
mod region_bytes;
mod row;
mod spelling;

pub use assembly::{Assembly, Taken};
pub use block_bytes::BlockBytes;
pub use encoding::{encode, parts};
pub use key::Key;
pub use map_bytes::MapBytes;
pub use message::{Envelope, Message};
pub use part::{Part, decode};
pub use reading::read_message;
pub use region_bytes::RegionBytes;
pub use spelling::can_spell;
