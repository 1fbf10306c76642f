//! The world of sites, links, lines and packets in memory, as plain lists, and the tests of its events.
//!
//! Sites, volumes and disks go by numbers from 0, writes and packets by numbers from 1. What a world is seen as is said by
//! `world_of` (`specs/Shapes.antt`).
#![tactic(auto)]

pub mod bounds;
mod changes;
mod confirming;
mod content;
mod dispatches;
mod gathering;
pub mod groups;
mod history;
mod link;
mod maps;
mod node;
mod packet;
mod receipts;
pub mod refusals;
pub mod row;
mod updates;
mod world;

pub use content::{Content, Write};
pub use dispatches::Dispatches;
pub use gathering::{Gathering, Key, Place};
pub use history::{Entry, History};
pub use link::{Link, Row};
pub use maps::{ChangeMaps, MapChange, MapEntry};
pub use node::Node;
pub use packet::{Dispatch, Message, Packet, Promise, Surety};
pub use world::World;
