//! Sites, links and lines of history: the definitions that say what each event makes of the world, and when it is let in.
//!
//! It stands on the types of `vx_model`. What holds of every world that can come about is proved in `vx_world`.
#![tactic(auto)]

mod admission;
mod event;
pub mod laws;
mod receiver;
pub mod replay_laws;
mod sender;
mod states;
mod volumes;

pub use admission::{Change, FullLog};
pub use event::{Event, LinkPart, Said};
pub use receiver::{RAction, REvent, RState};
pub use sender::{Action, SEvent, SFacts};
pub use states::{has_links, is_held, is_in_log, is_live, is_waited_for, takes_updates};
pub use volumes::{DataVolume, DataVolumes};
