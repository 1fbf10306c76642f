//! A group of disks as a site without a replicated volume group has it: what its calls make of what the site notes of the group.
//!
//! Its volumes are made, written and read by themselves, its plexes are detached and attached, and it is deported and imported. `GroupSite` is
//! the disks of such a site, whatever became of its group; where it is not known what they hold they tell nothing of their contents.
#![tactic(auto)]

mod beginning;
mod finding;
mod group_site;
mod idle;
mod importing;
mod keeping;
mod laid;
pub mod laws;
mod leaving;
mod making;
mod plain;
mod plexes;
mod racking;
mod site_keeping;
mod site_leaving;
mod site_making;
mod site_plain;
mod site_plexes;
mod site_returning;
mod tracing;
mod watching;

pub use beginning::begin_group;
pub use finding::find_group;
pub use group_site::GroupSite;
pub use idle::Idle;
pub use importing::import_group;
pub use keeping::kept_plain;
pub use laid::Laid;
pub use leaving::deport_group;
pub use making::make_volume_of;
pub use plain::{read_plain, write_plain};
pub use plexes::{att_plex, det_plex};
pub use site_making::make_watched;
pub use site_plain::is_off;
pub use site_plexes::is_down_stop;
pub use tracing::{trace, traced, untrace, untraced};
pub use watching::{att_watched, det_watched, read_watched, write_watched};
