//! The disks of one site: bare, under a replicated volume group, or down; and what each call on them makes of the site.
#![tactic(auto)]

mod above;
mod disk_set;
mod founded;
mod founded_calls;
mod group_finds;
mod group_set;
mod group_starts;
mod grouping;
mod idles;
mod keeping;
mod labels;
mod over_asked;
mod over_away;
mod over_calls;
mod over_disks;
mod over_group;
mod over_plain;
mod over_plexes;
mod over_set;
mod over_starts;
mod over_volumes;
mod over_work;
mod places;
mod pumping;
mod reading;
mod receivers;
mod room;
mod starting;
mod units;
mod withdrawing;
mod writing;
mod zeroing;

pub use above::Above;
pub use disk_set::DiskSet;
pub use founded::{Founded, FoundedReceiver};
pub use group_set::{CutWrite, GroupSet, KeptWrite};
pub use over_set::{OverSet, OverSite};
pub use places::put_back;
pub use reading::blocks_of;
pub use receivers::Reached;
pub use units::can_be_raw;
