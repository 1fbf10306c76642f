//! A mirrored group of disks, which is itself a shelf whose units are its volumes.
//!
//! A write goes to each plex that is ACTIVE. Where some of them fail, they are made STALE by a commit before the answer.
#![tactic(auto)]

mod att;
mod attaching;
mod copying;
mod counting;
mod crashing;
mod create;
mod deporting;
mod det;
mod detaching;
mod finishing;
mod flushing;
mod group;
mod group_core;
mod grouping;
mod holding;
mod importing;
mod inner;
mod lengthening;
mod losing;
mod losing_attached;
mod losing_group;
mod making;
mod marking;
mod mending;
mod planning;
mod quiescing;
mod racking;
mod reading;
mod regaining;
mod releasing;
mod settling;
mod shaping;
mod taking;
mod trusting;
mod writing;
mod zeroing;

pub use att::att_in;
pub use counting::{give_up, mark_unsure};
pub use crashing::{crash_in, fall, revive};
pub use create::start;
pub use deporting::deport_in;
pub use det::{det_alone, det_in, refuse_det};
pub use finishing::renew;
pub use flushing::flush_group;
pub use group::Group;
pub use group_core::GroupCore;
pub use grouping::{may_name, set_rvg_in};
pub use importing::import_in;
pub use inner::Inner;
pub use losing_attached::lose_attached;
pub use losing_group::lose_group;
pub use making::make_in;
pub use racking::{fail_in, fuse_in};
pub use reading::read_in;
pub use releasing::release;
pub use settling::lacks_commit;
pub use shaping::refuse_volume;
pub use taking::{Plan, take_up};
pub use trusting::trust_group;
pub use writing::write_group;
