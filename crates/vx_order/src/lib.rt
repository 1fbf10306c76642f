//! The tests of a script line, in the one order of refusals.
//!
//! Complete are the lines `site`, `raw`, `disk`, `crash`, `fuse`, `recover`, `dg`, `vol`, `plex`, `rvg`, `write`, `put`, `read`,
//! `show`, `apply`, `status`, `link`, `set`, `connect`, `cut`, `pause`, `resume`, `pump`, `tick`, `wait` and `settle`, over links
//! that go by the log, but for a last plex and for want of space, which a disk group finds itself. A `deliver` line looks at the
//! network alone (`refuse_packet`). Of every other line the tests for unknown sites, for sites that are not up and for halted sites
//! stand.
#![tactic(auto)]

mod ask;
mod calls;
mod facts;
mod first;
mod group_laws;
mod grouping;
mod holding;
mod joining;
mod laws;
mod link_laws;
mod links;
mod order;
mod packets;
mod replicating;
mod sending;
mod shape;
mod sites;
mod span;
mod subject;
mod volumes;

pub use facts::{
    LinkFacts, LinkRoom, LinkTable, RvgFacts, SiteFacts, VolumeFacts, VolumeKind, VolumeRoom,
    VolumeTable,
};
pub use group_laws::{deport_lines, import_lines, init_lines, plex_lines, rvg_lines, volume_lines};
pub use laws::{
    apply_lines, crash_lines, disk_lines, fuse_lines, put_lines, raw_lines, read_lines,
    recover_lines, show_lines, site_lines, status_lines, write_lines,
};
pub use link_laws::{link_lines, pump_lines, set_lines, settle_lines, turn_lines, wait_lines};
pub use links::name_at;
pub use order::refuse;
pub use packets::refuse_packet;
