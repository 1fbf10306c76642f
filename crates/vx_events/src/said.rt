// What a line is answered, before it is text.
use vx_model::{Bytes, No};
use vx_report::{Kept, SiteView};

/// The reply of a line.
#[derive(Drop)]
pub enum Said {
    Done,
    /// The number of a write.
    DoneAt(u64),
    /// Blocks that were read.
    Got(Bytes),
    Shown(SiteView),
    /// The last number of the log that a site came up with, and how the site stands.
    Recovered(u64, SiteView),
    /// How a site over a group of disks stands that came up, and what is kept of a write that its crash cut.
    Resumed(SiteView, Option<Kept>),
    /// The number of a write that some link has to confirm.
    Logged(u64),
    /// The number of a write that some link has still to confirm.
    Pending(u64),
    /// A packet was taken.
    Taken,
    /// A packet was ignored.
    Ignored,
    /// A link has brought its site up to this number.
    Settled(u64),
    Refused(No),
}
