// A record of the log in memory.
use vx_srlfmt::RecordHead;

/// A record of a log: the place of its header in the ring, and what the header says.
#[derive(Clone, Copy)]
pub struct Kept {
    pub place: u32,
    pub head: RecordHead,
}
