// What is asked of a write, and what is answered.
use vx_model::No;
use vx_model::limits::LINK_PLACES;

/// A write, and how full the log is.
#[derive(Clone, Copy, Debug, PartialEq, Eq)]
pub struct Facts {
    /// The blocks of the ring that the write takes: its own and one more.
    pub need: u64,
    /// The blocks of the ring.
    pub room: u64,
    /// The number of the last write that is logged.
    pub head: u64,
    /// For each link, in order, the blocks of the ring that the numbers above its hold take.
    pub used: [u64; LINK_PLACES],
}

/// What becomes of a write.
#[derive(Clone, Copy, Debug, PartialEq, Eq)]
pub enum Verdict {
    /// It is let in. The links of these two sets change their mode first; bit i stands for link i, the first of which is 0.
    Go { stale: u8, dcm: u8 },
    /// It is refused with 12, 13 or 14, and nothing changes. The refusal names the link's site by its number.
    Refuse(No),
}
