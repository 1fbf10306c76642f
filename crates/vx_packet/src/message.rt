// Messages, and between whom they go.
use crate::{BlockBytes, MapBytes, RegionBytes};
use vx_model::Line;

/// What one site tells another. Blocks and maps are lent to it, and not copied. Numbers of writes and of replays, sessions and
/// generations are below 2^63.
#[derive(Drop)]
pub enum Message<'a> {
    /// A receiver tells its session, the last number that it received, and the last that it keeps.
    Hello {
        session: u64,
        number: u64,
        stored: u64,
    },
    /// A logged write: its number, its volume, the first block that it writes, and the blocks.
    Update {
        number: u64,
        vol: u32,
        block: u64,
        bytes: BlockBytes<'a>,
    },
    /// A receiver has this number in memory.
    NetAck {
        session: u64,
        number: u64,
    },
    /// A receiver keeps this number.
    DataAck {
        number: u64,
    },
    /// A replay of regions begins.
    ReplayStart {
        id: u64,
        start: u64,
    },
    /// The blocks of a region of a replay.
    Region {
        id: u64,
        vol: u32,
        region: u32,
        bytes: RegionBytes<'a>,
    },
    /// All regions of a replay were sent.
    RegionsDone {
        id: u64,
        start: u64,
        end: u64,
    },
    /// A receiver has what was sent of a replay: 0 its start, 1 a region, 2 its end. Volume and region are 0 but for a region.
    RegionAck {
        id: u64,
        vol: u32,
        region: u32,
        kind: u8,
    },
    /// The sender's line began at this number of its parent.
    Fork {
        fork: u64,
        parent: Line,
    },
    /// The regions of a volume that were written since a fork: how many regions it has, and a bit for each. Bits behind
    /// the last region are 0.
    ForkMap {
        vol: u64,
        regions: u64,
        bytes: MapBytes<'a>,
    },
    /// The receiver is to be the primary from this number on.
    Handover {
        head: u64,
    },
    /// Records below this number are needed no more.
    Trim {
        number: u64,
    },
}

/// From which site a message goes to which, and the line of the sending one.
#[derive(Clone, Copy, Debug, PartialEq, Eq)]
pub struct Envelope {
    pub source: u32,
    pub target: u32,
    pub line: Line,
}
