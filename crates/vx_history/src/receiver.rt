// What happens at a site that receives writes, and what then is to be done.
use vx_model::{Line, Mark, SPhase};

/// A site that receives.
#[derive(Clone, Copy, Debug, PartialEq, Eq)]
pub struct RState {
    /// The line on which it stands.
    pub line: Line,
    /// The number of the last record that it has received.
    pub last: u64,
    /// How many received records wait to be applied.
    pub waiting: u32,
    pub session: u64,
    pub mark: Mark,
    pub phase: SPhase,
    /// The id of the last replay that it took.
    pub replay: u64,
    /// The number from which on it is consistent after that replay.
    pub end: u64,
}

/// What happens at a site that receives.
#[derive(Clone, Copy, Debug, PartialEq, Eq)]
pub enum REvent {
    /// An update came.
    Update { line: Line, number: u64 },
    /// The next waiting records are on disk, so many of them or all.
    Applied { count: u32 },
    /// The site comes up again with so many records, in this session.
    Restart { last: u64, session: u64 },
}

/// What is to be done after an event of a site that receives.
#[derive(Clone, Copy, Debug, PartialEq, Eq)]
pub enum RAction {
    Nothing,
    /// The update was ignored.
    Ignored,
    /// The update was ignored, and the last number received is acknowledged from memory again.
    IgnoredAck { number: u64 },
    /// The update waits now, and its number is acknowledged from memory.
    Take { ack: u64 },
    /// This number is acknowledged from disk.
    DataAck { number: u64 },
}
