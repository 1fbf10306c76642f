// Calls of an engine, their replies, and logged writes.
use crate::{Blocks, Line, No};

/// A read or a write of a volume's blocks. Volumes go by their numbers in the replicated volume group.
#[derive(Clone, Copy)]
pub enum Call {
    Read { vol: u32, start: u64, count: u32 },
    Write { vol: u32, start: u64, bytes: Blocks },
}

/// What a call is answered.
#[derive(Clone, Copy)]
pub enum Reply {
    /// The blocks that were read.
    Got(Blocks),
    /// The write is logged under this number.
    Done(u64),
    /// The same, and a link is to confirm it.
    Logged(u64),
    Refused(No),
}

/// A logged write.
#[derive(Clone, Copy)]
pub struct Update {
    pub line: Line,
    pub number: u64,
    pub vol: u32,
    pub block: u64,
    pub bytes: Blocks,
}
