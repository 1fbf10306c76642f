// What contracts see of an engine, and of its history. No value of these is made.
use crate::ask::{Ask, Said};
use std::collections::LinkedList;
use vx_model::{Line, Update};

/// Counts that never fall: of faults, and of writes that were refused because of a link, the log's room or a greatest number.
pub struct Counts {
    pub faults: u64,
    pub held: u64,
}

/// What an engine stands for.
pub struct State {
    /// The volumes, each a list of blocks of 512 bytes.
    pub volumes: LinkedList<LinkedList<LinkedList<u8>>>,
    /// The blocks of the log's ring.
    pub ring: u64,
    /// The number of the last logged write.
    pub head: u64,
    /// The number up to which the logged writes are in the volumes below. Those behind it wait.
    pub applied: u64,
    pub line: Line,
    /// The updates that the log holds.
    pub kept: LinkedList<Update>,
    /// For each link the number up to which its peer has received.
    pub nets: LinkedList<u64>,
    pub counts: Counts,
    pub halted: bool,
    /// All that it was asked and said, in order.
    pub trail: LinkedList<(Ask, Said)>,
}

/// A member of a history: who asked, what, what was said, and the engine's counts before and after.
pub struct Entry {
    pub caller: u64,
    pub ask: Ask,
    pub said: Said,
    pub before: Counts,
    pub after: Counts,
}
