// What a seat at the table knows of the history. No value of this is made.
use crate::meaning::{Entry, State};
use std::collections::LinkedList;

/// The view of a pass, or of the passes that are to be dealt.
pub struct View {
    /// It is not the rest of a pass that met another.
    pub live: bool,
    /// The numbers of the callers that it stands for: from `low`, below `high`.
    pub low: u64,
    pub high: u64,
    /// It has the engine.
    pub holds: bool,
    pub seen: LinkedList<Entry>,
    /// The places of its own entries in the history, from 1.
    pub mine: LinkedList<u64>,
    /// The callers that it met, each with its places.
    pub met: LinkedList<(u64, LinkedList<u64>)>,
    /// The two histories that it was put together from.
    pub one: LinkedList<Entry>,
    pub two: LinkedList<Entry>,
    /// What the engine was when the turn began.
    pub start: State,
    pub callers: u64,
}
