// What lies in the table.
use crate::ask::{Job, JobReply};
use std::snapshot::Snapshot;
use vx_model::{Call, Reply, Update};

/// What an engine was asked last, and what it said. It has no bytes but which of the two it was.
#[derive(Drop)]
pub enum Last {
    Ordered(Snapshot<Call>, Snapshot<Reply>),
    Charged(Snapshot<Job>, Snapshot<JobReply>, Snapshot<Update>),
}

/// The engine, with what it was before it was asked last.
#[derive(Drop)]
pub struct Slot<E> {
    pub engine: E,
    pub before: Snapshot<E>,
    pub last: Last,
}

/// What the table is told once.
#[derive(Drop)]
pub struct Opening<E> {
    pub callers: u64,
    pub engine: Snapshot<E>,
}
