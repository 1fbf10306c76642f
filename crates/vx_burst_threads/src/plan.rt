// What the threads of a burst ask, and what they are answered.
ghost use Rattle.std.specs.Prelude.{◌≡◌, take, MatchBool};
ghost use Rattle.vx_burst_threads.specs.Planning.{IsCall, call_for, IsToldAs, IsStalled, IsNotStalled, IsStall, IsNoStall};

use vx_model::limits::BLOCK;
use vx_model::{Block, Blocks, Call, No, Reply};

/// A call of a thread: a read of one block, or a write of so many blocks of one byte.
#[derive(Clone, Copy)]
pub struct Planned {
    /// From 1.
    pub thread: u32,
    pub vol: u32,
    pub start: u64,
    /// How many blocks a write has. A read has one.
    pub count: u32,
    /// The byte of a write, and `None` for a read.
    pub fill: Option<u8>,
}

/// What a call is told: of a read its one block, of a write its number, or a refusal.
#[derive(Clone, Copy)]
pub enum Told {
    Got(Block),
    Done(u64),
    Logged(u64),
    Refused(No),
}

/// How the waiting for a logged write ended.
#[derive(Clone, Copy, Debug, PartialEq, Eq)]
pub enum Waited {
    /// It did not, or there was none.
    No,
    Done,
    /// The write is logged and not confirmed.
    Unconfirmed,
}

/// What a member of the plan was answered, at which place among all.
#[derive(Clone, Copy)]
pub struct Answered {
    pub place: u64,
    pub reply: Told,
    pub waited: Waited,
}

/// The call of a member of a plan.
pub fn call_of(planned: &Planned) -> Call
    requires { IsCall planned.now }
    ensures { result ≡ call_for planned.now }
{
    match planned.fill {
        None => Call::Read {
            vol: planned.vol,
            start: planned.start,
            count: 1,
        },
        Some(fill) => Call::Write {
            vol: planned.vol,
            start: planned.start,
            bytes: Blocks::filled(planned.count as u64, fill),
        },
    }
}

// The first of the blocks.
fn first_block(bytes: &Blocks) -> Block
    ensures { result ≡ take BLOCK bytes.now }
{
    let mut held = [0; BLOCK];
    held.copy_from_slice(&bytes.as_bytes()[..BLOCK]);
    Block::new(held)
}

/// What a reply tells.
pub fn tell(reply: &Reply) -> Told
    ensures { IsToldAs reply.now result }
{
    match reply {
        Reply::Got(bytes) => Told::Got(first_block(bytes)),
        Reply::Done(number) => Told::Done(*number),
        Reply::Logged(number) => Told::Logged(*number),
        Reply::Refused(cause) => Told::Refused(*cause),
    }
}

// Whether a refusal is 13.
fn stalls(cause: &No) -> bool
    ensures { MatchBool result (IsStall cause.now) (IsNoStall cause.now) }
{
    match cause {
        No::Stalled { link: _ } => true,
        _ => false,
    }
}

/// Whether a reply is 13.
pub fn is_stalled(reply: &Reply) -> bool
    ensures { MatchBool result (IsStalled reply.now) (IsNotStalled reply.now) }
{
    match reply {
        Reply::Refused(cause) => stalls(cause),
        _ => false,
    }
}
