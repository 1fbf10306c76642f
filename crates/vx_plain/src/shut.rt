// An engine without volumes.
ghost use Rattle.std.specs.Prelude.{◌≡◌, [], false};
ghost use Rattle.vx_plain.specs.Trails.{IsRefusedCall, IsSaid, trail_of, shut};

use crate::trail::{Note, noted, unused};
use std::mem;
use std::snapshot::Snapshot;
use vx_model::limits::MOST_CALL_BLOCKS;
use vx_model::{Call, Line, No, Reply, Update};
use vx_turn::{Engine, Job, JobReply, Last};

/// It refuses each call, has two links to which nothing goes, and knows what it was asked and said.
#[derive(Drop)]
pub struct Shut {
    first: Snapshot<Option<Note>>,
    trail: Snapshot<Option<Note>>,
}

impl Shut {
    /// One that was asked nothing.
    pub fn new() -> Shut
        ensures { trail_of result.trail.value ≡ [] }
    {
        Shut {
            first: unused(),
            trail: unused(),
        }
    }
}

// Why a call is refused.
fn cause_of(call: &Call) -> No
    ensures { IsRefusedCall call.now result }
{
    match call {
        Call::Read {
            vol: _,
            start: _,
            count,
        } => {
            if *count == 0 || *count as u64 > MOST_CALL_BLOCKS {
                No::Size
            } else {
                No::Range
            }
        }
        Call::Write {
            vol: _,
            start: _,
            bytes: _,
        } => No::Size,
    }
}

// What a job is answered.
fn reply_of(job: &Job) -> JobReply
    ensures { IsSaid job.now result }
{
    match job {
        Job::Apply { count: _ } => JobReply::Nothing,
        Job::Fetch { number } => {
            if *number > 0 {
                JobReply::Nothing
            } else {
                JobReply::Gone { low: 1 }
            }
        }
        Job::Acked {
            link: _,
            net: _,
            stored: _,
        } => JobReply::Done(0),
        Job::Wait { number: _ } => JobReply::Nothing,
    }
}

impl Engine for Shut {
    ghost state = { λ e. shut (trail_of e.trail.value) };

    ghost root = { λ e. record e { trail = e.first } };

    fn head(&self) -> u64 {
        0
    }

    fn line(&self) -> Line {
        Line {
            generation: 0,
            origin: 0,
        }
    }

    fn answer(&mut self, call: &Call) -> Reply {
        let reply = Reply::Refused(cause_of(call));
        let last = Last::Ordered(Snapshot::of(call), Snapshot::of(&reply));
        self.trail = noted(mem::replace(&mut self.trail, unused()), last);
        reply
    }

    fn job(&mut self, job: &Job, into: &mut Update) -> JobReply {
        let reply = reply_of(job);
        let last = Last::Charged(Snapshot::of(job), Snapshot::of(&reply), Snapshot::of(into));
        self.trail = noted(mem::replace(&mut self.trail, unused()), last);
        reply
    }
}
