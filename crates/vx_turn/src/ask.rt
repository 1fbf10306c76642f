// What an engine is asked beside its calls, and what it says.
use vx_model::{Call, No, Reply, Update};

/// A job, which changes neither the content nor the log.
#[derive(Clone, Copy)]
pub enum Job {
    /// Brings up to so many waiting records to their volumes.
    Apply { count: u64 },
    /// Reads the update of this number back.
    Fetch { number: u64 },
    /// The peer of the link in this place has received and stored the updates up to these numbers.
    Acked { link: u32, net: u64, stored: u64 },
    /// Asks whether the write of this number is confirmed.
    Wait { number: u64 },
}

/// What a job is answered.
#[derive(Clone, Copy)]
pub enum JobReply {
    /// The number up to which records are applied, the number that was fetched or is confirmed, or what the link's peer has received.
    Done(u64),
    /// Nothing is left to apply, no update has the number yet, or the write is not confirmed yet.
    Nothing,
    /// The update is no longer kept. The least number that is.
    Gone { low: u64 },
    Refused(No),
}

/// What an engine is asked: a call or a job.
#[derive(Clone, Copy)]
pub enum Ask {
    Ordered(Call),
    Charged(Job),
}

/// What it says: the reply of a call, or that of a job with the update that it left in its place.
#[derive(Clone, Copy)]
pub enum Said {
    Replied(Reply),
    Worked(JobReply, Update),
}
