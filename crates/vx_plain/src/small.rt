// An engine with one small volume and a log in memory.
ghost use Rattle.std.specs.Prelude.{◌≡◌, ◌+◌, ◌-◌, ◌<◌, ◌≤◌, [], ◌∷◌, ◌++◌, length, slice_get, Some, MatchOption, if◌then◌else◌};
ghost use Rattle.vx_model.specs.Content.{blocks_in};
ghost use Rattle.vx_model.specs.declared.call.Call.TheVariants.{Read, Write as WriteBlocks};
ghost use Rattle.vx_turn.specs.Acting.{CountRose, NamesLink};
ghost use Rattle.vx_turn.specs.declared.ask.Ask.TheVariants.{Ordered, Charged};
ghost use Rattle.vx_turn.specs.declared.ask.Said.TheVariants.{Replied, Worked};
ghost use Rattle.vx_turn.specs.declared.ask.Job.TheVariants.{Acked, Wait};
ghost use Rattle.vx_plain.specs.Trails.{trail_of};
ghost use Rattle.vx_plain.specs.Logging.{logging, kept_from, Does, RaisesCount, HeldFor, Grew, AnswersFetch};

use crate::trail::{Note, noted, unused};
use std::alloc::Global;
use std::mem;
use std::snapshot::Snapshot;
use vx_model::limits::{BLOCK, MOST_CALL_BLOCKS};
use vx_model::{Blocks, Call, Counted, Line, No, Reply, SiteName, Update};
use vx_turn::{Engine, Job, JobReply, Last};

/// The blocks of its volume.
pub const VOLUME_BLOCKS: u64 = 64;
/// The blocks of its log's ring, as far as the size of a record goes.
pub const RING_BLOCKS: u64 = 64;

/// A write that is logged. Its place in the log is its number.
#[derive(Clone, Copy)]
pub struct Slip {
    pub vol: u32,
    pub start: u64,
    pub bytes: Blocks,
}

/// The log, and what both links have received.
#[derive(Drop)]
pub struct Core {
    pub slips: Vec<Slip>,
    pub nets: [u64; 2],
    /// How far a link may be behind before a write is stalled.
    pub lag: u64,
    pub faults: u64,
    pub held: u64,
}

/// It logs writes, which both of its links are to confirm, and each read fails. A write is stalled where a link is too far behind.
#[derive(Drop)]
pub struct Small {
    pub core: Core,
    first: Snapshot<Core>,
    none: Snapshot<Option<Note>>,
    trail: Snapshot<Option<Note>>,
}

impl Small {
    /// One that has logged nothing. A link may be so many writes behind.
    pub fn new(alloc: Global, lag: u64) -> Small
        ensures { trail_of result.trail.value ≡ [] }
    {
        let core = Core {
            slips: Vec::new(alloc),
            nets: [0; 2],
            lag,
            faults: 0,
            held: 0,
        };
        let first = Snapshot::of(&core);
        Small {
            core,
            first,
            none: unused(),
            trail: unused(),
        }
    }
}

/// One more, up to the greatest number.
pub(crate) fn raised(count: u64) -> u64
    ensures { RaisesCount count result }
{
    count.saturating_add(1)
}

/// How many blocks these are.
pub(crate) fn count_of(bytes: &Blocks) -> u64
    ensures { (result ≡ blocks_in bytes.now) × (0 < result) × (result ≤ MOST_CALL_BLOCKS) }
{
    (bytes.as_bytes().len() / BLOCK) as u64
}

/// Puts one behind the others, and says whether there was memory for it.
pub(crate) fn put<T: Drop>(all: &mut Vec<T>, one: T) -> bool
    ensures { Grew all.old.items one result all.new.items }
{
    all.push(one).is_ok()
}

impl Core {
    // The link that is too far behind.
    fn behind(&self) -> Option<u32> {
        let head = self.slips.len() as u64;
        if head.saturating_sub(self.nets[0]) >= self.lag {
            return Some(0);
        }
        if head.saturating_sub(self.nets[1]) >= self.lag {
            return Some(1);
        }
        None
    }

    fn read(&mut self, vol: u32, start: u64, count: u32) -> Reply
        ensures { Does self.old (Ordered (Read vol start count)) (Replied result) self.new }
    {
        if count == 0 || count as u64 > MOST_CALL_BLOCKS {
            return Reply::Refused(No::Size);
        }
        if vol != 0 || start > VOLUME_BLOCKS - count as u64 {
            return Reply::Refused(No::Range);
        }
        self.faults = raised(self.faults);
        Reply::Refused(No::Device { disk: 0 })
    }

    // Why a write is held: a link is too far behind, or there is no memory.
    fn held_by(&mut self, link: Option<u32>) -> No
        ensures { HeldFor self.old result self.new }
    {
        self.held = raised(self.held);
        match link {
            Some(number) => No::Stalled {
                link: SiteName::Number(number),
            },
            None => No::Limit {
                what: Counted::Number,
                most: self.slips.len() as u64,
            },
        }
    }

    fn write(&mut self, vol: u32, start: u64, bytes: &Blocks) -> Reply
        ensures { Does self.old (Ordered (WriteBlocks vol start bytes.now)) (Replied result) self.new }
    {
        let count = count_of(bytes);
        if vol != 0 || start > VOLUME_BLOCKS - count {
            return Reply::Refused(No::Range);
        }
        if let Some(link) = self.behind() {
            return Reply::Refused(self.held_by(Some(link)));
        }
        let slip = Slip {
            vol,
            start,
            bytes: *bytes,
        };
        if !put(&mut self.slips, slip) {
            return Reply::Refused(self.held_by(None));
        }
        Reply::Logged(self.slips.len() as u64)
    }

    fn reply_to(&mut self, call: &Call) -> Reply
        ensures { Does self.old (Ordered call.now) (Replied result) self.new }
    {
        match call {
            Call::Read { vol, start, count } => self.read(*vol, *start, *count),
            Call::Write { vol, start, bytes } => self.write(*vol, *start, bytes),
        }
    }

    // The update of a number that is logged.
    fn update_of(&self, number: u64) -> Update
        requires { (0 < number) × (number ≤ length self.now.slips.items) }
        ensures { (slice_get (kept_from 0 self.now.slips.items) (number - 1) ≡ Some result) × (result.number ≡ number) × (result.line ≡ record { generation = 0; origin = 0 }) }
    {
        let slip = &self.slips[number as usize - 1];
        Update {
            line: Line {
                generation: 0,
                origin: 0,
            },
            number,
            vol: slip.vol,
            block: slip.start,
            bytes: slip.bytes,
        }
    }

    fn fetch(&self, number: u64, into: &mut Update) -> JobReply
        ensures { AnswersFetch self.now number result into.new }
    {
        if number == 0 {
            return JobReply::Gone { low: 1 };
        }
        if number > self.slips.len() as u64 {
            return JobReply::Nothing;
        }
        *into = self.update_of(number);
        JobReply::Done(number)
    }

    fn acked(&mut self, link: u32, net: u64, stored: u64) -> JobReply
        requires { link < 2 }
        ensures { (into : _) → Does self.old (Charged (Acked link net stored)) (Worked result into) self.new }
    {
        let old = self.nets[link as usize];
        let new = if net > old { net } else { old };
        self.nets[link as usize] = new;
        JobReply::Done(new)
    }

    // A write is confirmed where both links have received it.
    fn wait(&self, number: u64) -> JobReply
        ensures { (into : _) → Does self.now (Charged (Wait number)) (Worked result into) self.now }
    {
        if number <= self.nets[0] && number <= self.nets[1] {
            JobReply::Done(number)
        } else {
            JobReply::Nothing
        }
    }

    fn work(&mut self, job: &Job, into: &mut Update) -> JobReply
        requires { NamesLink 2 job.now }
        ensures { Does self.old (Charged job.now) (Worked result into.new) self.new }
    {
        match job {
            // What is logged is in the volume at once.
            Job::Apply { count: _ } => JobReply::Nothing,
            Job::Fetch { number } => self.fetch(*number, into),
            Job::Acked { link, net, stored } => self.acked(*link, *net, *stored),
            Job::Wait { number } => self.wait(*number),
        }
    }
}

impl Engine for Small {
    ghost use Rattle.std.specs.Prelude.{[], ◌∷◌};

    ghost state = { λ e. logging e.core (trail_of e.trail.value) };

    ghost root = { λ e. record e { core = e.first.value; trail = e.none } };

    fn head(&self) -> u64 {
        self.core.slips.len() as u64
    }

    fn line(&self) -> Line {
        Line {
            generation: 0,
            origin: 0,
        }
    }

    fn answer(&mut self, call: &Call) -> Reply {
        let reply = self.core.reply_to(call);
        let last = Last::Ordered(Snapshot::of(call), Snapshot::of(&reply));
        self.trail = noted(mem::replace(&mut self.trail, unused()), last);
        reply
    }

    fn job(&mut self, job: &Job, into: &mut Update) -> JobReply {
        let reply = self.core.work(job, into);
        let last = Last::Charged(Snapshot::of(job), Snapshot::of(&reply), Snapshot::of(into));
        self.trail = noted(mem::replace(&mut self.trail, unused()), last);
        reply
    }
}
