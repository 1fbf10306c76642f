// Where a test holds threads.
ghost use Rattle.vx_turn.specs.declared.meaning.State.{State};

use vx_model::{Call, Line, Reply, Update};
use vx_turn::{Engine, Job, JobReply};

/// The points are 1, at the begin of a write in the engine, 2, behind a record that a link's worker took, and 3, before a thread asks
/// for its turn.
pub trait Gate: Sync {
    fn pass(&self, point: u8);
}

/// A gate at which nothing is held.
pub struct OpenGate;

impl Gate for OpenGate {
    fn pass(&self, point: u8) {
        let _ = point;
    }
}

/// An engine that passes point 1 at the begin of each write.
#[derive(Drop)]
pub struct Gated<'a, E, G> {
    pub inner: E,
    pub gate: &'a G,
}

impl<'a, E: Engine, G: Gate> Engine for Gated<'a, E, G> {
    ghost state = { λ g. E.state g.inner };

    ghost root = { λ g. record g { inner = E.root g.inner } };

    fn head(&self) -> u64 {
        self.inner.head()
    }

    fn line(&self) -> Line {
        self.inner.line()
    }

    fn answer(&mut self, call: &Call) -> Reply {
        if let Call::Write {
            vol: _,
            start: _,
            bytes: _,
        } = call
        {
            self.gate.pass(1);
        }
        self.inner.answer(call)
    }

    fn job(&mut self, job: &Job, into: &mut Update) -> JobReply {
        self.inner.job(job, into)
    }
}
