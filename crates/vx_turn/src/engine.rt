// What the callers share.
ghost use Rattle.std.specs.Prelude.{◌≡◌, length};
ghost use Rattle.vx_turn.specs.Acting.{EngineActs, NamesLink};
ghost use Rattle.vx_turn.specs.declared.ask.Ask.TheVariants.{Ordered, Charged};
ghost use Rattle.vx_turn.specs.declared.ask.Said.TheVariants.{Replied, Worked};
ghost use Rattle.vx_turn.specs.declared.meaning.State.{State};

use crate::ask::{Job, JobReply};
use vx_model::{Call, Line, Reply, Update};

/// It answers calls on volumes with a log, and does jobs on the log and its links. Its `state` is what contracts see of it. Its `root`
/// is for contracts alone, and no call changes it.
pub trait Engine: Send + Drop {
    ghost state: { Self → State };

    ghost root: { Self → Self };

    /// The number of the last logged write.
    fn head(&self) -> u64
        ensures { result ≡ (state self.now).head };

    /// The line of history of its log.
    fn line(&self) -> Line
        ensures { result ≡ (state self.now).line };

    /// Makes a call.
    fn answer(&mut self, call: &Call) -> Reply
        ensures acts { EngineActs (state self.old) (Ordered call.now) (Replied result) (state self.new) }
        ensures root { root self.new ≡ root self.old };

    /// Does a job. A link that it names exists. What was fetched is in `into` where it answers `Done`.
    fn job(&mut self, job: &Job, into: &mut Update) -> JobReply
        requires { NamesLink (length (state self.old).nets) job.now }
        ensures acts { EngineActs (state self.old) (Charged job.now) (Worked result into.new) (state self.new) }
        ensures root { root self.new ≡ root self.old };
}
