// The line that asks whether a write is confirmed.
ghost use Rattle.std.specs.Prelude.{◌≡◌};
ghost use Rattle.vx_history.specs.Doubts.{Doubted};
ghost use Rattle.vx_script.specs.declared.line.ScriptLine.TheVariants.{Wait};
ghost use Rattle.vx_yard.specs.Carries.{Carries};
ghost use Rattle.vx_yard.specs.Happenings.{reply_of};
ghost use Rattle.vx_yard.specs.Standing.{Leads, StandsFor};
ghost use Rattle.vx_yard.specs.Working.{IsFree};

use vx_disk::Rack;
use vx_events::Said;
use vx_history::Said as Happened;
use vx_linked::wait;
use vx_model::Name;
use vx_yard::Yard;

/// What is said of an event of links or packets, as a reply.
pub fn reply(said: Happened) -> Said
    ensures { result ≡ reply_of said }
{
    match said {
        Happened::Done | Happened::Got(_) => Said::Done,
        Happened::DoneAt(number) | Happened::Recovered(number) => Said::DoneAt(number),
        Happened::Logged(number) => Said::Logged(number),
        Happened::Pending(number) => Said::Pending(number),
        Happened::Taken => Said::Taken,
        Happened::Ignored => Said::Ignored,
        Happened::Refused(no) => Said::Refused(no),
    }
}

/// Whether the write of this number is confirmed as the links of its site ask.
pub(crate) fn wait_line<R: Rack>(yard: &Yard<R>, name: &Name, number: u64) -> Said
    requires free { IsFree yard.now (Wait name.now number) }
    ensures leads { (d : Doubted) → StandsFor d yard.now → Carries d yard.now → Leads d (Wait name.now number) result yard.now yard.now }
{
    reply(wait(&yard.facts, name, number))
}
