// The work of a burst's threads.
ghost use Rattle.std.specs.Prelude.{◌≡◌};
ghost use Rattle.vx_turn.specs.Passing.{table_of};
ghost use Rattle.vx_burst_threads.specs.Working.{IsSet, AllSet, HasWorked, EachWorked};

use crate::drainer::Drainer;
use crate::gate::Gate;
use crate::plan::Planned;
use crate::shared::Shares;
use crate::writer::Writer;
use std::sync::Wait;
use std::sync::atomic::{AtomicU64, Ordering};
use std::thread;
use std::thread::Threads;
use vx_settle::Peer;
use vx_turn::{Engine, Turn};

/// What one thread does.
#[derive(Drop)]
pub enum Worker<P> {
    Writes(Writer),
    Drains(Drainer<P>),
}

impl<P: Peer> Worker<P> {
    // `busy` is the number of writers that are not done.
    fn work<H: Wait, E: Engine, G: Gate>(
        &mut self,
        rt: &H,
        gate: &G,
        turn: &Turn<E>,
        plan: &[Planned],
        busy: &AtomicU64,
    )
        requires { IsSet P.stand (table_of turn.now) plan.now self.old }
        ensures { HasWorked P.stand P.root plan.now self.old self.new }
    {
        match self {
            Worker::Writes(writer) => {
                writer.write_all(rt, gate, turn, plan);
                busy.fetch_sub(1, Ordering::SeqCst);
            }
            Worker::Drains(drainer) => drainer.drain(rt, gate, turn, busy),
        }
    }
}

/// All threads do their work.
pub(crate) fn work_each<H: Threads + Wait + Sync, E: Engine, P: Peer, S: Shares<E>, G: Gate>(
    rt: &H,
    gate: &G,
    shared: &S,
    plan: &[Planned],
    busy: &AtomicU64,
    workers: &mut [Worker<P>],
)
    requires { AllSet P.stand (table_of (S.is shared.now)) plan.now workers.old }
    ensures { EachWorked P.stand P.root plan.now workers.old workers.new }
{
    let work = |_: usize, worker: &mut Worker<P>|
        requires { IsSet P.stand (table_of (S.is shared.now)) plan.now worker.now }
        ensures { HasWorked P.stand P.root plan.entry.now worker.entry.now worker.exit.now }
    { worker.work(rt, gate, shared.turn(), plan, busy) };
    thread::for_each_mut(rt, workers, 16, &work);
}
